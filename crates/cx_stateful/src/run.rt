//! A pipe's way through one operation.

ghost use Rattle.std.specs.Prelude.{◌≡◌, ◌<◌, ◌^◌};
ghost use Rattle.cx_bits.specs.BitVector.{Fits};
ghost use Rattle.cx_prim.specs.CellStates.{IsRun};
ghost use Rattle.cx_prim.specs.Rows.{FitsPorts};
ghost use Rattle.cx_prim.specs.PipeRows.{advanced, at_rest, holding, is_last, stopped};
ghost use Rattle.cx_prim.specs.declared.ports.PortRow.{PortRow};
ghost use Rattle.cx_stateful.specs.Shown.{run_shown};
ghost use Rattle.cx_stateful.specs.Operands.{HasOperands};

use cx_bits::Bits;
use cx_prim::number_at;

/// How many cycles a pipe has gone, the operands that it holds, and `done`.
#[derive(Clone, Copy, Debug, PartialEq, Eq)]
pub struct Run {
    pub count: u8,
    pub left: u128,
    pub right: u128,
    pub done: bool,
}

impl Run {
    /// The run before the first cycle.
    pub fn at_rest() -> Run
        ensures value { run_shown result ≡ at_rest }
    {
        Run {
            count: 0,
            left: 0,
            right: 0,
            done: false,
        }
    }

    /// One cycle with `go`: the first takes the operands, from ports 1 and 2. Answers whether it is the last.
    pub fn advance(&mut self, width: u8, latency: u8, inputs: &[Option<Bits>]) -> bool
        requires under_way { IsRun width latency (run_shown self.old) }
        requires operands { HasOperands width inputs.now }
        ensures last { result ≡ is_last latency (holding (run_shown self.old) inputs.now) }
        ensures value { run_shown self.new ≡ advanced latency (holding (run_shown self.old) inputs.now) }
        ensures fits { IsRun width latency (run_shown self.new) }
    {
        if self.count == 0 {
            self.left = number_at(inputs, 1);
            self.right = number_at(inputs, 2);
        }
        let is_last = self.count + 1 == latency;
        self.count = if is_last { 0 } else { self.count + 1 };
        self.done = is_last;
        is_last
    }

    /// A cycle without `go`: the pipe begins anew, and `done` falls.
    pub fn stop(&mut self)
        ensures value { run_shown self.new ≡ stopped (run_shown self.old) }
    {
        self.count = 0;
        self.done = false;
    }
}
