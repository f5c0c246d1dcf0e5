//! The timer, which the compiler makes for static control.

ghost use Rattle.std.specs.Prelude.{◌≡◌, ◌<◌, ◌≤◌, ◌^◌};
ghost use Rattle.cx_prim.specs.CellStates.{IsState};
ghost use Rattle.cx_prim.specs.Rows.{FitsPorts};
ghost use Rattle.cx_prim.specs.PipeRows.{timer_row};
ghost use Rattle.cx_prim.proofs.PipeLaws.{timer_lawful};
ghost use Rattle.cx_stateful.specs.Shown.{timer_shown};

use cx_bits::Bits;
use cx_prim::{Cycle, OutOfRange, PortName, PortRow, Side, bit, is_on, value_of};
use cx_text::Memory;
use std::alloc::Global;

/// A counter of cycles with `go`, which begins anew and raises `done` after `length` of them.
#[derive(Clone, Copy, Debug, PartialEq, Eq)]
pub struct Timer {
    pub length: u32,
    pub ghost some: { 1 ≤ length },
    pub ghost few: { length < 2 ^ 32 },
}

/// What a timer holds.
#[derive(Clone, Copy, Debug, PartialEq, Eq)]
pub struct TimerState {
    pub count: u32,
    pub done: bool,
}

impl TimerState {
    /// The state before the first cycle.
    pub fn at_rest() -> TimerState
        ensures value { timer_shown result ≡ (timer_row 0).start }
    {
        TimerState {
            count: 0,
            done: false,
        }
    }
}

impl Timer {
    /// The edge of a cycle.
    pub fn edge(&self, state: &mut TimerState, inputs: &[Option<Bits>])
        requires state_fits { IsState (timer_row self.now.length).shape (timer_shown state.old) }
        requires inputs_fit { FitsPorts (timer_row self.now.length).ports inputs.now }
        ensures value { timer_shown state.new ≡ (timer_row self.now.length).next (timer_shown state.old) inputs.now }
        ensures fits { IsState (timer_row self.now.length).shape (timer_shown state.new) }
    {
        if !is_on(inputs, 0) {
            *state = TimerState::at_rest();
        } else if state.count + 1 == self.length {
            *state = TimerState {
                count: 0,
                done: true,
            };
        } else {
            *state = TimerState {
                count: state.count + 1,
                done: false,
            };
        }
    }
}

impl Cycle for Timer {
    type State = TimerState;

    ghost meaning = { λ p. timer_row p.length };

    ghost shown = { timer_shown };

    fn port_count(&self) -> usize {
        3
    }

    fn port(&self, n: usize) -> PortRow {
        match n {
            0 => PortRow {
                name: PortName::Go,
                side: Side::Enable,
                width: 1,
            },
            1 => PortRow {
                name: PortName::Out,
                side: Side::Registered,
                width: 32,
            },
            _ => PortRow {
                name: PortName::Done,
                side: Side::Registered,
                width: 1,
            },
        }
    }

    fn start(&self, _alloc: Global) -> Result<TimerState, Memory> {
        Ok(TimerState::at_rest())
    }

    fn output(&self, state: &TimerState, _inputs: &[Option<Bits>], port: usize) -> Option<Bits> {
        Some(if port == 1 {
            value_of(32, u128::from(state.count))
        } else {
            bit(state.done)
        })
    }

    fn demands(&self, _state: &TimerState, _inputs: &[Option<Bits>], _port: usize) -> bool {
        false
    }

    fn step(&self, state: &mut TimerState, inputs: &[Option<Bits>]) -> Result<(), OutOfRange> {
        self.edge(state, inputs);
        Ok(())
    }

    fn idle(&self, state: &mut TimerState) {
        *state = TimerState::at_rest();
    }

    ghost idle_once = { λ p. (timer_lawful p.length p.some p.few).idle_once };

    ghost quiet_is_idle = { λ p. (timer_lawful p.length p.some p.few).quiet_is_idle };

    ghost registered = { λ p. (timer_lawful p.length p.some p.few).registered };

    ghost looked_at = { λ p. (timer_lawful p.length p.some p.few).looked_at };

    ghost widths = { λ p. (timer_lawful p.length p.some p.few).widths };

    ghost reads_only = { λ p. (timer_lawful p.length p.some p.few).reads_only };

    ghost strict = { λ p. (timer_lawful p.length p.some p.few).strict };
}
