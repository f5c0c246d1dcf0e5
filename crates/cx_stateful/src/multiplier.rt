//! The multiplier.

ghost use Rattle.std.specs.Prelude.{◌≡◌};
ghost use Rattle.cx_prim.specs.CellStates.{IsState};
ghost use Rattle.cx_prim.specs.Rows.{FitsPorts};
ghost use Rattle.cx_prim.specs.PipeRows.{multiplier_row};
ghost use Rattle.cx_prim.proofs.PipeLaws.{multiplier_lawful};
ghost use Rattle.cx_prim.specs.Widths.{IsWidth};
ghost use Rattle.cx_stateful.specs.Shown.{multiplier_shown};

use crate::run::Run;
use cx_bits::Bits;
use cx_prim::{Cycle, OutOfRange, PortName, PortRow, Side, bit, is_on, value_of};
use cx_text::Memory;
use std::alloc::Global;

/// A product modulo two to the width, in the third cycle with `go`.
#[derive(Clone, Copy, Debug, PartialEq, Eq)]
pub struct Multiplier {
    pub width: u8,
    pub ghost within: { IsWidth width },
}

/// What a multiplier holds.
#[derive(Clone, Copy, Debug, PartialEq, Eq)]
pub struct MultiplierState {
    pub run: Run,
    pub product: u128,
}

impl MultiplierState {
    /// The state before the first cycle.
    pub fn at_rest() -> MultiplierState
        ensures value { multiplier_shown result ≡ (multiplier_row 0).start }
    {
        MultiplierState {
            run: Run::at_rest(),
            product: 0,
        }
    }
}

impl Multiplier {
    /// The edge of a cycle.
    pub fn edge(&self, state: &mut MultiplierState, inputs: &[Option<Bits>])
        requires state_fits { IsState (multiplier_row self.now.width).shape (multiplier_shown state.old) }
        requires inputs_fit { FitsPorts (multiplier_row self.now.width).ports inputs.now }
        ensures value { multiplier_shown state.new ≡
            (multiplier_row self.now.width).next (multiplier_shown state.old) inputs.now }
        ensures fits { IsState (multiplier_row self.now.width).shape (multiplier_shown state.new) }
    {
        if !is_on(inputs, 0) {
            state.run.stop();
            return;
        }
        if state.run.advance(self.width, 3, inputs) {
            let left = value_of(self.width, state.run.left);
            let right = value_of(self.width, state.run.right);
            state.product = left.mul(right).value();
        }
    }
}

impl Cycle for Multiplier {
    type State = MultiplierState;

    ghost meaning = { λ p. multiplier_row p.width };

    ghost shown = { multiplier_shown };

    fn port_count(&self) -> usize {
        5
    }

    fn port(&self, n: usize) -> PortRow {
        match n {
            0 => PortRow {
                name: PortName::Go,
                side: Side::Enable,
                width: 1,
            },
            1 => PortRow {
                name: PortName::Left,
                side: Side::Plain,
                width: self.width,
            },
            2 => PortRow {
                name: PortName::Right,
                side: Side::Plain,
                width: self.width,
            },
            3 => PortRow {
                name: PortName::Out,
                side: Side::Registered,
                width: self.width,
            },
            _ => PortRow {
                name: PortName::Done,
                side: Side::Registered,
                width: 1,
            },
        }
    }

    fn start(&self, _alloc: Global) -> Result<MultiplierState, Memory> {
        Ok(MultiplierState::at_rest())
    }

    fn output(
        &self,
        state: &MultiplierState,
        _inputs: &[Option<Bits>],
        port: usize,
    ) -> Option<Bits> {
        Some(if port == 3 {
            value_of(self.width, state.product)
        } else {
            bit(state.run.done)
        })
    }

    fn demands(&self, state: &MultiplierState, inputs: &[Option<Bits>], port: usize) -> bool {
        is_on(inputs, 0) && state.run.count == 0 && 1 <= port && port <= 2
    }

    fn step(&self, state: &mut MultiplierState, inputs: &[Option<Bits>]) -> Result<(), OutOfRange> {
        self.edge(state, inputs);
        Ok(())
    }

    fn idle(&self, state: &mut MultiplierState) {
        state.run.stop();
    }

    ghost idle_once = { λ p. (multiplier_lawful p.width p.within).idle_once };

    ghost quiet_is_idle = { λ p. (multiplier_lawful p.width p.within).quiet_is_idle };

    ghost registered = { λ p. (multiplier_lawful p.width p.within).registered };

    ghost looked_at = { λ p. (multiplier_lawful p.width p.within).looked_at };

    ghost widths = { λ p. (multiplier_lawful p.width p.within).widths };

    ghost reads_only = { λ p. (multiplier_lawful p.width p.within).reads_only };

    ghost strict = { λ p. (multiplier_lawful p.width p.within).strict };
}
