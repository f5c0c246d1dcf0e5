//! The divider.

ghost use Rattle.std.specs.Prelude.{◌≡◌};
ghost use Rattle.cx_prim.specs.CellStates.{IsState};
ghost use Rattle.cx_prim.specs.Rows.{FitsPorts};
ghost use Rattle.cx_prim.specs.PipeRows.{divider_row};
ghost use Rattle.cx_prim.proofs.PipeLaws.{divider_lawful};
ghost use Rattle.cx_prim.specs.Widths.{IsWidth};
ghost use Rattle.cx_stateful.specs.Shown.{divider_shown};

use crate::run::Run;
use cx_bits::Bits;
use cx_prim::{Cycle, OutOfRange, PortName, PortRow, Side, bit, is_on, value_of};
use cx_text::Memory;
use std::alloc::Global;

/// A quotient and a remainder, after as many cycles with `go` as the width has bits.
#[derive(Clone, Copy, Debug, PartialEq, Eq)]
pub struct Divider {
    pub width: u8,
    pub ghost within: { IsWidth width },
}

/// What a divider holds.
#[derive(Clone, Copy, Debug, PartialEq, Eq)]
pub struct DividerState {
    pub run: Run,
    pub quotient: u128,
    pub remainder: u128,
}

impl DividerState {
    /// The state before the first cycle.
    pub fn at_rest() -> DividerState
        ensures value { divider_shown result ≡ (divider_row 0).start }
    {
        DividerState {
            run: Run::at_rest(),
            quotient: 0,
            remainder: 0,
        }
    }
}

impl Divider {
    /// The edge of a cycle.
    pub fn edge(&self, state: &mut DividerState, inputs: &[Option<Bits>])
        requires state_fits { IsState (divider_row self.now.width).shape (divider_shown state.old) }
        requires inputs_fit { FitsPorts (divider_row self.now.width).ports inputs.now }
        ensures value { divider_shown state.new ≡
            (divider_row self.now.width).next (divider_shown state.old) inputs.now }
        ensures fits { IsState (divider_row self.now.width).shape (divider_shown state.new) }
    {
        if !is_on(inputs, 0) {
            state.run.stop();
            return;
        }
        if state.run.advance(self.width, self.width, inputs) {
            let left = value_of(self.width, state.run.left);
            let right = value_of(self.width, state.run.right);
            let (quotient, remainder) = left.div_rem(right);
            state.quotient = quotient.value();
            state.remainder = remainder.value();
        }
    }
}

impl Cycle for Divider {
    type State = DividerState;

    ghost meaning = { λ p. divider_row p.width };

    ghost shown = { divider_shown };

    fn port_count(&self) -> usize {
        6
    }

    fn port(&self, n: usize) -> PortRow {
        match n {
            0 => PortRow {
                name: PortName::Go,
                side: Side::Enable,
                width: 1,
            },
            1 => PortRow {
                name: PortName::Left,
                side: Side::Plain,
                width: self.width,
            },
            2 => PortRow {
                name: PortName::Right,
                side: Side::Plain,
                width: self.width,
            },
            3 => PortRow {
                name: PortName::OutQuotient,
                side: Side::Registered,
                width: self.width,
            },
            4 => PortRow {
                name: PortName::OutRemainder,
                side: Side::Registered,
                width: self.width,
            },
            _ => PortRow {
                name: PortName::Done,
                side: Side::Registered,
                width: 1,
            },
        }
    }

    fn start(&self, _alloc: Global) -> Result<DividerState, Memory> {
        Ok(DividerState::at_rest())
    }

    fn output(&self, state: &DividerState, _inputs: &[Option<Bits>], port: usize) -> Option<Bits> {
        Some(match port {
            3 => value_of(self.width, state.quotient),
            4 => value_of(self.width, state.remainder),
            _ => bit(state.run.done),
        })
    }

    fn demands(&self, state: &DividerState, inputs: &[Option<Bits>], port: usize) -> bool {
        is_on(inputs, 0) && state.run.count == 0 && 1 <= port && port <= 2
    }

    fn step(&self, state: &mut DividerState, inputs: &[Option<Bits>]) -> Result<(), OutOfRange> {
        self.edge(state, inputs);
        Ok(())
    }

    fn idle(&self, state: &mut DividerState) {
        state.run.stop();
    }

    ghost idle_once = { λ p. (divider_lawful p.width p.within).idle_once };

    ghost quiet_is_idle = { λ p. (divider_lawful p.width p.within).quiet_is_idle };

    ghost registered = { λ p. (divider_lawful p.width p.within).registered };

    ghost looked_at = { λ p. (divider_lawful p.width p.within).looked_at };

    ghost widths = { λ p. (divider_lawful p.width p.within).widths };

    ghost reads_only = { λ p. (divider_lawful p.width p.within).reads_only };

    ghost strict = { λ p. (divider_lawful p.width p.within).strict };
}
