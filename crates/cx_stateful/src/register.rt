//! The register.

ghost use Rattle.std.specs.Prelude.{◌≡◌};
ghost use Rattle.cx_prim.specs.CellStates.{IsState};
ghost use Rattle.cx_prim.specs.Rows.{FitsPorts};
ghost use Rattle.cx_prim.specs.RegisterRow.{register_row};
ghost use Rattle.cx_prim.proofs.RegisterLaws.{register_lawful};
ghost use Rattle.cx_prim.specs.Widths.{IsWidth};
ghost use Rattle.cx_stateful.specs.Shown.{register_shown};

use cx_bits::Bits;
use cx_prim::{Cycle, OutOfRange, PortName, PortRow, Side, bit, is_on, number_at, value_of};
use cx_text::Memory;
use std::alloc::Global;

/// A register: with `write_en` it takes `in` at the edge and raises `done`.
#[derive(Clone, Copy, Debug, PartialEq, Eq)]
pub struct Register {
    pub width: u8,
    pub ghost within: { IsWidth width },
}

/// What a register holds.
#[derive(Clone, Copy, Debug, PartialEq, Eq)]
pub struct RegisterState {
    pub value: u128,
    pub done: bool,
}

impl RegisterState {
    /// The state before the first cycle.
    pub fn at_rest() -> RegisterState
        ensures value { register_shown result ≡ (register_row 0).start }
    {
        RegisterState {
            value: 0,
            done: false,
        }
    }
}

impl Register {
    /// The edge of a cycle.
    pub fn edge(&self, state: &mut RegisterState, inputs: &[Option<Bits>])
        requires state_fits { IsState (register_row self.now.width).shape (register_shown state.old) }
        requires inputs_fit { FitsPorts (register_row self.now.width).ports inputs.now }
        ensures value { register_shown state.new ≡
            (register_row self.now.width).next (register_shown state.old) inputs.now }
        ensures fits { IsState (register_row self.now.width).shape (register_shown state.new) }
    {
        state.done = is_on(inputs, 1);
        if state.done {
            state.value = number_at(inputs, 0);
        }
    }
}

impl Cycle for Register {
    type State = RegisterState;

    ghost meaning = { λ p. register_row p.width };

    ghost shown = { register_shown };

    fn port_count(&self) -> usize {
        4
    }

    fn port(&self, n: usize) -> PortRow {
        match n {
            0 => PortRow {
                name: PortName::In,
                side: Side::Plain,
                width: self.width,
            },
            1 => PortRow {
                name: PortName::WriteEn,
                side: Side::Enable,
                width: 1,
            },
            2 => PortRow {
                name: PortName::Out,
                side: Side::Registered,
                width: self.width,
            },
            _ => PortRow {
                name: PortName::Done,
                side: Side::Registered,
                width: 1,
            },
        }
    }

    fn start(&self, _alloc: Global) -> Result<RegisterState, Memory> {
        Ok(RegisterState::at_rest())
    }

    fn output(&self, state: &RegisterState, _inputs: &[Option<Bits>], port: usize) -> Option<Bits> {
        Some(if port == 2 {
            value_of(self.width, state.value)
        } else {
            bit(state.done)
        })
    }

    fn demands(&self, _state: &RegisterState, inputs: &[Option<Bits>], port: usize) -> bool {
        is_on(inputs, 1) && port == 0
    }

    fn step(&self, state: &mut RegisterState, inputs: &[Option<Bits>]) -> Result<(), OutOfRange> {
        self.edge(state, inputs);
        Ok(())
    }

    fn idle(&self, state: &mut RegisterState) {
        state.done = false;
    }

    ghost idle_once = { λ p. (register_lawful p.width p.within).idle_once };

    ghost quiet_is_idle = { λ p. (register_lawful p.width p.within).quiet_is_idle };

    ghost registered = { λ p. (register_lawful p.width p.within).registered };

    ghost looked_at = { λ p. (register_lawful p.width p.within).looked_at };

    ghost widths = { λ p. (register_lawful p.width p.within).widths };

    ghost reads_only = { λ p. (register_lawful p.width p.within).reads_only };

    ghost strict = { λ p. (register_lawful p.width p.within).strict };
}
