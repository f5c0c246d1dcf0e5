//! Memories whose read data follows the addresses.

ghost use Rattle.std.specs.Prelude.{◌≡◌, take};
ghost use Rattle.cx_prim.specs.CellStates.{IsState};
ghost use Rattle.cx_prim.specs.Rows.{FitsPorts, Row};
ghost use Rattle.cx_prim.specs.MemoryRows.{memory_row};
ghost use Rattle.cx_prim.proofs.MemoryLaws.{memory_lawful};
ghost use Rattle.cx_stateful.specs.Shown.{memory_shown};
ghost use Rattle.cx_stateful.specs.Layouts.{row_at_layout};

use crate::layout::{Layout, have_addresses, locate};
use cx_bits::Bits;
use cx_prim::{Cycle, OutOfRange, PortName, PortRow, Side, bit, is_on, number_at, value_of};
use cx_text::Memory;
use std::alloc::Global;

/// A memory: with `write_en` the word at the addresses takes `write_data` at the edge.
#[derive(Clone, Copy, Debug, PartialEq, Eq)]
pub struct CombinationalMemory {
    pub layout: Layout,
}

/// What a memory holds: its words in row-major order, and `done`.
#[derive(Debug, Drop)]
pub struct MemoryState {
    pub words: Vec<u128>,
    pub done: bool,
}

impl CombinationalMemory {
    /// The edge of a cycle. At an address out of range no word is written.
    pub fn edge(&self, state: &mut MemoryState, inputs: &[Option<Bits>])
        requires state_fits { IsState (row_at_layout memory_row self.now.layout).shape (memory_shown state.old) }
        requires inputs_fit { FitsPorts (row_at_layout memory_row self.now.layout).ports inputs.now }
        ensures value { memory_shown state.new ≡
            (row_at_layout memory_row self.now.layout).next (memory_shown state.old) inputs.now }
        ensures fits { IsState (row_at_layout memory_row self.now.layout).shape (memory_shown state.new) }
    {
        state.done = is_on(inputs, self.layout.dimensions + 1);
        if state.done {
            if let Ok(number) = locate(self.layout.sizes(), inputs) {
                state.words[number] = number_at(inputs, self.layout.dimensions);
            }
        }
    }
}

impl Cycle for CombinationalMemory {
    type State = MemoryState;

    ghost meaning = { λ p. row_at_layout memory_row p.layout };

    ghost shown = { memory_shown };

    fn port_count(&self) -> usize {
        self.layout.dimensions + 4
    }

    fn port(&self, n: usize) -> PortRow {
        if n < self.layout.dimensions {
            return self.layout.address_port(n);
        }
        match n - self.layout.dimensions {
            0 => PortRow {
                name: PortName::WriteData,
                side: Side::Plain,
                width: self.layout.width,
            },
            1 => PortRow {
                name: PortName::WriteEn,
                side: Side::Enable,
                width: 1,
            },
            2 => PortRow {
                name: PortName::ReadData,
                side: Side::Output,
                width: self.layout.width,
            },
            _ => PortRow {
                name: PortName::Done,
                side: Side::Registered,
                width: 1,
            },
        }
    }

    fn start(&self, alloc: Global) -> Result<MemoryState, Memory> {
        Ok(MemoryState {
            words: vec![in alloc; 0; self.layout.count as usize]?,
            done: false,
        })
    }

    fn output(&self, state: &MemoryState, inputs: &[Option<Bits>], port: usize) -> Option<Bits> {
        if port != self.layout.dimensions + 2 {
            return Some(bit(state.done));
        }
        if !have_addresses(self.layout.sizes(), inputs) {
            return None;
        }
        let number = locate(self.layout.sizes(), inputs).ok()?;
        Some(value_of(self.layout.width, state.words[number]))
    }

    fn demands(&self, _state: &MemoryState, inputs: &[Option<Bits>], port: usize) -> bool {
        is_on(inputs, self.layout.dimensions + 1) && port < self.layout.dimensions + 1
    }

    fn step(&self, state: &mut MemoryState, inputs: &[Option<Bits>]) -> Result<(), OutOfRange> {
        if is_on(inputs, self.layout.dimensions + 1) {
            locate(self.layout.sizes(), inputs)?;
        }
        self.edge(state, inputs);
        Ok(())
    }

    fn idle(&self, state: &mut MemoryState) {
        state.done = false;
    }

    ghost idle_once = { λ p. (memory_lawful p.layout.width (take p.layout.dimensions p.layout.sizes) (take p.layout.dimensions p.layout.address_widths) p.layout.within).idle_once };

    ghost quiet_is_idle = { λ p. (memory_lawful p.layout.width (take p.layout.dimensions p.layout.sizes) (take p.layout.dimensions p.layout.address_widths) p.layout.within).quiet_is_idle };

    ghost registered = { λ p. (memory_lawful p.layout.width (take p.layout.dimensions p.layout.sizes) (take p.layout.dimensions p.layout.address_widths) p.layout.within).registered };

    ghost looked_at = { λ p. (memory_lawful p.layout.width (take p.layout.dimensions p.layout.sizes) (take p.layout.dimensions p.layout.address_widths) p.layout.within).looked_at };

    ghost widths = { λ p. (memory_lawful p.layout.width (take p.layout.dimensions p.layout.sizes) (take p.layout.dimensions p.layout.address_widths) p.layout.within).widths };

    ghost reads_only = { λ p. (memory_lawful p.layout.width (take p.layout.dimensions p.layout.sizes) (take p.layout.dimensions p.layout.address_widths) p.layout.within).reads_only };

    ghost strict = { λ p. (memory_lawful p.layout.width (take p.layout.dimensions p.layout.sizes) (take p.layout.dimensions p.layout.address_widths) p.layout.within).strict };
}
