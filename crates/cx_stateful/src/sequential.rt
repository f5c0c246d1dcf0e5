//! Memories whose read data is registered.

ghost use Rattle.std.specs.Prelude.{◌≡◌, take, false};
ghost use Rattle.cx_prim.specs.CellStates.{IsState};
ghost use Rattle.cx_prim.specs.CellStates as plain;
ghost use Rattle.cx_prim.specs.Rows.{FitsPorts, Row};
ghost use Rattle.cx_prim.specs.MemoryRows.{sequential_memory_row};
ghost use Rattle.cx_prim.proofs.MemoryLaws.{sequential_lawful};
ghost use Rattle.cx_stateful.specs.Shown.{sequential_shown};
ghost use Rattle.cx_stateful.specs.Layouts.{row_at_layout};

use crate::layout::{Layout, locate};
use cx_bits::Bits;
use cx_prim::{Cycle, OutOfRange, PortName, PortRow, Side, bit, is_on, number_at, value_of};
use cx_text::Memory;
use std::alloc::Global;

/// A memory that reads or writes one word at an edge with `content_en`.
#[derive(Clone, Copy, Debug, PartialEq, Eq)]
pub struct SequentialMemory {
    pub layout: Layout,
}

/// What a sequential memory holds: its words in row-major order, the word that was read last, and `done`.
#[derive(Debug, Drop)]
pub struct SequentialState {
    pub words: Vec<u128>,
    pub read_data: u128,
    pub done: bool,
}

impl SequentialState {
    /// Forgets all but the words.
    pub fn clear(&mut self)
        ensures value { sequential_shown self.new ≡ plain.SequentialMemory self.old.words.items 0 false }
    {
        self.read_data = 0;
        self.done = false;
    }
}

impl SequentialMemory {
    /// The edge of a cycle. At an address out of range 0 is read and no word is written.
    pub fn edge(&self, state: &mut SequentialState, inputs: &[Option<Bits>])
        requires state_fits { IsState (row_at_layout sequential_memory_row self.now.layout).shape
            (sequential_shown state.old) }
        requires inputs_fit { FitsPorts (row_at_layout sequential_memory_row self.now.layout).ports inputs.now }
        ensures value { sequential_shown state.new ≡
            (row_at_layout sequential_memory_row self.now.layout).next
            (sequential_shown state.old) inputs.now }
        ensures fits { IsState (row_at_layout sequential_memory_row self.now.layout).shape
            (sequential_shown state.new) }
    {
        state.done = is_on(inputs, self.layout.dimensions);
        if !state.done {
            return;
        }
        let place = locate(self.layout.sizes(), inputs);
        if is_on(inputs, self.layout.dimensions + 1) {
            if let Ok(number) = place {
                state.words[number] = number_at(inputs, self.layout.dimensions + 2);
            }
        } else {
            state.read_data = match place {
                Ok(number) => state.words[number],
                Err(_) => 0,
            };
        }
    }
}

impl Cycle for SequentialMemory {
    type State = SequentialState;

    ghost meaning = { λ p. row_at_layout sequential_memory_row p.layout };

    ghost shown = { sequential_shown };

    fn port_count(&self) -> usize {
        self.layout.dimensions + 5
    }

    fn port(&self, n: usize) -> PortRow {
        if n < self.layout.dimensions {
            return self.layout.address_port(n);
        }
        match n - self.layout.dimensions {
            0 => PortRow {
                name: PortName::ContentEn,
                side: Side::Enable,
                width: 1,
            },
            1 => PortRow {
                name: PortName::WriteEn,
                side: Side::Enable,
                width: 1,
            },
            2 => PortRow {
                name: PortName::WriteData,
                side: Side::Plain,
                width: self.layout.width,
            },
            3 => PortRow {
                name: PortName::ReadData,
                side: Side::Registered,
                width: self.layout.width,
            },
            _ => PortRow {
                name: PortName::Done,
                side: Side::Registered,
                width: 1,
            },
        }
    }

    fn start(&self, alloc: Global) -> Result<SequentialState, Memory> {
        Ok(SequentialState {
            words: vec![in alloc; 0; self.layout.count as usize]?,
            read_data: 0,
            done: false,
        })
    }

    fn output(
        &self,
        state: &SequentialState,
        _inputs: &[Option<Bits>],
        port: usize,
    ) -> Option<Bits> {
        Some(if port == self.layout.dimensions + 3 {
            value_of(self.layout.width, state.read_data)
        } else {
            bit(state.done)
        })
    }

    fn demands(&self, _state: &SequentialState, inputs: &[Option<Bits>], port: usize) -> bool {
        let dimensions = self.layout.dimensions;
        is_on(inputs, dimensions)
            && (port < dimensions || port == dimensions + 2 && is_on(inputs, dimensions + 1))
    }

    fn step(&self, state: &mut SequentialState, inputs: &[Option<Bits>]) -> Result<(), OutOfRange> {
        if is_on(inputs, self.layout.dimensions) {
            locate(self.layout.sizes(), inputs)?;
        }
        self.edge(state, inputs);
        Ok(())
    }

    fn idle(&self, state: &mut SequentialState) {
        state.done = false;
    }

    ghost idle_once = { λ p. (sequential_lawful p.layout.width (take p.layout.dimensions p.layout.sizes) (take p.layout.dimensions p.layout.address_widths) p.layout.within).idle_once };

    ghost quiet_is_idle = { λ p. (sequential_lawful p.layout.width (take p.layout.dimensions p.layout.sizes) (take p.layout.dimensions p.layout.address_widths) p.layout.within).quiet_is_idle };

    ghost registered = { λ p. (sequential_lawful p.layout.width (take p.layout.dimensions p.layout.sizes) (take p.layout.dimensions p.layout.address_widths) p.layout.within).registered };

    ghost looked_at = { λ p. (sequential_lawful p.layout.width (take p.layout.dimensions p.layout.sizes) (take p.layout.dimensions p.layout.address_widths) p.layout.within).looked_at };

    ghost widths = { λ p. (sequential_lawful p.layout.width (take p.layout.dimensions p.layout.sizes) (take p.layout.dimensions p.layout.address_widths) p.layout.within).widths };

    ghost reads_only = { λ p. (sequential_lawful p.layout.width (take p.layout.dimensions p.layout.sizes) (take p.layout.dimensions p.layout.address_widths) p.layout.within).reads_only };

    ghost strict = { λ p. (sequential_lawful p.layout.width (take p.layout.dimensions p.layout.sizes) (take p.layout.dimensions p.layout.address_widths) p.layout.within).strict };
}
