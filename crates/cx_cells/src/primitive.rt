//! A primitive as designs write it, with a name and numbers.

ghost use Rattle.std.specs.Prelude.{◌≡◌, ◌≢◌, ◌<◌, ◌≤◌, ◌↔◌, ◌∷◌, [], None, IfOk, IsErrOf, slice_index};

use crate::kinds::{Kind, KindState};
use crate::numbers::{kind_of, padded};
use cx_bits::Bits;
use cx_prim::{Cycle, OutOfRange, PortRow, PrimitiveName};
use cx_stateful::Timer;
use cx_text::Memory;
use std::alloc::Global;
use std::marker::Model;

/// A primitive. Contracts see it as its row: a name and numbers.
#[derive(Debug, Drop)]
pub struct Primitive {
    name: PrimitiveName,
    numbers: [u64; 9],
    count: usize,
    kind: Kind,
}

impl Model for Primitive {
    ghost use Rattle.std.specs.Prelude.{take};
    ghost use Rattle.cx_prim.specs.Table.{PrimitiveRow};
    ghost use Rattle.cx_cells.specs.Primitives.{IsOfKind};

    ghost Value = { PrimitiveRow };

    ghost view = { λ p. record { name = p.name; numbers = take p.count p.numbers } };

    ghost invariant = { λ p. IsOfKind (record { name = p.name; numbers = take p.count p.numbers }) p.kind p.count };
}

/// What a primitive holds. Contracts see it as a state of its row.
#[derive(Debug, Drop)]
pub struct PrimState {
    held: KindState,
}

impl Model for PrimState {
    ghost use Rattle.cx_prim.specs.CellStates.{CellState};
    ghost use Rattle.cx_cells.specs.Kinds.{state_shown};

    ghost Value = { CellState };

    ghost view = { λ s. state_shown s.held };
}

/// Why there is no primitive of a name at some numbers.
#[derive(Clone, Copy, Debug, PartialEq, Eq)]
pub enum PrimFault {
    /// No primitive that designs can write has the name.
    Unknown,
    /// The numbers break the row of the name.
    BadParameters,
}

impl Primitive {
    ghost use Rattle.cx_prim.specs.CellStates.{CellState, IsState, TakesWords, HasWord, words_of};
    ghost use Rattle.cx_prim.specs.PrimitiveNames.{IsNamed, name_text};
    ghost use Rattle.cx_prim.specs.Rows as rows;
    ghost use Rattle.cx_prim.specs.Table.{PrimitiveRow, HasRow, row_at, row_of};
    ghost use Rattle.cx_cells.specs.Kinds.{kind_row};

    /// The primitive of this name at these numbers. A name of no primitive is `Unknown`, and so is the timer's.
    pub fn find(name: &[u8], numbers: &[u64]) -> Result<Primitive, PrimFault>
        ensures ok { IfOk result (λ p. IsNamed p.name name.now) }
        ensures value { IfOk result (λ p. p.numbers ≡ numbers.now) }
        ensures unknown { IsErrOf result PrimFault.Unknown ↔ ((named : PrimitiveName) → ¬ IsNamed named name.now) }
        ensures bad_parameters { IsErrOf result PrimFault.BadParameters ↔
            ((named : PrimitiveName) × IsNamed named name.now × (row_at named numbers.now ≡ None)) }
    {
        let named = PrimitiveName::from_text(name).ok_or(PrimFault::Unknown)?;
        let kind = kind_of(named, numbers).ok_or(PrimFault::BadParameters)?;
        Ok(Primitive {
            name: named,
            numbers: padded(numbers),
            count: numbers.len(),
            kind,
        })
    }

    /// The timer of this length in cycles.
    pub fn timer(length: u32) -> Primitive
        requires { 1 ≤ length }
        ensures value { result ≡ record { name = PrimitiveName.Timer; numbers = length ∷ [] } }
    {
        let numbers = [u64::from(length)];
        Primitive {
            name: PrimitiveName::Timer,
            numbers: padded(&numbers),
            count: 1,
            kind: Kind::Timer(Timer { length }),
        }
    }

    /// The same primitive again.
    pub fn copied(&self) -> Primitive
        ensures value { result ≡ self.now }
    {
        Primitive {
            name: self.name,
            numbers: self.numbers,
            count: self.count,
            kind: self.kind,
        }
    }

    /// The name as designs write it.
    pub fn name(&self) -> &'static str
        ensures value { result.now ≡ name_text self.now.name }
    {
        self.name.text()
    }

    /// The numbers.
    pub fn numbers(&self) -> &[u64]
        ensures value { result.now ≡ self.now.numbers }
        ensures has_row { HasRow self.now }
    {
        &self.numbers[..self.count]
    }

    /// The start of a memory with these words, in row-major order.
    pub fn start_with(&self, alloc: Global, words: &[u64]) -> Result<PrimState, Memory>
        requires { TakesWords (row_of self.now).shape words.now }
        ensures value { IfOk result (λ state. state ≡ rows.start_with (row_of self.now) words.now) }
        ensures fits { IfOk result (λ state. IsState (row_of self.now).shape state) }
    {
        Ok(PrimState {
            held: self.kind().start_with(alloc, words)?,
        })
    }

    /// Word `n` of a memory, in row-major order.
    pub fn word(&self, state: &PrimState, n: u64) -> u64
        requires state_fits { IsState (row_of self.now).shape state.now }
        requires within { HasWord (row_of self.now).shape n }
        ensures value { result ≡ slice_index (words_of state.now) n }
    {
        self.kind().word(&state.held, n)
    }

    /// The edge of a cycle, where an address out of range reads 0 and writes no word.
    pub fn edge(&self, state: &mut PrimState, inputs: &[Option<Bits>])
        requires state_fits { IsState (row_of self.now).shape state.old }
        requires inputs_fit { rows.FitsPorts (row_of self.now).ports inputs.now }
        requires looked_at { rows.IsLookedAt (row_of self.now) state.old inputs.now }
        ensures value { state.new ≡ (row_of self.now).next state.old inputs.now }
        ensures fits { IsState (row_of self.now).shape state.new }
    {
        self.kind().edge(&mut state.held, inputs);
    }

    /// Back to the start, but a memory keeps its words.
    pub fn reset(&self, state: &mut PrimState)
        requires state_fits { IsState (row_of self.now).shape state.old }
        ensures value { state.new ≡ rows.reset (row_of self.now) state.old }
        ensures fits { IsState (row_of self.now).shape state.new }
    {
        self.kind().reset(&mut state.held);
    }

    /// What does the work.
    fn kind(&self) -> &Kind
        ensures value { kind_row result.now ≡ row_of self.now }
    {
        &self.kind
    }
}

impl Cycle for Primitive {
    ghost use Rattle.cx_prim.specs.Table.{row_of};
    ghost use Rattle.cx_prim.proofs.TableLaws.{row_of_lawful};

    type State = PrimState;

    ghost meaning = { row_of };

    ghost shown = { λ state. state };

    fn port_count(&self) -> usize {
        self.kind().port_count()
    }

    fn port(&self, n: usize) -> PortRow {
        self.kind().port(n)
    }

    fn start(&self, alloc: Global) -> Result<PrimState, Memory> {
        Ok(PrimState {
            held: self.kind().start(alloc)?,
        })
    }

    fn output(&self, state: &PrimState, inputs: &[Option<Bits>], port: usize) -> Option<Bits> {
        self.kind().output(&state.held, inputs, port)
    }

    fn demands(&self, state: &PrimState, inputs: &[Option<Bits>], port: usize) -> bool {
        self.kind().demands(&state.held, inputs, port)
    }

    fn step(&self, state: &mut PrimState, inputs: &[Option<Bits>]) -> Result<(), OutOfRange> {
        self.kind().step(&mut state.held, inputs)
    }

    fn idle(&self, state: &mut PrimState) {
        self.kind().idle(&mut state.held);
    }

    ghost idle_once = { λ p. (row_of_lawful p).idle_once };

    ghost quiet_is_idle = { λ p. (row_of_lawful p).quiet_is_idle };

    ghost registered = { λ p. (row_of_lawful p).registered };

    ghost looked_at = { λ p. (row_of_lawful p).looked_at };

    ghost widths = { λ p. (row_of_lawful p).widths };

    ghost reads_only = { λ p. (row_of_lawful p).reads_only };

    ghost strict = { λ p. (row_of_lawful p).strict };
}
