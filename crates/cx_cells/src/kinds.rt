//! One primitive of any kind.

ghost use Rattle.std.specs.Prelude.{◌≡◌, IfOk, slice_index};
ghost use Rattle.cx_prim.specs.CellStates.{IsState, TakesWords, HasWord, words_of};
ghost use Rattle.cx_prim.specs.Rows.{FitsPorts, reset, start_with};
ghost use Rattle.cx_cells.specs.Kinds.{kind_row, state_shown, kind_lawful};

use crate::words::{widened, word_at};
use cx_bits::Bits;
use cx_prim::{Binary, Constant, Cycle, Mux, OutOfRange, PortRow, Stateless, Unary};
use cx_stateful::{
    CombinationalMemory, Divider, DividerState, MemoryState, Multiplier, MultiplierState, Register,
    RegisterState, SequentialMemory, SequentialState, Timer, TimerState,
};
use cx_text::Memory;
use std::alloc::Global;

/// A primitive of any kind.
#[derive(Clone, Copy, Debug, PartialEq, Eq)]
pub enum Kind {
    Constant(Constant),
    Unary(Unary),
    Binary(Binary),
    Mux(Mux),
    Register(Register),
    Memory(CombinationalMemory),
    Sequential(SequentialMemory),
    Multiplier(Multiplier),
    Divider(Divider),
    Timer(Timer),
}

/// What a primitive holds, by its kind.
#[derive(Debug, Drop)]
pub enum KindState {
    Stateless(Stateless),
    Register(RegisterState),
    Memory(MemoryState),
    Sequential(SequentialState),
    Multiplier(MultiplierState),
    Divider(DividerState),
    Timer(TimerState),
}

impl Kind {
    /// The edge of a cycle, where an address out of range reads 0 and writes no word.
    pub fn edge(&self, state: &mut KindState, inputs: &[Option<Bits>])
        requires state_fits { IsState (kind_row self.now).shape (state_shown state.old) }
        requires inputs_fit { FitsPorts (kind_row self.now).ports inputs.now }
        ensures value { state_shown state.new ≡ (kind_row self.now).next (state_shown state.old) inputs.now }
        ensures fits { IsState (kind_row self.now).shape (state_shown state.new) }
    {
        match (self, state) {
            (Kind::Constant(_), KindState::Stateless(_)) => {}
            (Kind::Unary(_), KindState::Stateless(_)) => {}
            (Kind::Binary(_), KindState::Stateless(_)) => {}
            (Kind::Mux(_), KindState::Stateless(_)) => {}
            (Kind::Register(p), KindState::Register(s)) => p.edge(s, inputs),
            (Kind::Memory(p), KindState::Memory(s)) => p.edge(s, inputs),
            (Kind::Sequential(p), KindState::Sequential(s)) => p.edge(s, inputs),
            (Kind::Multiplier(p), KindState::Multiplier(s)) => p.edge(s, inputs),
            (Kind::Divider(p), KindState::Divider(s)) => p.edge(s, inputs),
            (Kind::Timer(p), KindState::Timer(s)) => p.edge(s, inputs),
            _ => unreachable!(),
        }
    }

    /// Back to the start, but a memory keeps its words.
    pub fn reset(&self, state: &mut KindState)
        requires state_fits { IsState (kind_row self.now).shape (state_shown state.old) }
        ensures value { state_shown state.new ≡ reset (kind_row self.now) (state_shown state.old) }
        ensures fits { IsState (kind_row self.now).shape (state_shown state.new) }
    {
        match (self, state) {
            (Kind::Constant(_), KindState::Stateless(_)) => {}
            (Kind::Unary(_), KindState::Stateless(_)) => {}
            (Kind::Binary(_), KindState::Stateless(_)) => {}
            (Kind::Mux(_), KindState::Stateless(_)) => {}
            (Kind::Register(_), KindState::Register(s)) => *s = RegisterState::at_rest(),
            (Kind::Memory(_), KindState::Memory(s)) => s.done = false,
            (Kind::Sequential(_), KindState::Sequential(s)) => s.clear(),
            (Kind::Multiplier(_), KindState::Multiplier(s)) => *s = MultiplierState::at_rest(),
            (Kind::Divider(_), KindState::Divider(s)) => *s = DividerState::at_rest(),
            (Kind::Timer(_), KindState::Timer(s)) => *s = TimerState::at_rest(),
            _ => unreachable!(),
        }
    }

    /// The start of a memory with these words, in row-major order.
    pub fn start_with(&self, alloc: Global, words: &[u64]) -> Result<KindState, Memory>
        requires { TakesWords (kind_row self.now).shape words.now }
        ensures value { IfOk result (λ state. state_shown state ≡ start_with (kind_row self.now) words.now) }
        ensures fits { IfOk result (λ state. IsState (kind_row self.now).shape (state_shown state)) }
    {
        let words = widened(alloc, words)?;
        match self {
            Kind::Memory(_) => Ok(KindState::Memory(MemoryState { words, done: false })),
            Kind::Sequential(_) => Ok(KindState::Sequential(SequentialState {
                words,
                read_data: 0,
                done: false,
            })),
            _ => unreachable!(),
        }
    }

    /// Word `n` of a memory.
    pub fn word(&self, state: &KindState, n: u64) -> u64
        requires state_fits { IsState (kind_row self.now).shape (state_shown state.now) }
        requires within { HasWord (kind_row self.now).shape n }
        ensures value { result ≡ slice_index (words_of (state_shown state.now)) n }
    {
        match (self, state) {
            (Kind::Memory(_), KindState::Memory(s)) => word_at(&s.words, n),
            (Kind::Sequential(_), KindState::Sequential(s)) => word_at(&s.words, n),
            _ => unreachable!(),
        }
    }
}

impl Cycle for Kind {
    type State = KindState;

    ghost meaning = { kind_row };

    ghost shown = { state_shown };

    fn port_count(&self) -> usize {
        match self {
            Kind::Constant(p) => p.port_count(),
            Kind::Unary(p) => p.port_count(),
            Kind::Binary(p) => p.port_count(),
            Kind::Mux(p) => p.port_count(),
            Kind::Register(p) => p.port_count(),
            Kind::Memory(p) => p.port_count(),
            Kind::Sequential(p) => p.port_count(),
            Kind::Multiplier(p) => p.port_count(),
            Kind::Divider(p) => p.port_count(),
            Kind::Timer(p) => p.port_count(),
        }
    }

    fn port(&self, n: usize) -> PortRow {
        match self {
            Kind::Constant(p) => p.port(n),
            Kind::Unary(p) => p.port(n),
            Kind::Binary(p) => p.port(n),
            Kind::Mux(p) => p.port(n),
            Kind::Register(p) => p.port(n),
            Kind::Memory(p) => p.port(n),
            Kind::Sequential(p) => p.port(n),
            Kind::Multiplier(p) => p.port(n),
            Kind::Divider(p) => p.port(n),
            Kind::Timer(p) => p.port(n),
        }
    }

    fn start(&self, alloc: Global) -> Result<KindState, Memory> {
        match self {
            Kind::Constant(p) => Ok(KindState::Stateless(p.start(alloc)?)),
            Kind::Unary(p) => Ok(KindState::Stateless(p.start(alloc)?)),
            Kind::Binary(p) => Ok(KindState::Stateless(p.start(alloc)?)),
            Kind::Mux(p) => Ok(KindState::Stateless(p.start(alloc)?)),
            Kind::Register(p) => Ok(KindState::Register(p.start(alloc)?)),
            Kind::Memory(p) => Ok(KindState::Memory(p.start(alloc)?)),
            Kind::Sequential(p) => Ok(KindState::Sequential(p.start(alloc)?)),
            Kind::Multiplier(p) => Ok(KindState::Multiplier(p.start(alloc)?)),
            Kind::Divider(p) => Ok(KindState::Divider(p.start(alloc)?)),
            Kind::Timer(p) => Ok(KindState::Timer(p.start(alloc)?)),
        }
    }

    fn output(&self, state: &KindState, inputs: &[Option<Bits>], port: usize) -> Option<Bits> {
        match (self, state) {
            (Kind::Constant(p), KindState::Stateless(s)) => p.output(s, inputs, port),
            (Kind::Unary(p), KindState::Stateless(s)) => p.output(s, inputs, port),
            (Kind::Binary(p), KindState::Stateless(s)) => p.output(s, inputs, port),
            (Kind::Mux(p), KindState::Stateless(s)) => p.output(s, inputs, port),
            (Kind::Register(p), KindState::Register(s)) => p.output(s, inputs, port),
            (Kind::Memory(p), KindState::Memory(s)) => p.output(s, inputs, port),
            (Kind::Sequential(p), KindState::Sequential(s)) => p.output(s, inputs, port),
            (Kind::Multiplier(p), KindState::Multiplier(s)) => p.output(s, inputs, port),
            (Kind::Divider(p), KindState::Divider(s)) => p.output(s, inputs, port),
            (Kind::Timer(p), KindState::Timer(s)) => p.output(s, inputs, port),
            _ => unreachable!(),
        }
    }

    fn demands(&self, state: &KindState, inputs: &[Option<Bits>], port: usize) -> bool {
        match (self, state) {
            (Kind::Constant(p), KindState::Stateless(s)) => p.demands(s, inputs, port),
            (Kind::Unary(p), KindState::Stateless(s)) => p.demands(s, inputs, port),
            (Kind::Binary(p), KindState::Stateless(s)) => p.demands(s, inputs, port),
            (Kind::Mux(p), KindState::Stateless(s)) => p.demands(s, inputs, port),
            (Kind::Register(p), KindState::Register(s)) => p.demands(s, inputs, port),
            (Kind::Memory(p), KindState::Memory(s)) => p.demands(s, inputs, port),
            (Kind::Sequential(p), KindState::Sequential(s)) => p.demands(s, inputs, port),
            (Kind::Multiplier(p), KindState::Multiplier(s)) => p.demands(s, inputs, port),
            (Kind::Divider(p), KindState::Divider(s)) => p.demands(s, inputs, port),
            (Kind::Timer(p), KindState::Timer(s)) => p.demands(s, inputs, port),
            _ => unreachable!(),
        }
    }

    fn step(&self, state: &mut KindState, inputs: &[Option<Bits>]) -> Result<(), OutOfRange> {
        match (self, state) {
            (Kind::Constant(p), KindState::Stateless(s)) => p.step(s, inputs),
            (Kind::Unary(p), KindState::Stateless(s)) => p.step(s, inputs),
            (Kind::Binary(p), KindState::Stateless(s)) => p.step(s, inputs),
            (Kind::Mux(p), KindState::Stateless(s)) => p.step(s, inputs),
            (Kind::Register(p), KindState::Register(s)) => p.step(s, inputs),
            (Kind::Memory(p), KindState::Memory(s)) => p.step(s, inputs),
            (Kind::Sequential(p), KindState::Sequential(s)) => p.step(s, inputs),
            (Kind::Multiplier(p), KindState::Multiplier(s)) => p.step(s, inputs),
            (Kind::Divider(p), KindState::Divider(s)) => p.step(s, inputs),
            (Kind::Timer(p), KindState::Timer(s)) => p.step(s, inputs),
            _ => unreachable!(),
        }
    }

    fn idle(&self, state: &mut KindState) {
        match (self, state) {
            (Kind::Constant(p), KindState::Stateless(s)) => p.idle(s),
            (Kind::Unary(p), KindState::Stateless(s)) => p.idle(s),
            (Kind::Binary(p), KindState::Stateless(s)) => p.idle(s),
            (Kind::Mux(p), KindState::Stateless(s)) => p.idle(s),
            (Kind::Register(p), KindState::Register(s)) => p.idle(s),
            (Kind::Memory(p), KindState::Memory(s)) => p.idle(s),
            (Kind::Sequential(p), KindState::Sequential(s)) => p.idle(s),
            (Kind::Multiplier(p), KindState::Multiplier(s)) => p.idle(s),
            (Kind::Divider(p), KindState::Divider(s)) => p.idle(s),
            (Kind::Timer(p), KindState::Timer(s)) => p.idle(s),
            _ => unreachable!(),
        }
    }

    ghost idle_once = { λ p. (kind_lawful p).idle_once };

    ghost quiet_is_idle = { λ p. (kind_lawful p).quiet_is_idle };

    ghost registered = { λ p. (kind_lawful p).registered };

    ghost looked_at = { λ p. (kind_lawful p).looked_at };

    ghost widths = { λ p. (kind_lawful p).widths };

    ghost reads_only = { λ p. (kind_lawful p).reads_only };

    ghost strict = { λ p. (kind_lawful p).strict };
}
