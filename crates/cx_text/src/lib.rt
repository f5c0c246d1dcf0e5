//! Places, names, rules and the other small types that every part of the program shares.
#![tactic(auto)]

mod cursors;
mod diagnostics;
mod limits;
mod loading;
mod memory;
mod names;
mod numerals;
mod places;
mod rules;

pub use cursors::Cursor;
pub use diagnostics::Diagnostic;
pub use limits::{
    BUDGET, CELLS, COMPILE_SIZE, DATA_BYTES, DATA_WORD_BITS, DESIGN_BYTES, GROUPS, INSTANCE_DEPTH,
    INSTANCES, MEMORY_WORDS, NAME_BYTES, NESTING, OCCURRENCES, REPETITIONS, VERILOG_BYTES,
    VERILOG_INSTANCES, VERILOG_NETS, WEIGHT, WIDTH_BITS,
};
pub use loading::{Loaded, LoadedMemory, MemoryRow};
pub use memory::Memory;
pub use names::Name;
pub use numerals::{decimal, numeral};
pub use places::{Place, counted_from_one};
pub use rules::Rule;
