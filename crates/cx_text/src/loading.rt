//! External memories and the words that a data file gives them.

use crate::names::Name;

/// An external memory: its name, the width of a word in bits, and the sizes of its dimensions, outermost first.
#[derive(Debug, Drop)]
pub struct MemoryRow {
    pub name: Name,
    pub width: u8,
    pub sizes: Vec<u64>,
}

/// The words of an external memory, in row-major order. A negative word of a signed memory stands as its two's
/// complement, so each word is below 2 to the width.
#[derive(Debug, Drop)]
pub struct LoadedMemory {
    pub row: MemoryRow,
    pub signed: bool,
    pub words: Vec<u64>,
}

/// What a data file gives the external memories, in their order.
#[derive(Debug, Drop)]
pub struct Loaded {
    pub memories: Vec<LoadedMemory>,
}
