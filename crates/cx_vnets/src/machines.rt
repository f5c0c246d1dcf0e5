//! What a run works on.

use crate::readers::Readers;
use crate::{NetMark, Nets, Set, Store, Write};
use cx_bits::Bits;

/// Nets with what changes at their edges.
#[derive(Drop)]
pub struct Machine {
    pub nets: Nets,
    /// An order in which nets are tried. Any will do; a run is fast where what a net needs comes before it.
    pub order: Vec<u32>,
    pub readers: Readers,
    /// What registers take at the edge with reset.
    pub resets: Vec<Set>,
    /// What registers take at an edge without reset, and what is stored.
    pub sets: Vec<Set>,
    pub stores: Vec<Store>,
    /// The inputs that a run sets, and the net that it looks at.
    pub reset: u32,
    pub go: u32,
    pub done: u32,
}

/// Room for one cycle: a mark and a value for each net, by rank whether it may have changed, whether it may be other than 0, a
/// list for the search, and what each store writes.
#[derive(Drop)]
pub struct Bench {
    pub marks: Vec<NetMark>,
    pub values: Vec<Bits>,
    /// 1 for a marked rank, else 0: bytes, so that the next mark is found by a search of bytes.
    pub stale: Vec<u8>,
    /// 1 for a net that may be other than 0: bytes too, so that the next such gate is found in the same way.
    pub nonzero: Vec<u8>,
    pub stack: Vec<usize>,
    pub writes: Vec<Option<Write>>,
}
