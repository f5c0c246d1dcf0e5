//! Nets, what drives each, and what is stored.

use crate::arrays::Words;
use crate::codes::{Code, NetPosition};
use cx_bits::Bits;

/// What gives a net its value.
#[derive(Clone, Copy, Debug, PartialEq, Eq)]
pub enum Driver {
    /// A register, or an input from outside.
    Held,
    /// Another net. One that is tied to itself has no value.
    Tied(u32),
    /// The code of a number, over the nets and arrays of an instance.
    Given(u32, NetPosition),
}

/// All nets of the instances of a source, with the code that drives them.
#[derive(Drop)]
pub struct Nets {
    pub drivers: Vec<Driver>,
    pub codes: Vec<Code>,
}

/// What is stored: a value for each net, that counts where the net is stored, and the arrays.
#[derive(Drop)]
pub struct Stored {
    pub nets: Vec<Bits>,
    pub arrays: Vec<Words>,
}
