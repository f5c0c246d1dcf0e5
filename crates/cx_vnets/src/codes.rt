//! Expressions over numbered nets and arrays.

use cx_bits::Bits;
use cx_vtree::Operator;

/// An expression over the nets and arrays of one instance, by their numbers in it. `code_in` in `specs/Codes.antt` is its
/// value.
#[derive(Drop)]
pub enum Code {
    Net(u32),
    Literal(Bits),
    /// Bits of a net: from the first number down to the second, both included.
    Slice(u32, u8, u8),
    /// The word of an array at an index; 0 where the array has no such word.
    Item(u32, Box<Code>),
    Binary(Operator, Box<Code>, Box<Code>),
    /// Each bit inverted.
    Not(Box<Code>),
    /// The second where the first is not 0, else the third. Only the chosen one is looked at.
    Choose(Box<Code>, Box<Code>, Box<Code>),
    /// The first above the second.
    Cat(Box<Code>, Box<Code>),
}

/// Where the nets and the arrays of an instance begin.
#[derive(Clone, Copy, Debug, PartialEq, Eq)]
pub struct NetPosition {
    pub nets: u32,
    pub arrays: u32,
}
