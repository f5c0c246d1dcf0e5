//! Expressions.

use crate::operators::Operator;
use cx_bits::Bits;
use cx_text::Name;

/// An expression over the nets and arrays of one module. `expr_in` in `specs/Meaning.antt` is its value.
#[derive(Drop)]
pub enum Expr {
    /// The value of an input, a wire or a register.
    Net(Name),
    Literal(Bits),
    /// Bits of an input, a wire or a register: from the first number down to the second, both included.
    Slice(Name, u8, u8),
    /// The word of an array at an index; 0 where the array has no such word.
    Item(Name, Box<Expr>),
    Binary(Operator, Box<Expr>, Box<Expr>),
    /// Each bit inverted.
    Not(Box<Expr>),
    /// The second where the first is not 0, else the third. Only the chosen one is looked at.
    Choose(Box<Expr>, Box<Expr>, Box<Expr>),
    /// The first above the second.
    Cat(Box<Expr>, Box<Expr>),
}
