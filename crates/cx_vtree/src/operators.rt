//! The operators of two operands.

/// An operator of two operands of equal widths (IEEE 1364-2005, 5.1). `operate` in `specs/Operators.antt` is what it
/// computes.
#[derive(Clone, Copy, Debug, PartialEq, Eq)]
pub enum Operator {
    /// `+`, modulo 2 to the width.
    Add,
    /// `-`, modulo 2 to the width.
    Subtract,
    /// `*`, modulo 2 to the width.
    Multiply,
    /// `&`, bit by bit.
    And,
    /// `|`, bit by bit.
    Or,
    /// `^`, bit by bit.
    Xor,
    /// `<<`, which is 0 from a shift by the width on.
    ShiftLeft,
    /// `>>`, which is 0 from a shift by the width on.
    ShiftRight,
    /// `==`, of one bit, as all comparisons are.
    Equal,
    /// `!=`
    NotEqual,
    /// `<`, unsigned, as all comparisons are.
    Less,
    /// `>`
    Greater,
    /// `<=`
    AtMost,
    /// `>=`
    AtLeast,
}
