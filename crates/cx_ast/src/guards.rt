//! Guards.

use crate::operands::OperandItem;

/// A comparison of two operands, of unsigned values.
#[derive(Clone, Copy, Debug, PartialEq, Eq)]
pub enum Comparison {
    Equal,
    NotEqual,
    Less,
    Greater,
    LessEqual,
    GreaterEqual,
}

/// A guard as written. Parentheses make no node, and an `Or` or an `And` has at least two parts.
#[derive(Debug, Drop)]
pub enum GuardItem {
    Or(Vec<GuardItem>),
    And(Vec<GuardItem>),
    Compare(Comparison, OperandItem, OperandItem),
    Not(Box<GuardItem>),
    Operand(OperandItem),
    /// `%a`: the cycle a of a static group.
    At(u64),
    /// `%[a:b]`: the cycles from a on and before b.
    During(u64, u64),
}
