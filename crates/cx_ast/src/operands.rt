//! Targets and operands.

use cx_text::{Name, Place};

/// How a target or an operand is written.
#[derive(Debug, Drop)]
pub enum OperandForm {
    /// A port of the component itself: `x`.
    Own(Name),
    /// A port of a cell: `c.x`.
    Port(Name, Name),
    /// A hole of a group: `g[done]`.
    Hole(Name, Name),
    /// A literal: its width in bits as written, and its value.
    Literal(u32, u128),
}

/// A target or an operand, with the place of its first token. A target is no literal.
#[derive(Debug, Drop)]
pub struct OperandItem {
    pub form: OperandForm,
    pub place: Place,
}
