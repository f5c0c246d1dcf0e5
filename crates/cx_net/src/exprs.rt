//! Expressions of a net.

use cx_bits::Bits;
use cx_meaning::{Comparison, PortRef};

/// What a guard or a source of a driver computes in a cycle, over one component of a net. All its parts are looked at.
#[derive(Debug, Drop)]
pub enum NetExpr {
    /// A port of a cell, a port of the signature, or a literal.
    Port(PortRef),
    /// What a register holds, by its number in the component.
    Register(u32),
    /// A wire, by its number in the component.
    Wire(u32),
    /// A hole, by its number in the component; one bit.
    Hole(u32),
    /// The `go` of the component.
    Go,
    Literal(Bits),
    /// Each bit inverted.
    Not(Box<NetExpr>),
    /// At least one part, in order.
    And(Vec<NetExpr>),
    /// At least one part, in order.
    Or(Vec<NetExpr>),
    /// Modulo 2 to the width.
    Add(Box<NetExpr>, Box<NetExpr>),
    /// One bit.
    Compare(Comparison, Box<NetExpr>, Box<NetExpr>),
}
