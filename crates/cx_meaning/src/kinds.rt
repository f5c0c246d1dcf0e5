//! Kinds of groups, and the ports of a signature.

use cx_text::Name;

/// What a group is for.
#[derive(Clone, Copy, Debug, PartialEq, Eq)]
pub enum GroupKind {
    /// A group that ends when its done hole is 1.
    Plain,
    /// A comb group, which is active in the turn of a test.
    Comb,
    /// A static group, of so many cycles.
    Timed(u64),
}

/// A port of a signature other than `go`, `clk`, `reset` and `done`, and its width in bits.
#[derive(Debug, Drop)]
pub struct PortDecl {
    pub name: Name,
    pub width: u8,
}
