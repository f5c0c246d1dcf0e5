//! What a port is seen as, and kinds of faults.

use cx_bits::Bits;

/// What a port is seen as in one cycle.
#[derive(Clone, Copy, Debug, PartialEq, Eq)]
pub enum Seen {
    Value(Bits),
    /// Drivers that do not agree.
    Conflict,
    /// No driver, or no word at an address.
    Undefined,
}

/// Why a run stops: a port that is looked at is no value, or an address is out of range.
#[derive(Clone, Copy, Debug, PartialEq, Eq)]
pub enum FaultKind {
    Conflict,
    Undefined,
    Range,
}
