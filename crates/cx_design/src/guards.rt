//! Guards of assignments.

use cx_meaning::{Comparison, PlacedPort};

/// When an assignment drives. `guard_truth` in cx_meaning's `specs/Sights.antt` says what a guard is.
#[derive(Debug, Drop)]
pub enum Guard {
    /// No guard.
    True,
    Port(PlacedPort),
    Not(Box<Guard>),
    /// At least two parts, in order.
    And(Vec<Guard>),
    /// At least two parts, in order.
    Or(Vec<Guard>),
    Compare(Comparison, PlacedPort, PlacedPort),
    /// At the offsets of a static group from the first to before the second.
    During(u64, u64),
}
