//! Assignments and groups of them.

use crate::guards::Guard;
use cx_meaning::{GroupKind, PlacedPort, PortRef};
use cx_text::{Name, Place};

/// `target = guard ? source`.
#[derive(Debug, Drop)]
pub struct Assign {
    pub target: PortRef,
    pub guard: Guard,
    pub source: PlacedPort,
    pub place: Place,
}

/// A named set of assignments that control makes active. The group of an `invoke` has an empty name.
#[derive(Debug, Drop)]
pub struct Group {
    pub name: Name,
    pub kind: GroupKind,
    pub assigns: Vec<Assign>,
    pub place: Place,
}
