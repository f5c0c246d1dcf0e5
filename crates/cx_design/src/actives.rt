//! Active sets of an instance, and faults of a run.

use cx_meaning::{FaultKind, PortRef};

/// A static group that an island has active, and its offset in cycles.
#[derive(Clone, Copy, Debug, PartialEq, Eq)]
pub struct ActiveEntry {
    pub group: u32,
    pub offset: u64,
}

/// What is active beside the continuous assignments of an instance.
#[derive(Debug, Drop)]
pub enum Active {
    Nothing,
    /// A plain group or a comb group.
    Group(u32),
    /// A call group that captures, in the cycle in which its component is done.
    CallEnd(u32),
    Entries(Vec<ActiveEntry>),
}

/// A fault of a run: its kind, the instance in pre-order with `main` as 0, and the port of its component.
#[derive(Clone, Copy, Debug, PartialEq, Eq)]
pub struct PortFault {
    pub kind: FaultKind,
    pub instance: u32,
    pub port: PortRef,
}
