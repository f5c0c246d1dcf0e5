//! Drivers of a net.

use crate::exprs::NetExpr;
use cx_meaning::PortRef;

/// What a driver drives, in one component of a net.
#[derive(Clone, Copy, Debug, PartialEq, Eq)]
pub enum NetTarget {
    /// An input of a cell, or an output of the component.
    Port(PortRef),
    /// A register, which takes its source at the edge.
    Register(u32),
    Wire(u32),
    Hole(u32),
    /// The `done` of the component.
    Done,
}

/// `target = guard ? source`. Of the drivers of a target the first one whose guard is 1 drives.
#[derive(Debug, Drop)]
pub struct NetDriver {
    pub target: NetTarget,
    pub guard: NetExpr,
    pub source: NetExpr,
}
