//! Sources of ports, as they are known before any run.

use cx_design::Seen;

/// What a port is seen as while a group is active.
#[derive(Clone, Copy, Debug, PartialEq, Eq)]
pub enum Source {
    /// This.
    Fixed(Seen),
    /// As this output of a cell, which reads no input.
    State { cell: u32, port: u32 },
    /// As the operator of this place among those of the group.
    Slot(usize),
}

/// An output of a cell that reads its first inputs, and what these are seen as.
#[derive(Debug, Drop)]
pub struct Operator {
    pub cell: u32,
    pub port: u32,
    pub inputs: Vec<Source>,
}

/// What the first ports of a cell are seen as.
#[derive(Debug, Drop)]
pub struct CellSources {
    pub cell: u32,
    pub ports: Vec<Source>,
}

/// A group of which every port that its turn looks at has a source.
#[derive(Debug, Drop)]
pub struct ClosedGroup {
    /// Each behind those that its inputs are seen as.
    pub operators: Vec<Operator>,
    /// The cells that the group drives, ascending.
    pub cells: Vec<CellSources>,
}

/// What is known of a group: what its done hole is seen as, where no operator is needed for that, and what its turn looks at.
#[derive(Debug, Drop)]
pub struct GroupSources {
    pub hole: Option<Source>,
    pub closed: Option<ClosedGroup>,
}
