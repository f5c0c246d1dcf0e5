//! The ports that a turn of a group looks at first, each behind those that it rests on.

use crate::numbering::InstanceNodes;
use cx_design::Seen;

/// How a listed port is found while its group is active.
#[derive(Clone, Copy, Debug, PartialEq, Eq)]
pub enum FoundBy {
    /// It is seen as the port of this number.
    Port(u32),
    /// It is seen as this.
    Fixed(Seen),
    /// It is an output of this cell that reads no input.
    State { cell: u32, port: u32 },
    /// It is an output of this cell that reads so many inputs, the first.
    Inputs { cell: u32, port: u32, reads: usize },
    /// By a look at it.
    Look,
}

/// A port of a component by its number, and how it is found.
#[derive(Clone, Copy, Debug, PartialEq, Eq)]
pub struct ListedPort {
    pub number: usize,
    pub found_by: FoundBy,
}

/// The two lists of a group.
#[derive(Clone, Copy, Debug, PartialEq, Eq)]
pub enum GroupList {
    /// Its done hole, behind what this rests on at once.
    Hole,
    /// The other ports that it drives, with what they rest on at once.
    Others,
}

/// The listed ports of a group.
#[derive(Debug, Drop)]
pub struct GroupPorts {
    pub hole: Vec<ListedPort>,
    pub others: Vec<ListedPort>,
}

/// Those of each group of a component.
#[derive(Debug, Drop)]
pub struct PartLists {
    pub groups: Vec<GroupPorts>,
}

/// Listed ports of a group in an instance, and where this stands.
#[derive(Clone, Copy)]
pub struct InstanceList<'a> {
    pub place: InstanceNodes,
    pub ports: &'a [ListedPort],
}
