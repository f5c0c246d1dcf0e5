//! Groups and assignments.

use crate::components::{Attribute, Mark};
use crate::guards::GuardItem;
use crate::operands::OperandItem;
use cx_text::{Name, Place};

/// What is written before the word `group`.
#[derive(Clone, Copy, Debug, PartialEq, Eq)]
pub enum GroupWord {
    Plain,
    Comb,
    /// `static<n>`: a static group of n cycles.
    Timed(u64),
}

/// An assignment. Its place is that of its target.
#[derive(Debug, Drop)]
pub struct AssignItem {
    pub attributes: Vec<Attribute>,
    pub target: OperandItem,
    pub guard: Option<GuardItem>,
    pub source: OperandItem,
    pub place: Place,
}

/// A group and its assignments.
#[derive(Debug, Drop)]
pub struct GroupItem {
    pub attributes: Vec<Attribute>,
    pub kind: GroupWord,
    pub name: Name,
    pub marks: Vec<Mark>,
    pub assigns: Vec<AssignItem>,
    pub place: Place,
}

/// What stands in `wires`: a group or a continuous assignment.
#[derive(Debug, Drop)]
pub enum WireItem {
    Group(GroupItem),
    Assign(AssignItem),
}
