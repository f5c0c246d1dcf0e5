//! Components.

use crate::cells::Cell;
use crate::groups::{Assign, Group};
use crate::invokes::StaticInvoke;
use crate::statements::Statement;
use cx_meaning::PortDecl;
use cx_text::{Name, Place};

/// A component: its signature without `go`, `clk`, `reset` and `done`, its parts in source order, and its control.
#[derive(Debug, Drop)]
pub struct Component {
    pub name: Name,
    /// The cycles that a static component takes.
    pub latency: Option<u64>,
    pub inputs: Vec<PortDecl>,
    pub outputs: Vec<PortDecl>,
    pub cells: Vec<Cell>,
    pub groups: Vec<Group>,
    /// The invokes of static components, by the numbers that control has of them.
    pub invokes: Vec<StaticInvoke>,
    pub always: Vec<Assign>,
    pub control: Statement,
    pub place: Place,
}
