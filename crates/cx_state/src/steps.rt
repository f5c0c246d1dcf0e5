//! The way down the instance tree, a cell at a time.

ghost use Rattle.std.specs.Prelude.{◌≡◌, map};
ghost use Rattle.cx_design.specs.PlainForms.{plain_cell};
ghost use Rattle.cx_state.specs.Steps as steps;

use cx_design::{Cell, CellKind};
use cx_design_sizes::LimitTally;

/// The cell that leads down, its component, and the number of the instance in the tree below it.
#[derive(Clone, Copy, Debug, PartialEq, Eq)]
pub struct Step {
    pub cell: usize,
    pub component: u32,
    pub left: u64,
}

/// The instances at a cell, with all below; 0 for a primitive.
fn instances_at(tallies: &[LimitTally], cell: &Cell) -> u64
    ensures { result ≡ steps.instances_at tallies.now (plain_cell cell.now).kind }
{
    match &cell.kind {
        CellKind::Prim(_) => 0,
        CellKind::Part(component) => match tallies.get(*component as usize) {
            Some(tally) => tally.instances,
            None => 0,
        },
    }
}

/// The component of a cell; 0 for a primitive.
fn component_at(cell: &Cell) -> u32
    ensures { result ≡ steps.component_in (plain_cell cell.now).kind }
{
    match &cell.kind {
        CellKind::Prim(_) => 0,
        CellKind::Part(component) => *component,
    }
}

/// The step to an instance below these cells, by its number among those.
fn step_below(tallies: &[LimitTally], cells: &[Cell], number: u64) -> Option<Step>
    ensures { result ≡ steps.step_below tallies.now (map plain_cell cells.now) 0 number }
{
    let mut left = number;
    for cell in 0..cells.len() {
        let instances = instances_at(tallies, &cells[cell]);
        if left < instances {
            return Some(Step {
                cell,
                component: component_at(&cells[cell]),
                left,
            });
        }
        left -= instances;
    }
    None
}

/// The step to an instance by its number in the tree of a component with these cells; None for the tree's own instance.
pub fn next_step(tallies: &[LimitTally], cells: &[Cell], number: u64) -> Option<Step>
    ensures { result ≡ steps.next_step tallies.now (map plain_cell cells.now) number }
{
    if number == 0 {
        return None;
    }
    step_below(tallies, cells, number - 1)
}
