//! Idle edges of the cells that a group drives.

ghost use Rattle.std.specs.Prelude.{◌≡◌, All, ◌<◌, length, map};
ghost use Rattle.cx_meaning.specs.Cycles.{every_cell};
ghost use Rattle.cx_design.specs.PlainForms.{plain_cell, plain_kind};
ghost use Rattle.cx_eval_cycle.specs.Passes.{IsAscending, listed_in};
ghost use Rattle.cx_state.specs.States.{HoldCells, HoldsKind};
ghost use Rattle.cx_turns.specs.Groups.{ListWithin};
ghost use Rattle.cx_turns.specs.Machines.{design_of, rows_of, IsPlan, IsAt, IsInstance};
ghost use Rattle.cx_turns.specs.Rests.{kind_rested, rested_cells};
ghost use Rattle.cx_turns.specs.Turns.{Rested};

use crate::machine::Machine;
use crate::plan::Plan;
use cx_cells::PrimState;
use cx_design::{Cell, CellKind};
use cx_prim::Cycle;
use cx_state::alike_laws::one_row_changes;

/// The idle edge of a cell; a component's cell holds nothing of its own.
fn rest_cell(cell: &Cell, held: &mut Option<PrimState>)
    requires fits { HoldsKind (plain_kind cell.now.kind) held.old }
    ensures value { held.new ≡ kind_rested (plain_kind cell.now.kind) held.old }
    ensures fits { HoldsKind (plain_kind cell.now.kind) held.new }
{
    match &cell.kind {
        CellKind::Prim(primitive) => {
            if let Some(state) = held {
                primitive.idle(state);
            }
        }
        CellKind::Part(_) => {}
    }
}

/// The idle edges of the listed cells.
pub(crate) fn rest_cells(cells: &[Cell], held: &mut [Option<PrimState>], listed: &[u32])
    requires fits { HoldCells (map plain_cell cells.now) held.old }
    requires within { All (λ c. c < length cells.now) listed.now }
    requires ascending { IsAscending listed.now }
    ensures value { held.new ≡ rested_cells (listed_in listed.now) (map plain_cell cells.now) held.old }
    ensures fits { HoldCells (map plain_cell cells.now) held.new }
{
    for cell in listed {
        let number = *cell as usize;
        rest_cell(&cells[number], &mut held[number]);
    }
}

/// The idle edges of the listed cells of an instance.
pub fn rest(plan: &Plan<'_>, machine: &mut Machine<'_>, instance: usize, listed: &[u32])
    requires plan { IsPlan plan.now }
    requires machine { IsAt plan.now machine.old }
    requires instance { IsInstance (design_of plan.now) instance }
    requires within { ListWithin (design_of plan.now) instance listed.now }
    requires ascending { IsAscending listed.now }
    ensures evaluator { machine.new.sight.evaluator ≡ machine.old.sight.evaluator }
    ensures room { machine.new.room ≡ machine.old.room }
    ensures rested { Rested (design_of plan.now) (rows_of machine.old) (rows_of machine.new) instance
        (listed_in listed.now) }
{
    one_row_changes();
    let number = plan.table.rows[instance].component as usize;
    let component = &plan.design.components[number];
    let row = &mut machine.sight.state.instances[instance];
    rest_cells(&component.cells, &mut row.cells, listed);
}

/// The idle edges of the cells that are listed in the room of a machine.
pub fn rest_listed(plan: &Plan<'_>, machine: &mut Machine<'_>, instance: usize)
    requires plan { IsPlan plan.now }
    requires machine { IsAt plan.now machine.old }
    requires instance { IsInstance (design_of plan.now) instance }
    requires within { ListWithin (design_of plan.now) instance machine.old.room.cells.items }
    requires ascending { IsAscending machine.old.room.cells.items }
    ensures evaluator { machine.new.sight.evaluator ≡ machine.old.sight.evaluator }
    ensures room { machine.new.room ≡ machine.old.room }
    ensures rested { Rested (design_of plan.now) (rows_of machine.old) (rows_of machine.new) instance
        (listed_in machine.old.room.cells.items) }
{
    one_row_changes();
    let number = plan.table.rows[instance].component as usize;
    let component = &plan.design.components[number];
    let row = &mut machine.sight.state.instances[instance];
    let listed = machine.room.cells.as_slice();
    rest_cells(&component.cells, &mut row.cells, listed);
}

/// The idle edges of all cells.
fn rest_every(cells: &[Cell], held: &mut [Option<PrimState>])
    requires fits { HoldCells (map plain_cell cells.now) held.old }
    ensures value { held.new ≡ rested_cells every_cell (map plain_cell cells.now) held.old }
    ensures fits { HoldCells (map plain_cell cells.now) held.new }
{
    for number in 0..cells.len() {
        rest_cell(&cells[number], &mut held[number]);
    }
}

/// The idle edges of all cells of an instance.
pub fn rest_all(plan: &Plan<'_>, machine: &mut Machine<'_>, instance: usize)
    requires plan { IsPlan plan.now }
    requires machine { IsAt plan.now machine.old }
    requires instance { IsInstance (design_of plan.now) instance }
    ensures evaluator { machine.new.sight.evaluator ≡ machine.old.sight.evaluator }
    ensures room { machine.new.room ≡ machine.old.room }
    ensures rested { Rested (design_of plan.now) (rows_of machine.old) (rows_of machine.new) instance every_cell }
{
    one_row_changes();
    let number = plan.table.rows[instance].component as usize;
    let component = &plan.design.components[number];
    let row = &mut machine.sight.state.instances[instance];
    rest_every(&component.cells, &mut row.cells);
}
