//! The state before the first cycle.

ghost use Rattle.std.specs.Prelude.{◌≡◌, ◌<◌, IfOk, length, map, drop};
ghost use Rattle.cx_prim.specs.CellStates.{IsState};
ghost use Rattle.cx_prim.specs.Table.{row_of};
ghost use Rattle.cx_meaning.specs.Designs.{component_at};
ghost use Rattle.cx_meaning.specs.Instances as meaning;
ghost use Rattle.cx_meaning.specs.Instances.{tree_of, paths_of};
ghost use Rattle.cx_text.specs.Loading.{plain_memory, FitsRows};
ghost use Rattle.cx_rules.specs.Externals.{external_rows};
ghost use Rattle.cx_design.specs.PlainForms.{plain_cell, plain_component, plain_kind};
ghost use Rattle.cx_design.specs.PlainDesigns.{plain_design};
ghost use Rattle.cx_state.specs.Tables.{IsTable};
ghost use Rattle.cx_state.specs.States.{plain_instance, plain_state, HoldCells, HoldsKind, IsStateOf, StandsFor, IsUnheld, words_in};
ghost use Rattle.cx_state.specs.Starts.{AreStarted, IsStarted, KindTakes, RowTakes, TakeWords, kind_started, row_started, started, words_for, words_of_main, words_past};

use crate::InstanceTable;
use crate::states::{InstanceState, State};
use cx_cells::{PrimState, Primitive};
use cx_design::{Cell, CellKind, Component, Design, Seen};
use cx_prim::Cycle;
use cx_text::{LoadedMemory, Memory};
use std::alloc::Global;

/// A primitive at its start, with the next words where it is external and there are such.
fn start_primitive(
    alloc: Global,
    primitive: &Primitive,
    external: bool,
    memories: &[LoadedMemory],
    next: usize,
) -> Result<PrimState, Memory>
    requires takes { RowTakes (row_of primitive.now) (words_for external (drop next (words_in memories.now))) }
    ensures value { IfOk result (λ held.
        held ≡ row_started (row_of primitive.now) (words_for external (drop next (words_in memories.now)))) }
    ensures fits { IfOk result (λ held. IsState (row_of primitive.now).shape held) }
{
    if external && next < memories.len() {
        primitive.start_with(alloc, memories[next].words.as_slice())
    } else {
        primitive.start(alloc)
    }
}

/// What a cell holds at the start.
fn start_cell(
    alloc: Global,
    cell: &Cell,
    memories: &[LoadedMemory],
    next: usize,
) -> Result<Option<PrimState>, Memory>
    requires takes { KindTakes (plain_kind cell.now.kind)
        (words_for cell.now.external (drop next (words_in memories.now))) }
    ensures value { IfOk result (λ held. held ≡
        kind_started (plain_kind cell.now.kind)
        (words_for cell.now.external (drop next (words_in memories.now)))) }
    ensures fits { IfOk result (λ held. HoldsKind (plain_kind cell.now.kind) held) }
{
    match &cell.kind {
        CellKind::Prim(primitive) => {
            let held = start_primitive(alloc, primitive, cell.external, memories, next)?;
            Ok(Some(held))
        }
        CellKind::Part(_) => Ok(None),
    }
}

/// The number of the next memory behind a cell.
fn past(external: bool, memories: &[LoadedMemory], next: usize) -> usize
    ensures { drop result (words_in memories.now) ≡ words_past external (drop next (words_in memories.now)) }
{
    if external && next < memories.len() {
        next + 1
    } else {
        next
    }
}

/// What cells hold at the start.
fn start_cells(
    alloc: Global,
    cells: &[Cell],
    memories: &[LoadedMemory],
) -> Result<Vec<Option<PrimState>>, Memory>
    requires takes { TakeWords (map plain_cell cells.now) (words_in memories.now) }
    ensures value { IfOk result (λ held. held.items ≡ started (map plain_cell cells.now) (words_in memories.now)) }
    ensures fits { IfOk result (λ held. HoldCells (map plain_cell cells.now) held.items) }
{
    let mut held = Vec::new(alloc);
    let mut next = 0;
    for cell in cells {
        held.push(start_cell(alloc, cell, memories, next)?)?;
        next = past(cell.external, memories, next);
    }
    Ok(held)
}

/// An instance of a component at its start.
fn start_instance(
    alloc: Global,
    component: &Component,
    memories: &[LoadedMemory],
) -> Result<InstanceState, Memory>
    requires takes { TakeWords (plain_component component.now).cells (words_in memories.now) }
    ensures value { IfOk result
        (λ held. IsStarted (plain_component component.now) (words_in memories.now) (plain_instance held)) }
{
    let cells = start_cells(alloc, component.cells.as_slice(), memories)?;
    let held = vec![in alloc; Seen::Undefined; component.inputs.len()]?;
    Ok(InstanceState { cells, held })
}

/// The loaded memories for an instance: those of main.
fn memories_of(memories: &[LoadedMemory], number: usize) -> &[LoadedMemory]
    ensures { words_in result.now ≡ words_of_main number (words_in memories.now) }
{
    if number == 0 { memories } else { &[] }
}

/// The instances of a table, each at its start.
fn start_instances(
    alloc: Global,
    design: &Design,
    table: &InstanceTable,
    memories: &[LoadedMemory],
) -> Result<State, Memory>
    requires table { IsTable (plain_design design.now) table.now.rows.items table.now.children.items }
    requires takes { TakeWords (component_at (plain_design design.now) design.now.main).cells (words_in memories.now) }
    ensures { IfOk result (λ state. AreStarted (plain_design design.now) (words_in memories.now)
        (length (paths_of (tree_of (plain_design design.now)))) (plain_state state)) }
{
    let rows = table.rows.as_slice();
    let components = design.components.as_slice();
    let mut instances = Vec::new(alloc);
    for number in 0..rows.len() {
        let row = &rows[number];
        let component = &components[row.component as usize];
        instances.push(start_instance(alloc, component, memories_of(memories, number))?)?;
    }
    Ok(State { instances })
}

/// The state before the first cycle.
pub fn start_state(
    alloc: Global,
    design: &Design,
    table: &InstanceTable,
    memories: &[LoadedMemory],
) -> Result<State, Memory>
    requires table { IsTable (plain_design design.now) table.now.rows.items table.now.children.items }
    requires fits { FitsRows (external_rows (plain_design design.now)) (map plain_memory memories.now) }
    ensures fits { IfOk result (λ state. IsStateOf (plain_design design.now) (plain_state state)) }
    ensures value { IfOk result (λ state. StandsFor (tree_of (plain_design design.now))
        (plain_state state) (meaning.start (tree_of (plain_design design.now)) (words_in memories.now))) }
    ensures held { IfOk result (λ state. IsUnheld (plain_state state)) }
{
    let state = start_instances(alloc, design, table, memories)?;
    Ok(state)
}
