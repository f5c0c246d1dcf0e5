//! The sets and stores of all instances.

ghost use Rattle.std.specs.Prelude.{◌≡◌, ◌<◌, IfOk, OnOk, length};
ghost use Rattle.cx_vnets.specs.EdgesFlat.{SetsStand, StoresStand};
ghost use Rattle.cx_vsim.specs.Trees.{CanBeBuilt};
ghost use Rattle.cx_vsim.specs.Tables.{tree_of, TableStands};
ghost use Rattle.cx_vsim.specs.Passes.{AddsRowSets, AddsRowStores};

use crate::tables::Table;
use cx_text::Memory;
use cx_velab::{push_items, push_sets};
use cx_vnets::{Set, Store};
use std::alloc::Global;

/// Appends the sets of an instance at an edge with reset.
fn push_resets(sets: &mut Vec<Set>, table: &Table<'_>, i: usize) -> Result<(), Memory>
    requires within { i < length table.now.rows.items }
    requires table { TableStands table.now }
    requires tree { CanBeBuilt (tree_of table.now) }
    ensures { OnOk result (AddsRowSets (tree_of table.now) table.now.codes.items 1 i sets.old.items sets.new.items) }
{
    let module = table.rows[i].module;
    match &module.edge {
        None => Ok(()),
        Some(edge) => {
            let part = table.part(i);
            let place = table.place(i);
            let first = part.first + module.assigns.len() as u32;
            push_sets(sets, &part.numbers, place, first, &edge.reset)?;
            Ok(())
        }
    }
}

/// Appends the sets and stores of an instance at an edge without reset.
fn push_steps(
    sets: &mut Vec<Set>,
    stores: &mut Vec<Store>,
    table: &Table<'_>,
    i: usize,
) -> Result<(), Memory>
    requires within { i < length table.now.rows.items }
    requires table { TableStands table.now }
    requires tree { CanBeBuilt (tree_of table.now) }
    ensures sets { OnOk result
        (AddsRowSets (tree_of table.now) table.now.codes.items 0 i sets.old.items sets.new.items) }
    ensures stores { OnOk result
        (AddsRowStores (tree_of table.now) table.now.codes.items i stores.old.items stores.new.items) }
{
    let module = table.rows[i].module;
    match &module.edge {
        None => Ok(()),
        Some(edge) => {
            let part = table.part(i);
            let place = table.place(i);
            let first = part.first + module.assigns.len() as u32 + edge.reset.len() as u32;
            push_items(sets, stores, &part.numbers, place, first, &edge.step)?;
            Ok(())
        }
    }
}

/// What registers take at the edge with reset.
pub(crate) fn resets(alloc: Global, table: &Table<'_>) -> Result<Vec<Set>, Memory>
    requires table { TableStands table.now }
    requires tree { CanBeBuilt (tree_of table.now) }
    ensures { IfOk result (λ sets. SetsStand (tree_of table.now) table.now.codes.items 1 sets.items) }
{
    let mut sets = Vec::new(alloc);
    for i in 0..table.rows.len() {
        push_resets(&mut sets, table, i)?;
    }
    Ok(sets)
}

/// What registers and arrays take at an edge without reset.
#[derive(Drop)]
pub(crate) struct Steps {
    pub sets: Vec<Set>,
    pub stores: Vec<Store>,
}

/// What registers and arrays take at an edge without reset.
pub(crate) fn all_steps(alloc: Global, table: &Table<'_>) -> Result<Steps, Memory>
    requires table { TableStands table.now }
    requires tree { CanBeBuilt (tree_of table.now) }
    ensures sets { IfOk result (λ s. SetsStand (tree_of table.now) table.now.codes.items 0 s.sets.items) }
    ensures stores { IfOk result (λ s. StoresStand (tree_of table.now) table.now.codes.items 0 s.stores.items) }
{
    let mut sets = Vec::new(alloc);
    let mut stores = Vec::new(alloc);
    for i in 0..table.rows.len() {
        push_steps(&mut sets, &mut stores, table, i)?;
    }
    Ok(Steps { sets, stores })
}
