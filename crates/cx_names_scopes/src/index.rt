//! The names of a tree and of its components, by number.

ghost use Rattle.std.specs.Prelude.{◌≡◌, IfOk, map};
ghost use Rattle.cx_ast.specs.PlainTree.{plain_port, plain_cell, plain_component, plain_tree, plain_wire};
ghost use Rattle.cx_numbering.specs.Names.{port_names, groups_in, component_names};
ghost use Rattle.cx_names_scopes.specs.Numbered.{AreNumbersOf};
ghost use Rattle.cx_names_scopes.specs.Indexed.{IsPartIndex, ArePartIndexes, IsIndex, AreGroups};

use crate::numbers::Numbers;
use crate::words::is_own_name;
use cx_ast::{CellItem, ComponentItem, GroupWord, PortItem, Tree, WireItem};
use cx_text::Memory;
use std::alloc::Global;

/// The names in a component: of the ports of its signature but the own ones, of its cells and of its groups.
#[derive(Drop)]
pub struct PartIndex {
    pub inputs: Numbers,
    pub outputs: Numbers,
    pub cells: Numbers,
    pub groups: Groups,
}

/// The groups of a component: their numbers, and the word of each.
#[derive(Drop)]
pub struct Groups {
    pub numbers: Numbers,
    pub words: Vec<GroupWord>,
}

/// The names in a tree.
#[derive(Drop)]
pub struct Index {
    pub components: Numbers,
    pub parts: Vec<PartIndex>,
}

// The numbers of the ports of one side, but the own ones.
fn port_numbers(alloc: Global, ports: &[PortItem]) -> Result<Numbers, Memory>
    ensures { IfOk result (AreNumbersOf (port_names (map plain_port ports.now))) }
{
    let mut numbers = Numbers::new(alloc);
    let mut count = 0;
    for port in ports {
        if is_own_name(&port.name) {
            continue;
        }
        numbers.add(alloc, &port.name, count)?;
        count += 1;
    }
    Ok(numbers)
}

// The numbers of cells.
fn cell_numbers(alloc: Global, cells: &[CellItem]) -> Result<Numbers, Memory>
    ensures { IfOk result (AreNumbersOf (map (λ cell. cell.name) (map plain_cell cells.now))) }
{
    let mut numbers = Numbers::new(alloc);
    for (number, cell) in cells.iter().enumerate() {
        numbers.add(alloc, &cell.name, number)?;
    }
    Ok(numbers)
}

// The groups among what stands in wires.
fn group_numbers(alloc: Global, wires: &[WireItem]) -> Result<Groups, Memory>
    ensures { IfOk result (AreGroups (groups_in (map plain_wire wires.now))) }
{
    let mut numbers = Numbers::new(alloc);
    let mut words = Vec::new(alloc);
    for wire in wires {
        let WireItem::Group(group) = wire else {
            continue;
        };
        numbers.add(alloc, &group.name, words.len())?;
        words.push(group.kind)?;
    }
    Ok(Groups { numbers, words })
}

// The names in a component.
fn part_index(alloc: Global, part: &ComponentItem) -> Result<PartIndex, Memory>
    ensures { IfOk result (IsPartIndex (plain_component part.now)) }
{
    let inputs = port_numbers(alloc, &part.inputs)?;
    let outputs = port_numbers(alloc, &part.outputs)?;
    let cells = cell_numbers(alloc, &part.cells)?;
    let groups = group_numbers(alloc, &part.wires)?;
    Ok(PartIndex {
        inputs,
        outputs,
        cells,
        groups,
    })
}

// The numbers of components.
fn component_numbers(alloc: Global, parts: &[ComponentItem]) -> Result<Numbers, Memory>
    ensures { IfOk result (AreNumbersOf (map (λ part. part.name) (map plain_component parts.now))) }
{
    let mut numbers = Numbers::new(alloc);
    for (number, part) in parts.iter().enumerate() {
        numbers.add(alloc, &part.name, number)?;
    }
    Ok(numbers)
}

// The names in each component.
fn part_indexes(alloc: Global, parts: &[ComponentItem]) -> Result<Vec<PartIndex>, Memory>
    ensures { IfOk result (λ indexes. ArePartIndexes (map plain_component parts.now) indexes.items) }
{
    let mut indexes = Vec::new(alloc);
    for part in parts {
        indexes.push(part_index(alloc, part)?)?;
    }
    Ok(indexes)
}

impl Index {
    /// The names in a tree.
    pub fn new(alloc: Global, tree: &Tree) -> Result<Index, Memory>
        ensures { IfOk result (IsIndex (plain_tree tree.now)) }
    {
        let components = component_numbers(alloc, &tree.components)?;
        let parts = part_indexes(alloc, &tree.components)?;
        Ok(Index { components, parts })
    }
}
