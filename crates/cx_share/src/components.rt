//! Components without their given cells.

ghost use Rattle.std.specs.Prelude.{◌≡◌, IfOk, length, map, option_map};
ghost use Rattle.cx_ast.specs.PlainStatements.{plain_block};
ghost use Rattle.cx_ast.specs.PlainTree as ast;
ghost use Rattle.cx_copies.specs.Naming as naming;
ghost use Rattle.cx_meaning.specs.Designs.{PlainComponent};
ghost use Rattle.cx_names_scopes.specs.Numbered.{number_in};
ghost use Rattle.cx_design.specs.PlainForms.{plain_component};
ghost use Rattle.cx_sharing.specs.SharedTree as shared;
ghost use Rattle.cx_share.specs.Givings.{AllKeepers, AreKeepers};
ghost use Rattle.cx_share.specs.Marks.{lists_of};
ghost use Rattle.cx_share.specs.Naming.{name_by};

use crate::naming::{KeptNames, kept_names};
use cx_ast::{Block, CellItem, ComponentItem};
use cx_copies::{
    copied_attributes, copied_cell, copied_marks, copied_name, copied_ports, named_block,
    named_wires,
};
use cx_design::Component;
use cx_text::Memory;
use std::alloc::Global;

/// The components of a tree, beside those of its design, without the cells that are given.
pub(crate) fn shared_components(
    alloc: Global,
    parts: &[Component],
    keepers: &[Vec<usize>],
    items: &[ComponentItem],
) -> Result<Vec<ComponentItem>, Memory>
    requires alike { map (λ part. length part.cells.items) parts.now ≡ map (λ item. length item.cells.items) items.now }
    requires keepers { AllKeepers (map plain_component parts.now) (lists_of keepers.now) }
    ensures value { IfOk result (λ components.
        map ast.plain_component components.items ≡
        shared.shared_components (map plain_component parts.now) (map ast.plain_component items.now)) }
{
    let mut components = Vec::with_capacity(alloc, items.len())?;
    for (number, item) in items.iter().enumerate() {
        components.push(shared_component(
            alloc,
            &parts[number],
            keepers[number].as_slice(),
            item,
        )?)?;
    }
    Ok(components)
}

fn shared_component(
    alloc: Global,
    part: &Component,
    keepers: &[usize],
    item: &ComponentItem,
) -> Result<ComponentItem, Memory>
    requires keepers { AreKeepers (plain_component part.now) keepers.now }
    requires count { length item.now.cells.items ≡ length part.now.cells.items }
    ensures value { IfOk result (λ component.
        ast.plain_component component ≡
        shared.shared_component (plain_component part.now) (ast.plain_component item.now)) }
{
    let names = kept_names(alloc, part, keepers)?;
    let attributes = copied_attributes(alloc, item.attributes.as_slice())?;
    let name = copied_name(alloc, &item.name)?;
    let marks = copied_marks(alloc, item.marks.as_slice())?;
    let inputs = copied_ports(alloc, item.inputs.as_slice())?;
    let outputs = copied_ports(alloc, item.outputs.as_slice())?;
    let cells = left_cells(alloc, keepers, item.cells.as_slice())?;
    let wires = named_wires(alloc, &names, item.wires.as_slice())?;
    let control = named_control(alloc, &names, &item.control)?;
    Ok(ComponentItem {
        attributes,
        length: item.length,
        name,
        marks,
        inputs,
        outputs,
        cells,
        wires,
        control,
        place: item.place,
    })
}

/// The cells that stay.
fn left_cells(alloc: Global, keepers: &[usize], cells: &[CellItem]) -> Result<Vec<CellItem>, Memory>
    requires count { length keepers.now ≡ length cells.now }
    ensures value { IfOk result (λ left. (part : PlainComponent) → AreKeepers part keepers.now
        → map ast.plain_cell left.items ≡ shared.left_cells part 0 (map ast.plain_cell cells.now)) }
{
    let mut left = Vec::new(alloc);
    for (number, cell) in cells.iter().enumerate() {
        if keepers[number] != number {
            continue;
        }
        left.push(copied_cell(alloc, cell)?)?;
    }
    Ok(left)
}

/// Control with the names of kept cells.
fn named_control(
    alloc: Global,
    names: &KeptNames,
    control: &Option<Block>,
) -> Result<Option<Block>, Memory>
    ensures value { IfOk result (λ named. option_map plain_block named ≡
        option_map
        (naming.named_block (λ cell. name_by (number_in names.now.numbers cell) names.now.names.items cell))
        (option_map plain_block control.now)) }
{
    match control {
        None => Ok(None),
        Some(block) => Ok(Some(named_block(alloc, names, block)?)),
    }
}
