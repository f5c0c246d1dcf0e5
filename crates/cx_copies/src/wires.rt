//! Groups and assignments, with other names of cells.

ghost use Rattle.std.specs.Prelude.{◌≡◌, IfOk, map};
ghost use Rattle.cx_ast.specs.PlainTree.{plain_assign, plain_group, plain_wire};
ghost use Rattle.cx_copies.specs.Naming as naming;

use crate::guards::named_option;
use crate::names::CellNames;
use crate::operands::named_operand;
use crate::parts::{copied_attributes, copied_marks, copied_name};
use cx_ast::{AssignItem, GroupItem, WireItem};
use cx_text::Memory;
use std::alloc::Global;

/// What stands in `wires`, with other names of cells.
pub fn named_wires<N: CellNames>(
    alloc: Global,
    names: &N,
    wires: &[WireItem],
) -> Result<Vec<WireItem>, Memory>
    ensures value { IfOk result (λ named. map plain_wire named.items ≡
        map (naming.named_wire (N.renaming names.now)) (map plain_wire wires.now)) }
{
    let mut named = Vec::with_capacity(alloc, wires.len())?;
    for wire in wires {
        named.push(named_wire(alloc, names, wire)?)?;
    }
    Ok(named)
}

fn named_wire<N: CellNames>(alloc: Global, names: &N, wire: &WireItem) -> Result<WireItem, Memory>
    ensures value { IfOk result
        (λ named. plain_wire named ≡ naming.named_wire (N.renaming names.now) (plain_wire wire.now)) }
{
    match wire {
        WireItem::Group(group) => Ok(WireItem::Group(named_group(alloc, names, group)?)),
        WireItem::Assign(assign) => Ok(WireItem::Assign(named_assign(alloc, names, assign)?)),
    }
}

pub(crate) fn named_group<N: CellNames>(
    alloc: Global,
    names: &N,
    group: &GroupItem,
) -> Result<GroupItem, Memory>
    ensures value { IfOk result
        (λ named. plain_group named ≡ naming.named_group (N.renaming names.now) (plain_group group.now)) }
{
    let attributes = copied_attributes(alloc, group.attributes.as_slice())?;
    let name = copied_name(alloc, &group.name)?;
    let marks = copied_marks(alloc, group.marks.as_slice())?;
    let assigns = named_assigns(alloc, names, group.assigns.as_slice())?;
    Ok(GroupItem {
        attributes,
        kind: group.kind,
        name,
        marks,
        assigns,
        place: group.place,
    })
}

fn named_assigns<N: CellNames>(
    alloc: Global,
    names: &N,
    assigns: &[AssignItem],
) -> Result<Vec<AssignItem>, Memory>
    ensures value { IfOk result (λ named. map plain_assign named.items ≡
        map (naming.named_assign (N.renaming names.now)) (map plain_assign assigns.now)) }
{
    let mut named = Vec::with_capacity(alloc, assigns.len())?;
    for assign in assigns {
        named.push(named_assign(alloc, names, assign)?)?;
    }
    Ok(named)
}

pub(crate) fn named_assign<N: CellNames>(
    alloc: Global,
    names: &N,
    assign: &AssignItem,
) -> Result<AssignItem, Memory>
    ensures value { IfOk result
        (λ named. plain_assign named ≡ naming.named_assign (N.renaming names.now) (plain_assign assign.now)) }
{
    let attributes = copied_attributes(alloc, assign.attributes.as_slice())?;
    let target = named_operand(alloc, names, &assign.target)?;
    let guard = named_option(alloc, names, &assign.guard)?;
    let source = named_operand(alloc, names, &assign.source)?;
    Ok(AssignItem {
        attributes,
        target,
        guard,
        source,
        place: assign.place,
    })
}
