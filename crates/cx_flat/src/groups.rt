//! The groups of a flat component: its own, and copies of those of static children for each invoke.

ghost use Rattle.std.specs.Prelude.{◌≡◌, ◌++◌, ℕ, IfOk, Some, map};
ghost use Rattle.cx_meaning.specs.Control.{groups_of};
ghost use Rattle.cx_rewrites.specs.Moving.{moved_group};
ghost use Rattle.cx_design.specs.PlainForms.{plain_component, plain_group, plain_invoke, plain_statement};
ghost use Rattle.cx_flattening.specs.Copies.{copied_group, enabled_groups};
ghost use Rattle.cx_flattening.specs.Flattened.{copies, flat_groups, own_port};
ghost use Rattle.cx_flat.specs.Callers.{AreFirsts, IsCaller, kids_in, part_of};
ghost use Rattle.cx_flat.specs.Maps.{map_by};

use crate::callers::Caller;
use crate::enabled::{groups_enabled, is_enabled};
use crate::invokes::invoked;
use crate::kids::kid_at_cell;
use crate::ports::PortMap;
use cx_design::{Component, Group, StaticInvoke};
use cx_design_copies::{moved_assigns, moved_groups, number, sum};
use cx_text::{Memory, Name};
use std::alloc::Global;

/// The groups of a flat component, and for each static invoke the number of the first copy.
#[derive(Drop)]
pub(crate) struct FlatGroups {
    pub groups: Vec<Group>,
    pub firsts: Vec<u32>,
}

/// The groups of the flat component, and where the copies for each invoke begin.
pub(crate) fn groups_again(alloc: Global, caller: Caller<'_>) -> Result<FlatGroups, Memory>
    requires caller { IsCaller caller }
    ensures groups { IfOk result
        (λ g. map plain_group g.groups.items ≡ flat_groups (kids_in caller.entry) (part_of caller.entry)) }
    ensures firsts { IfOk result (λ g. AreFirsts caller.entry g.firsts.items) }
{
    let mut groups = own_groups(alloc, caller)?;
    let mut firsts = Vec::with_capacity(alloc, caller.part.invokes.len())?;
    for invoke in &caller.part.invokes {
        firsts.push(number(groups.len())?)?;
        groups = with_copies(alloc, groups, caller, invoke)?;
    }
    Ok(FlatGroups { groups, firsts })
}

/// The own groups.
fn own_groups(alloc: Global, caller: Caller<'_>) -> Result<Vec<Group>, Memory>
    requires caller { IsCaller caller }
    ensures value { IfOk result (λ all. map plain_group all.items ≡
        map (moved_group (own_port (kids_in caller.entry) (part_of caller.entry)))
        (part_of caller.entry).groups) }
{
    moved_groups(alloc, &PortMap::Own(caller.stands), &caller.part.groups)
}

/// Appends the copies for an invoke.
fn with_copies(
    alloc: Global,
    front: Vec<Group>,
    caller: Caller<'_>,
    invoke: &StaticInvoke,
) -> Result<Vec<Group>, Memory>
    requires caller { IsCaller caller }
    ensures value { IfOk result (λ all. map plain_group all.items ≡
        map plain_group front.items
        ++ copies (kids_in caller.entry) (part_of caller.entry) (plain_invoke invoke.now)) }
{
    match kid_at_cell(caller.table, &caller.part.cells, invoke.cell) {
        Some(child) => {
            let moves = invoked(caller, invoke)?;
            with_child_copies(alloc, front, moves, child)
        }
        None => Ok(front),
    }
}

/// Appends copies of the groups that the control of a static child enables.
fn with_child_copies(
    alloc: Global,
    front: Vec<Group>,
    moves: PortMap<'_>,
    child: &Component,
) -> Result<Vec<Group>, Memory>
    ensures value { IfOk result (λ all. map plain_group all.items ≡
        map plain_group front.items ++ map (copied_group (map_by moves.entry))
        (enabled_groups (groups_of (plain_component child.now).control) 0 (plain_component child.now).groups)) }
{
    let used = groups_enabled(alloc, &child.control)?;
    with_enabled_copies(alloc, front, moves, &used, &child.groups)
}

/// Appends copies of the groups that are enabled.
fn with_enabled_copies(
    alloc: Global,
    front: Vec<Group>,
    moves: PortMap<'_>,
    used: &[u32],
    groups: &[Group],
) -> Result<Vec<Group>, Memory>
    ensures value { IfOk result (λ all. map plain_group all.items ≡
        map plain_group front.items
        ++ map (copied_group (map_by moves.entry)) (enabled_groups used.now 0 (map plain_group groups.now))) }
{
    let mut all = front;
    let mut number = 0u32;
    for group in groups {
        if is_enabled(used, number) {
            all.push(unnamed_group_again(alloc, moves, group)?)?;
        }
        number = sum(number, 1)?;
    }
    Ok(all)
}

/// A copy of the group for an invoke, which has no name.
fn unnamed_group_again(alloc: Global, moves: PortMap<'_>, group: &Group) -> Result<Group, Memory>
    ensures value { IfOk result (λ copy. plain_group copy ≡ copied_group (map_by moves.entry) (plain_group group.now)) }
{
    Ok(Group {
        name: Name::from_bytes(alloc, &[])?,
        kind: group.kind,
        assigns: moved_assigns(alloc, &moves, &group.assigns)?,
        place: group.place,
    })
}
