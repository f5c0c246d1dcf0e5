//! Assignments as drivers, in source order. The guard of an assignment in a group stands behind a wire, its gate, which looks at
//! it only where the group goes.

ghost use Rattle.std.specs.Prelude.{◌≡◌, ◌+◌, ◌<◌, ◌||◌, ℕ, false, IfOk, get_or, length, map};
ghost use Rattle.cx_design.specs.PlainForms.{plain_assign, plain_guard};
ghost use Rattle.cx_design_parts.specs.Plain.{plain_owned};
ghost use Rattle.cx_net.specs.Nets.{OfPort};
ghost use Rattle.cx_net.specs.PlainNets.{plain_net_target};
ghost use Rattle.cx_static.specs.PlainLowered.{plain_island, plain_lowered, plain_occurrence};
ghost use Rattle.cx_wiring.specs.Assignments as wired;
ghost use Rattle.cx_wiring.specs.Assignments.{LooksAlways, LooksIn, target_of};
ghost use Rattle.cx_fsm.specs.Drafts.{Adds, IfWhole};
ghost use Rattle.cx_fsm.specs.Marks.{MarkGroups};
ghost use Rattle.cx_fsm.specs.Offsets.{offset_of};

use crate::drafts::Draft;
use crate::guards::guard_expr;
use cx_design::{Assign, GroupKind, Guard, PortRef};
use cx_design_parts::{OwnedAssign, source_order};
use cx_net::{NetExpr, NetTarget};
use cx_static::{Island, LoweredComponent, Occurrence};
use cx_text::Memory;
use std::alloc::Global;

/// Assignments of a component of so many groups, with the first of their wires. Answers the first wire behind them.
pub(crate) fn assigns_drivers(
    draft: &mut Draft,
    groups: u32,
    first: u32,
    assigns: &[OwnedAssign<'_>],
) -> u32
    ensures behind { IfWhole draft.new (result ≡ first + wired.assigns_wires (map plain_owned assigns.now)) }
    ensures driven { Adds draft.old draft.new (wired.assigns_drivers groups first (map plain_owned assigns.now)) }
{
    let mut wire = first;
    for owned in assigns {
        wire = assign_drivers(draft, groups, wire, *owned);
    }
    wire
}

/// An assignment of an owner, with the first of its wires. Answers the first wire behind them.
fn assign_drivers(draft: &mut Draft, groups: u32, wire: u32, owned: OwnedAssign<'_>) -> u32
    ensures behind { IfWhole draft.new (result ≡ wire + wired.assign_wires (plain_owned owned.entry)) }
    ensures driven { Adds draft.old draft.new (wired.assign_drivers groups wire (plain_owned owned.entry)) }
{
    let Some(owner) = owned.owner else {
        return open(draft, wire, None, owned.assign);
    };
    let group = draft.number_of(owner);
    match owned.assign.target {
        PortRef::Done(_) => open(draft, wire, Some(group), owned.assign),
        PortRef::Cell(_, _) | PortRef::Input(_) | PortRef::Output(_) | PortRef::Literal(_, _) => {
            gated(draft, groups, wire, group, owned.assign)
        }
    }
}

/// The target of an assignment: a port, or the done hole of a group.
fn target(port: PortRef) -> NetTarget
    ensures value { plain_net_target result ≡ target_of port }
{
    match port {
        PortRef::Done(group) => NetTarget::Hole(group),
        PortRef::Cell(_, _) | PortRef::Input(_) | PortRef::Output(_) | PortRef::Literal(_, _) => {
            NetTarget::Port(port)
        }
    }
}

/// An assignment that drives whether its group goes or not: a continuous one, or that of a done.
fn open(draft: &mut Draft, wire: u32, offset: Option<u32>, assign: &Assign) -> u32
    ensures behind { IfWhole draft.new (result ≡
        wire + wired.looking_wires (LooksAlways (offset_of offset)) (plain_guard assign.now.guard)) }
    ensures driven { Adds draft.old draft.new
        (wired.looking_drivers 0 (LooksAlways (offset_of offset)) wire (plain_assign assign.now)) }
{
    let guard = guard_expr(draft, offset, wire, &assign.guard);
    let source = NetExpr::Port(assign.source.port);
    draft.drive(target(assign.target), guard.expr, source);
    guard.behind
}

/// An assignment that drives where its group goes, and its guard, where it has one, is 1.
fn gated(draft: &mut Draft, groups: u32, wire: u32, group: u32, assign: &Assign) -> u32
    ensures behind { IfWhole draft.new
        (result ≡ wire + wired.looking_wires (LooksIn group) (plain_guard assign.now.guard)) }
    ensures driven { Adds draft.old draft.new
        (wired.looking_drivers groups (LooksIn group) wire (plain_assign assign.now)) }
{
    let go = draft.beyond(groups, group);
    let port = assign.source.port;
    match &assign.guard {
        Guard::True => {
            draft.drive(
                target(assign.target),
                NetExpr::Hole(go),
                NetExpr::Port(port),
            );
            wire
        }
        Guard::Port(_)
        | Guard::Not(_)
        | Guard::And(_)
        | Guard::Or(_)
        | Guard::Compare(_, _, _)
        | Guard::During(_, _) => {
            let inside = draft.beyond(wire, 1);
            let guard = guard_expr(draft, Some(group), inside, &assign.guard);
            draft.drive(NetTarget::Wire(wire), NetExpr::Hole(go), guard.expr);
            draft.drive(
                target(assign.target),
                NetExpr::Wire(wire),
                NetExpr::Port(port),
            );
            guard.behind
        }
    }
}

/// The assignments that are driven, in source order: all but those of static groups that no island has.
pub(crate) fn driven_assigns<'a>(
    alloc: Global,
    component: &'a LoweredComponent,
) -> Result<Vec<OwnedAssign<'a>>, Memory>
    ensures value { IfOk result
        (λ list. map plain_owned list.items ≡ wired.driven_assigns (plain_lowered component.now)) }
{
    let marks = occurring(alloc, component.part.groups.len(), &component.islands)?;
    let mut list = Vec::new(alloc);
    for owned in source_order(alloc, &component.part)?.as_slice() {
        if is_driven(component, &marks, owned.owner) {
            list.push(*owned)?;
        }
    }
    Ok(list)
}

/// For each of so many groups whether an island has it.
fn occurring(alloc: Global, groups: usize, islands: &[Island]) -> Result<Vec<bool>, Memory>
    ensures value { IfOk result (λ marks. MarkGroups marks.items groups (map plain_island islands.now)) }
{
    let mut marks = vec![in alloc; false; groups]?;
    for island in islands {
        mark(&mut marks, island.occurrences.as_slice());
    }
    Ok(marks)
}

/// Marks the groups of occurrences.
fn mark(marks: &mut Vec<bool>, occurrences: &[Occurrence])
    ensures count { length marks.new.items ≡ length marks.old.items }
    ensures value { (g : ℕ) → g < length marks.old.items →
        get_or marks.new.items g false ≡
        (get_or marks.old.items g false || wired.occurs_among g (map plain_occurrence occurrences.now)) }
{
    for occurrence in occurrences {
        let group = occurrence.group as usize;
        if group < marks.len() {
            marks[group] = true;
        }
    }
}

/// Whether the assignments of an owner are driven: a static group only where an island has it.
fn is_driven(component: &LoweredComponent, marks: &[bool], owner: Option<usize>) -> bool
    requires { MarkGroups marks.now (length component.now.part.groups.items)
        (map plain_island component.now.islands.items) }
    ensures value { result ≡ wired.owner_drives (plain_lowered component.now) owner }
{
    let Some(group) = owner else {
        return true;
    };
    let Some(found) = component.part.groups.get(group) else {
        return false;
    };
    match found.kind {
        GroupKind::Plain | GroupKind::Comb => true,
        GroupKind::Timed(_) => matches!(marks.get(group), Some(true)),
    }
}
