//! The rules on groups.

ghost use Rattle.std.specs.Prelude.{◌≡◌, IfOk, map};
ghost use Rattle.cx_rules.specs.Items as items;
ghost use Rattle.cx_rules.specs.ShapeRules as rules;
ghost use Rattle.cx_rules.specs.ShapeRules.{some_target};
ghost use Rattle.cx_design.specs.PlainForms.{plain_assigns, plain_group};
ghost use Rattle.cx_design_parts.specs.Breaks.{first_of, plain_spot};
ghost use Rattle.cx_shape_rules.specs.ShapeBreaks as breaks;
ghost use Rattle.cx_shape_rules.specs.ShapeBreaks.{group_breaks};

use crate::owners::kind_length;
use crate::telling::add_named;
use cx_design::{Assign, Group, GroupKind, PortRef};
use cx_design_parts::{FirstBreak, Spot};
use cx_text::{Memory, Rule};
use std::alloc::Global;

/// Looks at the group of a number.
#[tactic(auto, using(cx_design_parts::proofs::Lists::first_append))]
pub fn add_group(
    alloc: Global,
    first: &mut FirstBreak,
    spot: Spot,
    number: usize,
    group: &Group,
) -> Result<(), Memory>
    ensures value { IfOk result (λ _.
        first.new ≡ first_of first.old (group_breaks (plain_spot spot) number (plain_group group.now))) }
{
    let lacks_done = lacks_done(number, group);
    let name = group.name.bytes();
    add_named(
        alloc,
        first,
        lacks_done,
        Rule::NoDone,
        spot,
        group.place,
        name,
    )?;
    let is_bad = is_bad_static(group);
    add_named(
        alloc,
        first,
        is_bad,
        Rule::StaticShape,
        spot,
        group.place,
        name,
    )
}

/// Whether a plain group has no assignment of its done.
fn lacks_done(number: usize, group: &Group) -> bool
    ensures value { result ≡ breaks.lacks_done number (plain_group group.now) }
{
    is_plain(group.kind) && !drives_done_of(number, group.assigns.as_slice())
}

/// Whether a static group drives a done, or is of no cycles.
fn is_bad_static(group: &Group) -> bool
    ensures value { result ≡ breaks.is_bad_static (plain_group group.now) }
{
    match kind_length(group.kind) {
        Some(length) => drives_done(group.assigns.as_slice()) || length == 0,
        None => false,
    }
}

fn is_plain(kind: GroupKind) -> bool
    ensures value { result ≡ items.is_plain kind }
{
    match kind {
        GroupKind::Plain => true,
        GroupKind::Comb | GroupKind::Timed(_) => false,
    }
}

/// Whether a port is the done of a group.
pub fn is_hole(port: PortRef) -> bool
    ensures value { result ≡ rules.is_hole port }
{
    match port {
        PortRef::Done(_) => true,
        PortRef::Cell(_, _) | PortRef::Input(_) | PortRef::Output(_) | PortRef::Literal(_, _) => {
            false
        }
    }
}

/// Whether a port is the done of the group of a number.
fn is_hole_of(number: usize, port: PortRef) -> bool
    ensures value { result ≡ rules.is_hole_of number port }
{
    match port {
        PortRef::Done(group) => group as usize == number,
        PortRef::Cell(_, _) | PortRef::Input(_) | PortRef::Output(_) | PortRef::Literal(_, _) => {
            false
        }
    }
}

/// Whether one of the assignments drives the done of a group.
fn drives_done(assigns: &[Assign]) -> bool
    ensures value { result ≡ some_target rules.is_hole (plain_assigns assigns.now) }
{
    for assign in assigns {
        if is_hole(assign.target) {
            return true;
        }
    }
    false
}

/// Whether one of the assignments drives the done of the group of a number.
fn drives_done_of(number: usize, assigns: &[Assign]) -> bool
    ensures value { result ≡ some_target (rules.is_hole_of number) (plain_assigns assigns.now) }
{
    for assign in assigns {
        if is_hole_of(number, assign.target) {
            return true;
        }
    }
    false
}
