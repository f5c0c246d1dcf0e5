//! Which groups have a known length.

ghost use Rattle.std.specs.Prelude.{◌≡◌, ◌<◌, IfOk, filter, length, map};
ghost use Rattle.std.specs.List.{list_any};
ghost use Rattle.std.specs.Option.{option_map};
ghost use Rattle.cx_meaning.specs.Designs.{component_at};
ghost use Rattle.cx_meaning.specs.Instances.{part_of};
ghost use Rattle.cx_rules.specs.CallShape as shape;
ghost use Rattle.cx_rules.specs.Items as items;
ghost use Rattle.cx_rules.specs.Ports as ports;
ghost use Rattle.cx_rules.specs.Ports.{component_of};
ghost use Rattle.cx_rules.specs.ShapeRules as rules;
ghost use Rattle.cx_rules.specs.ShapeRules.{some_target};
ghost use Rattle.cx_design.specs.PlainDesigns.{plain_design};
ghost use Rattle.cx_design.specs.PlainForms.{plain_assign, plain_assigns, plain_group, plain_guard};
ghost use Rattle.cx_promotion.specs.Promotable as promotable;
ghost use Rattle.cx_promote.specs.Waiting.{of_done, only};

use crate::dones::always_looks;
use crate::primitives::timing_of;
use crate::starts::Started;
use cx_design::{Assign, Design, Group, GroupKind, Guard, PortRef};
use cx_design_parts::{At, component, is_part_port, stands_at};
use cx_text::Memory;
use std::alloc::Global;

/// The length in cycles of each group of a component, in order; none where it is not promotable.
pub(crate) fn lengths(
    alloc: Global,
    design: &Design,
    number: usize,
) -> Result<Vec<Option<u64>>, Memory>
    requires within { number < length design.now.components.items }
    ensures value { IfOk result (λ list. list.items ≡
        map (promotable.promotable (component_of (plain_design design.now) number))
        (component_at (plain_design design.now) number).groups) }
{
    let groups = component(design, number).groups.as_slice();
    let looks = always_looks(design, number);
    let mut lengths = Vec::with_capacity(alloc, groups.len())?;
    for group in groups {
        lengths.push(length_of(design, number, looks, group))?;
    }
    Ok(lengths)
}

/// The length in cycles of a group, where it is promotable; `looks` tells whether a continuous assignment looks at a done.
fn length_of(design: &Design, number: usize, looks: bool, group: &Group) -> Option<u64>
    requires within { number < length design.now.components.items }
    requires looks { looks ≡ list_any
        (promotable.looks_at_done (component_of (plain_design design.now) number))
        (part_of (component_of (plain_design design.now) number)).always }
    ensures value { result ≡
        promotable.promotable (component_of (plain_design design.now) number) (plain_group group.now) }
{
    if is_plain(group.kind) && !drives_part(design, number, group.assigns.as_slice()) {
        length_waiting(design, number, looks, group)
    } else {
        None
    }
}

/// The length of a group that drives no component's cell, by its done.
fn length_waiting(design: &Design, number: usize, looks: bool, group: &Group) -> Option<u64>
    requires within { number < length design.now.components.items }
    requires looks { looks ≡ list_any
        (promotable.looks_at_done (component_of (plain_design design.now) number))
        (part_of (component_of (plain_design design.now) number)).always }
    ensures value { result ≡ promotable.of_dones (component_of (plain_design design.now) number)
        (plain_group group.now) (filter (λ a. rules.is_hole a.target) (plain_group group.now).assigns) }
{
    match only_done(group.assigns.as_slice()) {
        None => None,
        Some(done) => length_after(design, number, looks, group, done),
    }
}

/// The length of a group whose one done assignment this is.
fn length_after(
    design: &Design,
    number: usize,
    looks: bool,
    group: &Group,
    done: &Assign,
) -> Option<u64>
    requires within { number < length design.now.components.items }
    requires looks { looks ≡ list_any
        (promotable.looks_at_done (component_of (plain_design design.now) number))
        (part_of (component_of (plain_design design.now) number)).always }
    ensures value { result ≡ of_done (component_of (plain_design design.now) number)
        (plain_group group.now) (plain_assign done.now) }
{
    if is_always(&done.guard) {
        length_by(design, number, looks, group, done.source.port)
    } else {
        None
    }
}

/// The length of a group whose done has this source.
fn length_by(
    design: &Design,
    number: usize,
    looks: bool,
    group: &Group,
    source: PortRef,
) -> Option<u64>
    requires within { number < length design.now.components.items }
    requires looks { looks ≡ list_any
        (promotable.looks_at_done (component_of (plain_design design.now) number))
        (part_of (component_of (plain_design design.now) number)).always }
    ensures value { result ≡
        promotable.of_source (component_of (plain_design design.now) number) (plain_group group.now) source }
{
    match source {
        PortRef::Cell(cell, port) => match stands_at(design, number, cell) {
            At::Primitive(primitive) => {
                let started = Started {
                    cell,
                    port,
                    primitive,
                };
                if started.keeps_all(design, number, looks, group) {
                    timing_of(primitive).cycles
                } else {
                    None
                }
            }
            At::Nothing | At::Part(_) => None,
        },
        PortRef::Input(_) | PortRef::Output(_) | PortRef::Done(_) | PortRef::Literal(_, _) => None,
    }
}

/// Whether one of the assignments drives a port of a component's cell.
fn drives_part(design: &Design, number: usize, assigns: &[Assign]) -> bool
    requires within { number < length design.now.components.items }
    ensures value { result ≡ some_target
        (ports.is_part_port (component_of (plain_design design.now) number)) (plain_assigns assigns.now) }
{
    for assign in assigns {
        if is_part_port(design, number, assign.target) {
            return true;
        }
    }
    false
}

/// The one assignment of a done, where there is exactly one.
fn only_done(assigns: &[Assign]) -> Option<&Assign>
    ensures value { option_map (λ a. plain_assign a.now) result ≡
        only (filter (λ a. rules.is_hole a.target) (plain_assigns assigns.now)) }
{
    let mut found = None;
    for assign in assigns {
        if !is_hole(assign.target) {
            continue;
        }
        if found.is_some() {
            return None;
        }
        found = Some(assign);
    }
    found
}

/// Whether a group is plain.
fn is_plain(kind: GroupKind) -> bool
    ensures value { result ≡ items.is_plain kind }
{
    match kind {
        GroupKind::Plain => true,
        GroupKind::Comb | GroupKind::Timed(_) => false,
    }
}

/// Whether a port is a hole.
pub(crate) fn is_hole(port: PortRef) -> bool
    ensures value { result ≡ rules.is_hole port }
{
    match port {
        PortRef::Done(_) => true,
        PortRef::Cell(_, _) | PortRef::Input(_) | PortRef::Output(_) | PortRef::Literal(_, _) => {
            false
        }
    }
}

/// Whether there is no guard.
pub(crate) fn is_always(guard: &Guard) -> bool
    ensures value { result ≡ shape.is_always (plain_guard guard.now) }
{
    matches!(guard, Guard::True)
}
