//! The component cell that a group calls.

ghost use Rattle.std.specs.Prelude.{◌≡◌, ◌<◌, IfNone, IfSome, None, Some, length, slice_get};
ghost use Rattle.cx_meaning.specs.Calls as calls;
ghost use Rattle.cx_meaning.specs.Instances as instances;
ghost use Rattle.cx_meaning.specs.Instances.{cells_of};
ghost use Rattle.cx_design.specs.PlainForms.{plain_assigns, plain_component, plain_group};
ghost use Rattle.cx_rules.specs.Ports.{component_of};
ghost use Rattle.cx_design.specs.PlainDesigns.{plain_design};
ghost use Rattle.cx_design_parts.specs.Cells.{StandsFor};

use cx_design::{Assign, Component, Design, Group, PortRef};
use cx_design_parts::{At, component, stands_at};

/// The component cell that a group calls, if any: the first of which it drives a port. It takes no memory.
pub fn called(design: &Design, number: usize, group: u32) -> Option<u32>
    requires within { number < length design.now.components.items }
    ensures value { result ≡ calls.called (component_of (plain_design design.now) number) group }
{
    match group_of(component(design, number), group) {
        Some(group) => called_in(design, number, group.assigns.as_slice()),
        None => None,
    }
}

/// The group of a number, where the component has it.
fn group_of(component: &Component, number: u32) -> Option<&Group>
    ensures none { IfNone result (slice_get (plain_component component.now).groups number ≡ None) }
    ensures some { IfSome result
        (λ group. slice_get (plain_component component.now).groups number ≡ Some (plain_group group.now)) }
{
    component.groups.as_slice().get(number as usize)
}

/// The component cell of the first target that is a port of one.
fn called_in(design: &Design, number: usize, assigns: &[Assign]) -> Option<u32>
    requires within { number < length design.now.components.items }
    ensures value { result ≡ calls.called_in (cells_of (component_of (plain_design design.now) number))
        (plain_assigns assigns.now) }
{
    let mut called = None;
    let mut left = assigns.len();
    while left > 0 {
        left -= 1;
        called = called_by(design, number, assigns[left].target, called);
    }
    called
}

/// The component cell of which a target is a port, and else the later one.
fn called_by(design: &Design, number: usize, target: PortRef, later: Option<u32>) -> Option<u32>
    requires within { number < length design.now.components.items }
    ensures value { result ≡ calls.called_by (cells_of (component_of (plain_design design.now) number)) target later }
{
    match target {
        PortRef::Cell(cell, _) => if_instance(stands_at(design, number, cell), cell, later),
        PortRef::Input(_) | PortRef::Output(_) | PortRef::Done(_) | PortRef::Literal(_, _) => later,
    }
}

/// A cell where a component stands, and else the later one.
fn if_instance(at: At<'_>, cell: u32, later: Option<u32>) -> Option<u32>
    ensures value { (there : instances.At) → StandsFor at.entry there → result ≡ calls.if_instance there cell later }
{
    match at {
        At::Part(_) => Some(cell),
        At::Nothing | At::Primitive(_) => later,
    }
}
