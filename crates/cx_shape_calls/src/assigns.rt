//! Whether an assignment breaks the rule.

ghost use Rattle.std.specs.Prelude.{◌≡◌, ◌<◌, ◌&&◌, ◌∷◌, [], is_some, length, map, not};
ghost use Rattle.std.specs.List.{list_any};
ghost use Rattle.std.specs.Option.{option_map};
ghost use Rattle.cx_meaning.specs.Active as active;
ghost use Rattle.cx_rules.specs.Ports.{component_of};
ghost use Rattle.cx_rules.specs.ShapeRules as rules;
ghost use Rattle.cx_rules.specs.CallShape as call;
ghost use Rattle.cx_rules.specs.InvokeShape as invokes;
ghost use Rattle.cx_meaning.specs.Instances.{cells_of, cell_at};
ghost use Rattle.cx_meaning.specs.Sights.{part_port};
ghost use Rattle.cx_design.specs.PlainForms.{plain_assign, plain_component};
ghost use Rattle.cx_design.specs.PlainDesigns.{plain_design};
ghost use Rattle.cx_callees.specs.Callees.{plain_callee, done_of};
ghost use Rattle.cx_shape_calls.specs.Forms as forms;
ghost use Rattle.cx_shape_calls.specs.Decisions as decisions;

use crate::groups::GroupShape;
use crate::{is_right_enable, is_right_go, register_of, times};
use cx_callees::{Callee, callee_of};
use cx_design::{Assign, Component, Design, PortRef};
use cx_design_parts::{
    At, PartPort, component, is_part_port, is_primitive_enable, part_port, stands_at,
};

/// Whether an assignment of a group, or a continuous one, breaks the rule.
pub fn is_wrong_in(
    design: &Design,
    number: usize,
    shapes: &[Option<GroupShape<'_>>],
    owner: Option<usize>,
    assign: &Assign,
) -> bool
    requires within { number < length design.now.components.items }
    ensures value { result ≡ decisions.is_wrong_in
        (component_of (plain_design design.now) number) shapes.now owner (plain_assign assign.now) }
{
    match owner {
        Some(place) => is_wrong_by(design, number, place, shape_at(shapes, place), assign),
        None => is_part_port(design, number, assign.target),
    }
}

/// Whether a port is one of a cell of a static component.
pub fn is_static_port(design: &Design, number: usize, port: PortRef) -> bool
    requires within { number < length design.now.components.items }
    ensures value { result ≡ invokes.is_static_port (component_of (plain_design design.now) number) port }
{
    match port {
        PortRef::Cell(cell, _) => is_static_cell(design, number, cell),
        PortRef::Input(_) | PortRef::Output(_) | PortRef::Done(_) | PortRef::Literal(_, _) => false,
    }
}

fn is_static_cell(design: &Design, number: usize, cell: u32) -> bool
    requires within { number < length design.now.components.items }
    ensures value { result ≡ is_some
        (invokes.latency_at (cell_at (cells_of (component_of (plain_design design.now) number)) cell)) }
{
    match stands_at(design, number, cell) {
        At::Part(part) => part.latency.is_some(),
        At::Nothing | At::Primitive(_) => false,
    }
}

/// What is kept of a group, where it calls.
pub fn shape_at<'a, 'b>(
    shapes: &'b [Option<GroupShape<'a>>],
    place: usize,
) -> Option<&'b GroupShape<'a>>
    ensures value { option_map (λ s. s.now) result ≡ decisions.shape_at shapes.now place }
{
    match shapes.get(place) {
        Some(Some(shape)) => Some(shape),
        _ => None,
    }
}

/// Whether an assignment of a group breaks the rule, by what is kept of the group.
fn is_wrong_by(
    design: &Design,
    number: usize,
    place: usize,
    shape: Option<&GroupShape<'_>>,
    assign: &Assign,
) -> bool
    requires within { number < length design.now.components.items }
    ensures value { result ≡ decisions.is_wrong_by (component_of (plain_design design.now) number) place
        (plain_assign assign.now) (option_map (λ s. s.now) shape.entry) }
{
    match shape {
        Some(shape) => is_wrong(design, number, place, shape, assign),
        None => is_part_port(design, number, assign.target),
    }
}

/// Whether an assignment of a group that calls breaks a condition.
fn is_wrong(
    design: &Design,
    number: usize,
    place: usize,
    shape: &GroupShape<'_>,
    assign: &Assign,
) -> bool
    requires within { number < length design.now.components.items }
    ensures value { result ≡ decisions.is_wrong (component_of (plain_design design.now) number) place
        (map plain_callee shape.now.form.called.items) (forms.times shape.now.form.driven)
        (forms.times shape.now.dependent) shape.now.form.wrong_done
        (plain_assign assign.now) assign.now.target }
{
    match callee_of(design, number, assign.target) {
        Some(callee) => {
            calls_other(shape.form.called.as_slice(), callee.cell)
                || is_wrong_port(shape, callee, assign)
        }
        None => is_wrong_bare(design, number, place, shape, assign),
    }
}

/// Whether a group calls another cell.
fn calls_other(called: &[Callee<'_>], cell: u32) -> bool
    ensures value { result ≡ decisions.calls_other (map plain_callee called.now) cell }
{
    for callee in called {
        if callee.cell != cell {
            return true;
        }
    }
    false
}

/// Whether an assignment of a port of a called cell breaks a condition: of its go, or of an input.
fn is_wrong_port(shape: &GroupShape<'_>, callee: Callee<'_>, assign: &Assign) -> bool
    ensures value { let k = plain_callee callee.entry in
        let p = active.port_number assign.now.target in
        result ≡ decisions.wrong_port (forms.times shape.now.form.driven) (forms.times shape.now.dependent)
        (plain_assign assign.now) k p (part_port k.part p) }
{
    let port = port_number(assign.target);
    match part_port(callee.part, port) {
        PartPort::Go => {
            times(&shape.form.driven, callee.cell, 0) != 1 || !is_right_go(callee, assign)
        }
        PartPort::Input(_) => times(&shape.dependent, callee.cell, port) != 0,
        PartPort::Output(_) | PartPort::Done => false,
    }
}

/// The number of a port in its cell.
fn port_number(port: PortRef) -> u32
    ensures value { result ≡ active.port_number port }
{
    match port {
        PortRef::Cell(_, port) => port,
        PortRef::Input(_) | PortRef::Output(_) | PortRef::Done(_) | PortRef::Literal(_, _) => 0,
    }
}

/// The number of a port's cell.
fn cell_number(port: PortRef) -> u32
    ensures value { result ≡ active.cell_number port }
{
    match port {
        PortRef::Cell(cell, _) => cell,
        PortRef::Input(_) | PortRef::Output(_) | PortRef::Done(_) | PortRef::Literal(_, _) => 0,
    }
}

/// Whether an assignment of another port breaks a condition: of an enabling port, or of the group's done.
fn is_wrong_bare(
    design: &Design,
    number: usize,
    place: usize,
    shape: &GroupShape<'_>,
    assign: &Assign,
) -> bool
    requires within { number < length design.now.components.items }
    ensures value { result ≡ decisions.wrong_bare (component_of (plain_design design.now) number) place
        (map plain_callee shape.now.form.called.items)
        (forms.times shape.now.form.driven) shape.now.form.wrong_done
        (plain_assign assign.now) assign.now.target }
{
    if is_primitive_enable(design, number, assign.target) {
        is_wrong_enable(component(design, number), shape, assign)
    } else {
        is_done_of(place, assign.target) && shape.form.wrong_done
    }
}

/// Whether a port is the done of a group.
fn is_done_of(group: usize, port: PortRef) -> bool
    ensures value { result ≡ rules.is_hole_of group port }
{
    match port {
        PortRef::Done(done) => done as usize == group,
        PortRef::Cell(_, _) | PortRef::Input(_) | PortRef::Output(_) | PortRef::Literal(_, _) => {
            false
        }
    }
}

/// Whether an enabling port is not the `write_en` of a `std_reg` that the done of each called cell enables.
fn is_wrong_enable(component: &Component, shape: &GroupShape<'_>, assign: &Assign) -> bool
    ensures value { result ≡ decisions.wrong_enable_of (plain_component component.now)
        (map plain_callee shape.now.form.called.items) (forms.times shape.now.form.driven)
        (plain_assign assign.now) assign.now.target }
{
    let target = assign.target;
    let alone = is_register_enable(component, target)
        && times(&shape.form.driven, cell_number(target), port_number(target)) == 1;
    is_wrong_for_one(shape.form.called.as_slice(), alone, assign)
}

/// Whether a port is the `write_en` of a `std_reg`.
fn is_register_enable(component: &Component, port: PortRef) -> bool
    ensures value { result ≡ call.is_register_enable (plain_component component.now) port }
{
    register_of(component, port).is_some()
}

/// Whether an assignment is not the one that enables a captured register for each of the called cells.
fn is_wrong_for_one(called: &[Callee<'_>], alone: bool, assign: &Assign) -> bool
    ensures value { result ≡ list_any
        (λ k. not (alone && call.is_right_enable (done_of k) (plain_assign assign.now ∷ [])))
        (map plain_callee called.now) }
{
    for callee in called {
        if !alone || !is_right_enable(*callee, assign) {
            return true;
        }
    }
    false
}
