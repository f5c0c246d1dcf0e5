//! The conditions on a group that starts a cell and waits for its done.

ghost use Rattle.std.specs.Prelude.{◌≡◌, ◌<◌, ◌&&◌, ◌||◌, length, nat_eq};
ghost use Rattle.std.specs.List.{list_all, list_any};
ghost use Rattle.cx_prim.specs.Table.{row_of};
ghost use Rattle.cx_meaning.specs.declared.ports.PortRef.TheVariants as refs;
ghost use Rattle.cx_meaning.specs.Active.{same_port as same_port_of};
ghost use Rattle.cx_meaning.specs.Instances.{part_of};
ghost use Rattle.cx_rules.specs.CallShape as shape;
ghost use Rattle.cx_rules.specs.CallShape.{with_target};
ghost use Rattle.cx_rules.specs.Ports.{component_of};
ghost use Rattle.cx_rules.specs.ShapeRules.{some_target};
ghost use Rattle.cx_design.specs.PlainDesigns.{plain_design};
ghost use Rattle.cx_design.specs.PlainForms.{plain_assign, plain_assigns, plain_group, plain_guard};
ghost use Rattle.cx_promotion.specs.Promotable as promotable;
ghost use Rattle.cx_promote.specs.Starting.{drives_right, drives_start};

use crate::dones::looks_at_done;
use crate::lengths::{is_always, is_hole};
use crate::primitives::{is_done_port, starting_port, timing_of};
use cx_design::{Assign, Design, Group, Guard, PortRef, Primitive};
use cx_design_parts::is_primitive_enable;

/// The cell that a group starts, the port that the group's done names, and the primitive of the cell.
#[derive(Clone, Copy)]
pub(crate) struct Started<'a> {
    pub(crate) cell: u32,
    pub(crate) port: u32,
    pub(crate) primitive: &'a Primitive,
}

impl Started<'_> {
    /// Whether the group starts the cell and waits for its done, drives no other enabling port, and looks at no other done; nor
    /// does a continuous assignment, as `looks` tells.
    #[tactic(auto, using(crate::proofs::StartLemmas::keeps_all_by))]
    pub(crate) fn keeps_all(
        self,
        design: &Design,
        number: usize,
        looks: bool,
        group: &Group,
    ) -> bool
        requires within { number < length design.now.components.items }
        requires looks { looks ≡ list_any
            (promotable.looks_at_done (component_of (plain_design design.now) number))
            (part_of (component_of (plain_design design.now) number)).always }
        ensures value { result ≡ promotable.keeps_all (component_of (plain_design design.now) number)
            (plain_group group.now) self.entry.cell self.entry.port (row_of self.entry.primitive.now) }
    {
        let done = is_done_port(self.primitive, self.port);
        let starting = self.starts(group);
        let right = self.all_right(design, number, group);
        done && starting && right && !looks
    }

    /// Whether an assignment drives the port that starts the cell.
    fn starts(self, group: &Group) -> bool
        ensures value { result ≡ drives_start self.entry.cell (plain_group group.now).assigns
            (promotable.starting_port (row_of self.entry.primitive.now)) }
    {
        match starting_port(self.primitive) {
            None => false,
            Some(start) => drives(self.cell, start, group.assigns.as_slice()),
        }
    }

    /// Whether each assignment is one of the done, or drives an enabling port as it has to be, or looks at no done.
    fn all_right(self, design: &Design, number: usize, group: &Group) -> bool
        requires within { number < length design.now.components.items }
        ensures value { result ≡ list_all (promotable.is_right
            (component_of (plain_design design.now) number)
            (plain_group group.now) self.entry.cell self.entry.port (row_of self.entry.primitive.now))
            (plain_group group.now).assigns }
    {
        for assign in &group.assigns {
            if !self.is_right(design, number, group, assign) {
                return false;
            }
        }
        true
    }

    fn is_right(self, design: &Design, number: usize, group: &Group, assign: &Assign) -> bool
        requires within { number < length design.now.components.items }
        ensures value { result ≡ promotable.is_right (component_of (plain_design design.now) number)
            (plain_group group.now) self.entry.cell self.entry.port (row_of self.entry.primitive.now)
            (plain_assign assign.now) }
    {
        if is_hole(assign.target) {
            return true;
        }
        if is_primitive_enable(design, number, assign.target) {
            self.is_right_enable(group, assign)
        } else {
            !looks_at_done(design, number, assign)
        }
    }

    /// Whether an enabling port is one of the cell and is driven once, by `1'd1`, without a guard or, of a pipe, while not done.
    fn is_right_enable(self, group: &Group, assign: &Assign) -> bool
        ensures value { result ≡ drives_right (plain_group group.now) self.entry.cell self.entry.port
            (row_of self.entry.primitive.now) (plain_assign assign.now) }
    {
        self.is_own(assign.target)
            && is_one(assign.source.port)
            && self.is_free(&assign.guard)
            && is_driven_once(assign.target, group.assigns.as_slice())
    }

    /// Whether a port is one of the cell.
    fn is_own(self, port: PortRef) -> bool
        ensures value { result ≡ shape.is_port_of self.entry.cell port }
    {
        match port {
            PortRef::Cell(cell, _) => cell == self.cell,
            PortRef::Input(_) | PortRef::Output(_) | PortRef::Done(_) | PortRef::Literal(_, _) => {
                false
            }
        }
    }

    /// Whether there is no guard or, of a pipe, the negated done.
    fn is_free(self, guard: &Guard) -> bool
        ensures value { result ≡ (shape.is_always (plain_guard guard.now) ||
            (promotable.is_pipe (row_of self.entry.primitive.now).shape &&
            shape.is_negated (refs.Cell self.entry.cell self.entry.port) (plain_guard guard.now))) }
    {
        is_always(guard) || timing_of(self.primitive).is_pipe && self.is_not_done(guard)
    }

    /// Whether a guard is the done.
    fn is_atom(self, guard: &Guard) -> bool
        ensures value { result ≡ shape.is_atom (refs.Cell self.entry.cell self.entry.port) (plain_guard guard.now) }
    {
        match guard {
            Guard::Port(port) => same_port(port.port, PortRef::Cell(self.cell, self.port)),
            Guard::True
            | Guard::Not(_)
            | Guard::And(_)
            | Guard::Or(_)
            | Guard::Compare(_, _, _)
            | Guard::During(_, _) => false,
        }
    }

    /// Whether a guard is the negated done.
    fn is_not_done(self, guard: &Guard) -> bool
        ensures value { result ≡ shape.is_negated (refs.Cell self.entry.cell self.entry.port) (plain_guard guard.now) }
    {
        match guard {
            Guard::Not(guard) => self.is_atom(guard),
            Guard::True
            | Guard::Port(_)
            | Guard::And(_)
            | Guard::Or(_)
            | Guard::Compare(_, _, _)
            | Guard::During(_, _) => false,
        }
    }
}

/// Whether a port is this one of a cell.
fn is_port(cell: u32, number: usize, port: PortRef) -> bool
    ensures value { result ≡ same_port_of (refs.Cell cell number) port }
{
    match port {
        PortRef::Cell(other, port) => cell == other && number == port as usize,
        PortRef::Input(_) | PortRef::Output(_) | PortRef::Done(_) | PortRef::Literal(_, _) => false,
    }
}

/// Whether one of the assignments drives a port of a cell.
fn drives(cell: u32, number: usize, assigns: &[Assign]) -> bool
    ensures value { result ≡ some_target (same_port_of (refs.Cell cell number)) (plain_assigns assigns.now) }
{
    for assign in assigns {
        if is_port(cell, number, assign.target) {
            return true;
        }
    }
    false
}

/// Whether a port is the literal `1'd1`.
fn is_one(port: PortRef) -> bool
    ensures value { result ≡ same_port_of port shape.one }
{
    match port {
        PortRef::Literal(width, value) => width == 1 && value == 1,
        PortRef::Cell(_, _) | PortRef::Input(_) | PortRef::Output(_) | PortRef::Done(_) => false,
    }
}

/// Whether exactly one assignment drives a port.
fn is_driven_once(port: PortRef, assigns: &[Assign]) -> bool
    ensures value { result ≡ nat_eq (length (with_target port (plain_assigns assigns.now))) 1 }
{
    let mut driven = false;
    for assign in assigns {
        if same_port(assign.target, port) {
            if driven {
                return false;
            }
            driven = true;
        }
    }
    driven
}

/// Whether two ports are the same.
fn same_port(port: PortRef, other: PortRef) -> bool
    ensures value { result ≡ same_port_of port other }
{
    match (port, other) {
        (PortRef::Cell(a, b), PortRef::Cell(c, d)) => a == c && b == d,
        (PortRef::Input(a), PortRef::Input(b)) => a == b,
        (PortRef::Output(a), PortRef::Output(b)) => a == b,
        (PortRef::Done(a), PortRef::Done(b)) => a == b,
        (PortRef::Literal(a, b), PortRef::Literal(c, d)) => a == c && b == d,
        _ => false,
    }
}
