//! Ports by number, from targets and operands.

ghost use Rattle.std.specs.Prelude.{◌≡◌, ◌≢◌, IfOk, map};
ghost use Rattle.cx_prim.specs.PortNames.{text_of};
ghost use Rattle.cx_prim.specs.Table.{row_of};
ghost use Rattle.cx_numbering.specs.Names.{number_of, port_names, cell_among, cell_port_names, found_cell_ports, component_among, or_component, APrimitive};
ghost use Rattle.cx_numbering.specs.DesignOf as design;
ghost use Rattle.cx_numbering.specs.DesignOf.{number_or_0};
ghost use Rattle.cx_names.specs.Sites.{IsSite, tree_at, part_at};

use crate::numbers::{number, number_or_zero};
use crate::sites::Site;
use cx_ast::{OperandForm, OperandItem};
use cx_cells::Primitive;
use cx_meaning::{PlacedPort, PortRef};
use cx_names_scopes::{CellKind, is_named, primitive_row};
use cx_prim::{Cycle, PrimitiveName};
use cx_text::{Memory, Name};
use std::alloc::Global;

// The number of a port in the row of a primitive.
fn row_port(primitive: &Primitive, port: &Name) -> Option<usize>
    ensures { result ≡ number_of port.now (map (λ port. text_of port.name) (row_of primitive.now).ports) }
{
    for number in 0..primitive.port_count() {
        if is_named(port, primitive.port(number).name.text().as_bytes()) {
            return Some(number);
        }
    }
    None
}

// The number of a port of a primitive. Numbers that break its row leave it no port.
fn primitive_port(name: PrimitiveName, numbers: &[u64], port: &Name) -> Option<usize>
    requires { name ≢ PrimitiveName.Timer }
    ensures { result ≡
        number_of port.now (cell_port_names (APrimitive (record { name = name; numbers = numbers.now }))) }
{
    match primitive_row(name, numbers) {
        None => None,
        Some(primitive) => row_port(&primitive, port),
    }
}

// The number of a port of the component of a name.
fn component_port(site: &Site, component: &Name, port: &Name) -> Option<usize>
    requires { IsSite site.now }
    ensures { result ≡ number_of port.now
        (cell_port_names (or_component (component_among component.now (tree_at site.now).components))) }
{
    match site.scope.index.components.find(component) {
        None => None,
        Some(number) => site.ports[number].find(port),
    }
}

// The number of a port of the cell of a name.
fn port_number(site: &Site, cell: &Name, port: &Name) -> Option<usize>
    requires { IsSite site.now }
    ensures { result ≡ number_of port.now
        (found_cell_ports (tree_at site.now) (cell_among cell.now (part_at site.now).cells)) }
{
    let Some(found) = site.scope.cell(cell) else {
        return None;
    };
    match site.scope.kind(found) {
        CellKind::Unknown => None,
        CellKind::Primitive { name, numbers } => primitive_port(name, numbers, port),
        CellKind::Component { .. } => component_port(site, &found.kind, port),
    }
}

/// A port of a cell.
pub(crate) fn cell_port(site: &Site, cell: &Name, port: &Name) -> Result<PortRef, Memory>
    requires { IsSite site.now }
    ensures { IfOk result (λ p. p ≡ design.cell_port (tree_at site.now) (part_at site.now) cell.now port.now) }
{
    let port = number_or_zero(port_number(site, cell, port))?;
    let cell = number_or_zero(site.scope.own.cells.find(cell))?;
    Ok(PortRef::Cell(cell, port))
}

/// A port of a cell, by a name that the language knows.
pub(crate) fn known_port(
    alloc: Global,
    site: &Site,
    cell: &Name,
    port: &[u8],
) -> Result<PortRef, Memory>
    requires { IsSite site.now }
    ensures { IfOk result (λ p. p ≡ design.cell_port (tree_at site.now) (part_at site.now) cell.now port.now) }
{
    let port = Name::from_bytes(alloc, port)?;
    cell_port(site, cell, &port)
}

// A port of the component itself.
fn own_port(site: &Site, name: &Name) -> Result<PortRef, Memory>
    requires { IsSite site.now }
    ensures { IfOk result (λ p. p ≡ design.own_port
        (number_of name.now (port_names (part_at site.now).inputs))
        (number_or_0 name.now (port_names (part_at site.now).outputs))) }
{
    match site.scope.own.inputs.find(name) {
        Some(input) => Ok(PortRef::Input(number(input)?)),
        None => {
            let output = number_or_zero(site.scope.own.outputs.find(name))?;
            Ok(PortRef::Output(output))
        }
    }
}

// The done hole of a group.
fn done(site: &Site, group: &Name) -> Result<PortRef, Memory>
    requires { IsSite site.now }
    ensures { IfOk result
        (λ p. p ≡ PortRef.Done (design.group_number (tree_at site.now) (part_at site.now) group.now)) }
{
    Ok(PortRef::Done(group_number(site, group)?))
}

/// The number of the group of a name.
pub(crate) fn group_number(site: &Site, group: &Name) -> Result<u32, Memory>
    requires { IsSite site.now }
    ensures { IfOk result (λ n. n ≡ design.group_number (tree_at site.now) (part_at site.now) group.now) }
{
    number_or_zero(site.scope.own.groups.numbers.find(group))
}

/// The port of a target or an operand.
pub(crate) fn port(site: &Site, form: &OperandForm) -> Result<PortRef, Memory>
    requires { IsSite site.now }
    ensures { IfOk result (λ p. p ≡ design.port_of (tree_at site.now) (part_at site.now) form.now) }
{
    match form {
        OperandForm::Own(name) => own_port(site, name),
        OperandForm::Port(cell, port) => cell_port(site, cell, port),
        OperandForm::Hole(group, _) => done(site, group),
        OperandForm::Literal(width, value) => Ok(PortRef::Literal(*width, *value)),
    }
}

/// The port of an operand, where it stands.
pub(crate) fn placed(site: &Site, operand: &OperandItem) -> Result<PlacedPort, Memory>
    requires { IsSite site.now }
    ensures { IfOk result (λ p. p ≡ design.placed_of (tree_at site.now) (part_at site.now) operand.now) }
{
    let port = port(site, &operand.form)?;
    Ok(PlacedPort {
        port,
        place: operand.place,
    })
}
