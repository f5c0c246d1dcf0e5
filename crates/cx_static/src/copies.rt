//! Parts of a component once more.

ghost use Rattle.std.specs.Prelude.{◌≡◌, IfOk, map};
ghost use Rattle.cx_design.specs.PlainForms.{plain_assign, plain_assigns, plain_cell, plain_group, plain_guard, plain_kind};

use cx_design::{Assign, Cell, CellKind, Group, Guard};
use cx_meaning::PortDecl;
use cx_text::{Memory, Name};
use std::alloc::Global;

/// The same name again.
pub fn copied_name(alloc: Global, name: &Name) -> Result<Name, Memory>
    ensures value { IfOk result (λ copy. copy ≡ name.now) }
{
    Name::from_bytes(alloc, name.bytes())
}

/// The same ports again.
pub fn copied_ports(alloc: Global, ports: &[PortDecl]) -> Result<Vec<PortDecl>, Memory>
    ensures value { IfOk result (λ copies. copies.items ≡ ports.now) }
{
    let mut copies = Vec::with_capacity(alloc, ports.len())?;
    for port in ports {
        let name = copied_name(alloc, &port.name)?;
        let width = port.width;
        copies.push(PortDecl { name, width })?;
    }
    Ok(copies)
}

/// The same kind again.
fn copied_kind(kind: &CellKind) -> CellKind
    ensures value { plain_kind result ≡ plain_kind kind.now }
{
    match kind {
        CellKind::Prim(primitive) => CellKind::Prim(primitive.copied()),
        CellKind::Part(part) => CellKind::Part(*part),
    }
}

/// The same cell again.
fn copied_cell(alloc: Global, cell: &Cell) -> Result<Cell, Memory>
    ensures value { IfOk result (λ copy. plain_cell copy ≡ plain_cell cell.now) }
{
    Ok(Cell {
        name: copied_name(alloc, &cell.name)?,
        kind: copied_kind(&cell.kind),
        external: cell.external,
        place: cell.place,
    })
}

/// The same cells again.
pub fn copied_cells(alloc: Global, cells: &[Cell]) -> Result<Vec<Cell>, Memory>
    ensures value { IfOk result (λ copies. map plain_cell copies.items ≡ map plain_cell cells.now) }
{
    let mut copies = Vec::with_capacity(alloc, cells.len())?;
    for cell in cells {
        copies.push(copied_cell(alloc, cell)?)?;
    }
    Ok(copies)
}

/// The same guard again.
#[cycle(guard)]
fn copied_guard(alloc: Global, guard: &Guard) -> Result<Guard, Memory>
    ensures value { IfOk result (λ copy. plain_guard copy ≡ plain_guard guard.now) }
{
    match guard {
        Guard::True => Ok(Guard::True),
        Guard::Port(port) => Ok(Guard::Port(*port)),
        Guard::Not(part) => {
            let part = copied_guard(alloc, part)?;
            Ok(Guard::Not(Box::new(alloc, part)?))
        }
        Guard::And(parts) => Ok(Guard::And(copied_guards(alloc, parts)?)),
        Guard::Or(parts) => Ok(Guard::Or(copied_guards(alloc, parts)?)),
        Guard::Compare(comparison, left, right) => {
            Ok(Guard::Compare(*comparison, *left, *right))
        }
        Guard::During(from, to) => Ok(Guard::During(*from, *to)),
    }
}

/// The same guards again.
#[cycle(guard)]
fn copied_guards(alloc: Global, guards: &[Guard]) -> Result<Vec<Guard>, Memory>
    ensures value { IfOk result (λ copies. map plain_guard copies.items ≡ map plain_guard guards.now) }
{
    let mut copies = Vec::with_capacity(alloc, guards.len())?;
    for guard in guards {
        copies.push(copied_guard(alloc, guard)?)?;
    }
    Ok(copies)
}

/// The same assignment again.
fn copied_assign(alloc: Global, assign: &Assign) -> Result<Assign, Memory>
    ensures value { IfOk result (λ copy. plain_assign copy ≡ plain_assign assign.now) }
{
    Ok(Assign {
        target: assign.target,
        guard: copied_guard(alloc, &assign.guard)?,
        source: assign.source,
        place: assign.place,
    })
}

/// The same assignments again.
pub fn copied_assigns(alloc: Global, assigns: &[Assign]) -> Result<Vec<Assign>, Memory>
    ensures value { IfOk result (λ copies. plain_assigns copies.items ≡ plain_assigns assigns.now) }
{
    let mut copies = Vec::with_capacity(alloc, assigns.len())?;
    for assign in assigns {
        copies.push(copied_assign(alloc, assign)?)?;
    }
    Ok(copies)
}

/// The same group again.
fn copied_group(alloc: Global, group: &Group) -> Result<Group, Memory>
    ensures value { IfOk result (λ copy. plain_group copy ≡ plain_group group.now) }
{
    Ok(Group {
        name: copied_name(alloc, &group.name)?,
        kind: group.kind,
        assigns: copied_assigns(alloc, &group.assigns)?,
        place: group.place,
    })
}

/// The same groups again.
pub fn copied_groups(alloc: Global, groups: &[Group]) -> Result<Vec<Group>, Memory>
    ensures value { IfOk result (λ copies. map plain_group copies.items ≡ map plain_group groups.now) }
{
    let mut copies = Vec::with_capacity(alloc, groups.len())?;
    for group in groups {
        copies.push(copied_group(alloc, group)?)?;
    }
    Ok(copies)
}
