//! Names, ports and cells once more.

ghost use Rattle.std.specs.Prelude.{◌≡◌, IfOk, map};
ghost use Rattle.cx_design.specs.PlainForms.{plain_cell, plain_kind};

use cx_design::{Cell, CellKind, PortDecl};
use cx_text::{Memory, Name};
use std::alloc::Global;

/// The same name again.
pub fn copied_name(alloc: Global, name: &Name) -> Result<Name, Memory>
    ensures value { IfOk result (λ copy. copy ≡ name.now) }
{
    Name::from_bytes(alloc, name.bytes())
}

/// The same ports again.
pub fn copied_ports(alloc: Global, ports: &[PortDecl]) -> Result<Vec<PortDecl>, Memory>
    ensures value { IfOk result (λ copies. copies.items ≡ ports.now) }
{
    let mut copies = Vec::with_capacity(alloc, ports.len())?;
    for port in ports {
        let name = copied_name(alloc, &port.name)?;
        let width = port.width;
        copies.push(PortDecl { name, width })?;
    }
    Ok(copies)
}

/// The same kind again.
pub fn copied_kind(kind: &CellKind) -> CellKind
    ensures value { plain_kind result ≡ plain_kind kind.now }
{
    match kind {
        CellKind::Prim(primitive) => CellKind::Prim(primitive.copied()),
        CellKind::Part(part) => CellKind::Part(*part),
    }
}

/// The same cell again.
pub fn copied_cell(alloc: Global, cell: &Cell) -> Result<Cell, Memory>
    ensures value { IfOk result (λ copy. plain_cell copy ≡ plain_cell cell.now) }
{
    Ok(Cell {
        name: copied_name(alloc, &cell.name)?,
        kind: copied_kind(&cell.kind),
        external: cell.external,
        place: cell.place,
    })
}

/// The same cells again.
pub fn copied_cells(alloc: Global, cells: &[Cell]) -> Result<Vec<Cell>, Memory>
    ensures value { IfOk result (λ copies. map plain_cell copies.items ≡ map plain_cell cells.now) }
{
    let mut copies = Vec::with_capacity(alloc, cells.len())?;
    for cell in cells {
        copies.push(copied_cell(alloc, cell)?)?;
    }
    Ok(copies)
}
