//! Copies of the parts of a tree in which no cell is named.

ghost use Rattle.std.specs.Prelude.{◌≡◌, IfOk, map};
ghost use Rattle.cx_ast.specs.PlainTree.{plain_cell, plain_port};

use cx_ast::{Attribute, CellItem, ImportItem, Mark, PortItem};
use cx_text::{Memory, Name};
use std::alloc::Global;

/// The same name again.
pub fn copied_name(alloc: Global, name: &Name) -> Result<Name, Memory>
    ensures value { IfOk result (λ copy. copy ≡ name.now) }
{
    Name::from_bytes(alloc, name.bytes())
}

/// The same name again, where there is one.
pub fn copied_option(alloc: Global, name: &Option<Name>) -> Result<Option<Name>, Memory>
    ensures value { IfOk result (λ copy. copy ≡ name.now) }
{
    match name {
        None => Ok(None),
        Some(name) => Ok(Some(copied_name(alloc, name)?)),
    }
}

/// The same imports again.
pub fn copied_imports(alloc: Global, imports: &[ImportItem]) -> Result<Vec<ImportItem>, Memory>
    ensures value { IfOk result (λ copies. copies.items ≡ imports.now) }
{
    let mut copies = Vec::with_capacity(alloc, imports.len())?;
    for import in imports {
        let path = copied_name(alloc, &import.path)?;
        let place = import.place;
        copies.push(ImportItem { path, place })?;
    }
    Ok(copies)
}

/// The same attributes again.
pub fn copied_attributes(alloc: Global, attributes: &[Attribute]) -> Result<Vec<Attribute>, Memory>
    ensures value { IfOk result (λ copies. copies.items ≡ attributes.now) }
{
    let mut copies = Vec::with_capacity(alloc, attributes.len())?;
    for attribute in attributes {
        let name = copied_name(alloc, &attribute.name)?;
        let number = attribute.number;
        copies.push(Attribute { name, number })?;
    }
    Ok(copies)
}

/// The same marks again.
pub fn copied_marks(alloc: Global, marks: &[Mark]) -> Result<Vec<Mark>, Memory>
    ensures value { IfOk result (λ copies. copies.items ≡ marks.now) }
{
    let mut copies = Vec::with_capacity(alloc, marks.len())?;
    for mark in marks {
        let name = copied_name(alloc, &mark.name)?;
        let number = mark.number;
        copies.push(Mark { name, number })?;
    }
    Ok(copies)
}

/// The same port again.
fn copied_port(alloc: Global, port: &PortItem) -> Result<PortItem, Memory>
    ensures value { IfOk result (λ copy. plain_port copy ≡ plain_port port.now) }
{
    let attributes = copied_attributes(alloc, port.attributes.as_slice())?;
    let name = copied_name(alloc, &port.name)?;
    Ok(PortItem {
        attributes,
        name,
        width: port.width,
        place: port.place,
    })
}

/// The same ports again.
pub fn copied_ports(alloc: Global, ports: &[PortItem]) -> Result<Vec<PortItem>, Memory>
    ensures value { IfOk result (λ copies. map plain_port copies.items ≡ map plain_port ports.now) }
{
    let mut copies = Vec::with_capacity(alloc, ports.len())?;
    for port in ports {
        copies.push(copied_port(alloc, port)?)?;
    }
    Ok(copies)
}

/// The same cell again.
pub fn copied_cell(alloc: Global, cell: &CellItem) -> Result<CellItem, Memory>
    ensures value { IfOk result (λ copy. plain_cell copy ≡ plain_cell cell.now) }
{
    let attributes = copied_attributes(alloc, cell.attributes.as_slice())?;
    let name = copied_name(alloc, &cell.name)?;
    let marks = copied_marks(alloc, cell.marks.as_slice())?;
    let kind = copied_name(alloc, &cell.kind)?;
    let numbers = Vec::from_slice(alloc, cell.numbers.as_slice())?;
    Ok(CellItem {
        attributes,
        name,
        marks,
        kind,
        numbers,
        place: cell.place,
    })
}

/// The same cells again.
pub fn copied_cells(alloc: Global, cells: &[CellItem]) -> Result<Vec<CellItem>, Memory>
    ensures value { IfOk result (λ copies. map plain_cell copies.items ≡ map plain_cell cells.now) }
{
    let mut copies = Vec::with_capacity(alloc, cells.len())?;
    for cell in cells {
        copies.push(copied_cell(alloc, cell)?)?;
    }
    Ok(copies)
}
