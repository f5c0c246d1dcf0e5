//! The cells of a flat component.

ghost use Rattle.std.specs.Prelude.{◌≡◌, ◌++◌, IfOk, length, map, option_map};
ghost use Rattle.cx_design.specs.PlainForms.{plain_cell, plain_component, plain_kind};
ghost use Rattle.cx_flattening.specs.Flattened.{block, blocks, flat_cells, inner_cell, kept, point, wire_of};
ghost use Rattle.cx_flat.specs.Tables.{kids_of, plain_table};

use crate::kids::kid;
use cx_design::{Cell, CellKind, Component, PortDecl};
use cx_design_copies::{copied_cell, copied_kind, copied_name};
use cx_names_scopes::primitive_row;
use cx_prim::PrimitiveName;
use cx_text::{Memory, Name};
use std::alloc::Global;

/// The cells that are kept, and behind them the blocks of the static children.
pub(crate) fn cells_again(
    alloc: Global,
    table: &[Option<Component>],
    cells: &[Cell],
) -> Result<Vec<Cell>, Memory>
    ensures value { IfOk result (λ all. map plain_cell all.items ≡
        flat_cells (kids_of (plain_table table.now) (map plain_cell cells.now)) (map plain_cell cells.now)) }
{
    let kept = kept_cells(alloc, table, cells)?;
    with_blocks(alloc, kept, table, cells)
}

/// The cells that are kept.
fn kept_cells(
    alloc: Global,
    table: &[Option<Component>],
    cells: &[Cell],
) -> Result<Vec<Cell>, Memory>
    ensures value { IfOk result (λ all. map plain_cell all.items ≡
        kept (kids_of (plain_table table.now) (map plain_cell cells.now)) (map plain_cell cells.now)) }
{
    let mut all = Vec::with_capacity(alloc, cells.len())?;
    for cell in cells {
        if kid(table, &cell.kind).is_none() {
            all.push(copied_cell(alloc, cell)?)?;
        }
    }
    Ok(all)
}

/// Appends the blocks of static children.
fn with_blocks(
    alloc: Global,
    front: Vec<Cell>,
    table: &[Option<Component>],
    cells: &[Cell],
) -> Result<Vec<Cell>, Memory>
    ensures value { IfOk result (λ all. map plain_cell all.items ≡
        map plain_cell front.items
        ++ blocks (kids_of (plain_table table.now) (map plain_cell cells.now)) (map plain_cell cells.now)) }
{
    let mut all = front;
    for cell in cells {
        all = with_block(alloc, all, kid(table, &cell.kind), cell)?;
    }
    Ok(all)
}

/// Appends the block of a cell.
fn with_block(
    alloc: Global,
    front: Vec<Cell>,
    kid: Option<&Component>,
    cell: &Cell,
) -> Result<Vec<Cell>, Memory>
    ensures value { IfOk result (λ all. map plain_cell all.items ≡
        map plain_cell front.items
        ++ block (option_map (λ k. plain_component k.now) kid.entry) (plain_cell cell.now)) }
{
    match kid {
        None => Ok(front),
        Some(child) => {
            let all = with_inner_cells(alloc, front, cell, &child.cells)?;
            with_wires(alloc, all, cell, &child.outputs)
        }
    }
}

/// Appends the cells of a static child at a cell.
fn with_inner_cells(
    alloc: Global,
    front: Vec<Cell>,
    cell: &Cell,
    inner: &[Cell],
) -> Result<Vec<Cell>, Memory>
    ensures value { IfOk result (λ all. map plain_cell all.items ≡
        map plain_cell front.items ++ map (inner_cell (plain_cell cell.now)) (map plain_cell inner.now)) }
{
    let mut all = front;
    for one in inner {
        all.push(inner_cell_again(alloc, cell, one)?)?;
    }
    Ok(all)
}

/// A cell of a static child at a cell, by both names.
fn inner_cell_again(alloc: Global, cell: &Cell, inner: &Cell) -> Result<Cell, Memory>
    ensures value { IfOk result (λ made. plain_cell made ≡ inner_cell (plain_cell cell.now) (plain_cell inner.now)) }
{
    Ok(Cell {
        name: joined(alloc, &cell.name, &inner.name)?,
        kind: copied_kind(&inner.kind),
        external: false,
        place: cell.place,
    })
}

/// Appends a wire for each output of a static child at a cell.
fn with_wires(
    alloc: Global,
    front: Vec<Cell>,
    cell: &Cell,
    outputs: &[PortDecl],
) -> Result<Vec<Cell>, Memory>
    ensures value { IfOk result (λ all. map plain_cell all.items ≡
        map plain_cell front.items ++ map (wire_of (plain_cell cell.now)) outputs.now) }
{
    let mut all = front;
    for output in outputs {
        all.push(wire(alloc, cell, output)?)?;
    }
    Ok(all)
}

/// The wire of an output of a static child at a cell.
fn wire(alloc: Global, cell: &Cell, output: &PortDecl) -> Result<Cell, Memory>
    ensures value { IfOk result (λ made. plain_cell made ≡ wire_of (plain_cell cell.now) output.now) }
{
    let name = pointed(alloc, &joined(alloc, &cell.name, &output.name)?)?;
    match primitive_row(PrimitiveName::Wire, &[u64::from(output.width)]) {
        Some(primitive) => Ok(Cell {
            name,
            kind: CellKind::Prim(primitive),
            external: false,
            place: cell.place,
        }),
        None => Err(Memory),
    }
}

/// Two names with a point between them.
fn joined(alloc: Global, first: &Name, second: &Name) -> Result<Name, Memory>
    ensures value { IfOk result (λ name. name ≡ first.now ++ point ++ second.now) }
{
    let mut text = Vec::from_slice(alloc, first.bytes())?;
    text.extend_from_slice(b".")?;
    text.extend_from_slice(second.bytes())?;
    Name::from_bytes(alloc, text.as_slice())
}

/// A name with a point behind it.
fn pointed(alloc: Global, name: &Name) -> Result<Name, Memory>
    ensures value { IfOk result (λ pointed. pointed ≡ name.now ++ point) }
{
    let mut text = Vec::from_slice(alloc, name.bytes())?;
    text.extend_from_slice(b".")?;
    Name::from_bytes(alloc, text.as_slice())
}
