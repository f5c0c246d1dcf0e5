//! Cells once more.

ghost use Rattle.std.specs.Prelude.{◌≡◌, IfOk, map};
ghost use Rattle.cx_design.specs.PlainForms.{plain_cell};
ghost use Rattle.cx_wiring.specs.Wiring.{cell_in};

use crate::ordering::place_in;
use cx_design::{Cell, CellKind};
use cx_static::copied_name;
use cx_text::Memory;
use std::alloc::Global;

/// The same cells again, whose components have the numbers of an order.
pub(crate) fn ordered_cells(
    alloc: Global,
    order: &[u32],
    cells: &[Cell],
) -> Result<Vec<Cell>, Memory>
    ensures value { IfOk result
        (λ copies. map plain_cell copies.items ≡ map (cell_in order.now) (map plain_cell cells.now)) }
{
    let mut copies = Vec::with_capacity(alloc, cells.len())?;
    for cell in cells {
        copies.push(ordered_cell(alloc, order, cell)?)?;
    }
    Ok(copies)
}

/// The same cell again, whose component has its number in an order.
fn ordered_cell(alloc: Global, order: &[u32], cell: &Cell) -> Result<Cell, Memory>
    ensures value { IfOk result (λ copy. plain_cell copy ≡ cell_in order.now (plain_cell cell.now)) }
{
    let kind = match &cell.kind {
        CellKind::Prim(primitive) => CellKind::Prim(primitive.copied()),
        CellKind::Part(part) => CellKind::Part(place_in(order, *part)?),
    };
    Ok(Cell {
        name: copied_name(alloc, &cell.name)?,
        kind,
        external: cell.external,
        place: cell.place,
    })
}
