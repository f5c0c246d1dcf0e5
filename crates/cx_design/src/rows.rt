//! The external memories among cells.

ghost use Rattle.std.specs.Prelude.{◌≡◌, ◌≤◌, All, IfOk, true, map};
ghost use Rattle.cx_text.specs.Loading.{plain_row, plain_rows};
ghost use Rattle.cx_rules.specs.Wellformed.{first_number};
ghost use Rattle.cx_rules.specs.Externals.{numbers_of, row_for, rows_of, sizes_in};
ghost use Rattle.cx_design.specs.PlainForms.{plain_cell};
ghost use Rattle.cx_design.specs.Narrow.{IsNarrow};

use crate::cells::{Cell, CellKind};
use cx_text::{Memory, MemoryRow, Name};
use std::alloc::Global;

/// The rows of the external cells, in cell order.
pub fn external_rows(alloc: Global, cells: &[Cell]) -> Result<Vec<MemoryRow>, Memory>
    requires narrow { All (λ cell. IsNarrow (plain_cell cell)) cells.now }
    ensures value { IfOk result (λ rows. plain_rows rows.items ≡ rows_of (map plain_cell cells.now)) }
{
    let mut rows = Vec::new(alloc);
    for cell in cells {
        if cell.external {
            rows.push(memory_row(alloc, cell)?)?;
        }
    }
    Ok(rows)
}

/// The row of an external cell: its name, the width of its words, and its sizes.
fn memory_row(alloc: Global, cell: &Cell) -> Result<MemoryRow, Memory>
    requires narrow { first_number (numbers_of (plain_cell cell.now).kind) ≤ 64 }
    ensures value { IfOk result (λ row. plain_row row ≡ row_for (plain_cell cell.now)) }
{
    let numbers = numbers(cell);
    let name = Name::from_bytes(alloc, cell.name.bytes())?;
    let sizes = Vec::from_slice(alloc, sizes(numbers))?;
    Ok(MemoryRow {
        name,
        width: first(numbers) as u8,
        sizes,
    })
}

/// The numbers of a cell's primitive; a component's cell has none.
fn numbers(cell: &Cell) -> &[u64]
    ensures value { result.now ≡ numbers_of (plain_cell cell.now).kind }
{
    match &cell.kind {
        CellKind::Prim(primitive) => primitive.numbers(),
        CellKind::Part(_) => &[],
    }
}

/// The first number, or 0.
fn first(numbers: &[u64]) -> u64
    ensures value { result ≡ first_number numbers.now }
{
    match numbers.first() {
        Some(first) => *first,
        None => 0,
    }
}

/// The sizes of the dimensions: the first half of the numbers behind the width.
fn sizes(numbers: &[u64]) -> &[u64]
    ensures value { result.now ≡ sizes_in numbers.now }
{
    match numbers.split_first() {
        Some((_, rest)) => &rest[..rest.len() / 2],
        None => &[],
    }
}
