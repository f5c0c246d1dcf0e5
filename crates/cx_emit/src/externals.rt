//! The memories that data files speak of.

ghost use Rattle.std.specs.Prelude.{◌≡◌, IfOk, map, slice_get};
ghost use Rattle.cx_design.specs.PlainForms.{plain_cell};
ghost use Rattle.cx_net.specs.NetsAsData.{plain_net};
ghost use Rattle.cx_rules.specs.Externals.{numbers_of};
ghost use Rattle.cx_vtree.specs.PlainParts.{plain_external, plain_externals};
ghost use Rattle.cx_emit.specs.Emitted.{CanBeEmitted, ExternalsHaveWords, HasWords};
ghost use Rattle.cx_emit.specs.Numbered.{lists_from};
ghost use Rattle.cx_emit.specs.Sources as plain;

use crate::names::instance_name;
use cx_design::{Cell, CellKind};
use cx_net::Net;
use cx_text::{Memory, Name};
use cx_vtree::External;
use std::alloc::Global;

/// The numbers of a cell's primitive; a component's cell has none.
fn numbers(cell: &Cell) -> &[u64]
    ensures value { result.now ≡ numbers_of (plain_cell cell.now).kind }
{
    match &cell.kind {
        CellKind::Prim(primitive) => primitive.numbers(),
        CellKind::Part(_) => &[],
    }
}

/// An external cell: the width of its words is the first number, and the sizes are the first half of those behind it.
fn external(alloc: Global, number: usize, cell: &Cell) -> Result<External, Memory>
    requires words { HasWords (plain_cell cell.now) }
    ensures value { IfOk result (λ external. plain_external external ≡ plain.external_of number (plain_cell cell.now)) }
{
    let Some((width, rest)) = numbers(cell).split_first() else {
        unreachable!()
    };
    let Ok(width) = u8::try_from(*width) else {
        unreachable!()
    };
    Ok(External {
        name: Name::from_bytes(alloc, cell.name.bytes())?,
        instance: instance_name(alloc, number)?,
        width,
        sizes: Vec::from_slice(alloc, &rest[..rest.len() / 2])?,
    })
}

/// The external cells among cells, in cell order.
fn external_cells(alloc: Global, cells: &[Cell]) -> Result<Vec<External>, Memory>
    requires words { ExternalsHaveWords (map plain_cell cells.now) }
    ensures value { IfOk result (λ externals.
        plain_externals externals.items ≡ lists_from plain.cell_externals 0 (map plain_cell cells.now)) }
{
    let mut externals = Vec::new(alloc);
    for (number, cell) in cells.iter().enumerate() {
        if cell.external {
            externals.push(external(alloc, number, cell)?)?;
        }
    }
    Ok(externals)
}

/// The external cells of `main`.
pub fn externals(alloc: Global, net: &Net) -> Result<Vec<External>, Memory>
    requires net { CanBeEmitted (plain_net net.now) }
    ensures value { IfOk result
        (λ externals. plain_externals externals.items ≡ (plain.source_of (plain_net net.now)).externals) }
{
    match net.components().get(net.main() as usize) {
        Some(main) => external_cells(alloc, &main.cells),
        None => Ok(Vec::new(alloc)),
    }
}
