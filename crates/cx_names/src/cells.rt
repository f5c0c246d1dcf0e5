//! Cells by number.

ghost use Rattle.std.specs.Prelude.{◌≡◌, ◌≢◌, IfOk, map};
ghost use Rattle.cx_meaning.specs.Designs.{OfPrimitive};
ghost use Rattle.cx_ast.specs.PlainTree as written;
ghost use Rattle.cx_design.specs.PlainForms.{plain_cell, plain_kind};
ghost use Rattle.cx_numbering.specs.Names.{cell_of};
ghost use Rattle.cx_numbering.specs.DesignOf as design;
ghost use Rattle.cx_names.specs.Sites.{IsSite, tree_at, part_at};

use crate::numbers::number_or_zero;
use crate::sites::Site;
use cx_ast::CellItem;
use cx_design::{Cell, CellKind};
use cx_names_parts::is_external;
use cx_names_scopes::{CellKind as Found, primitive_row};
use cx_prim::PrimitiveName;
use cx_text::{Memory, Name};
use std::alloc::Global;

// The primitive of a name with numbers.
fn primitive(name: PrimitiveName, numbers: &[u64]) -> Result<CellKind, Memory>
    requires { name ≢ PrimitiveName.Timer }
    ensures { IfOk result (λ k. plain_kind k ≡ OfPrimitive (record { name = name; numbers = numbers.now })) }
{
    match primitive_row(name, numbers) {
        None => Err(Memory),
        Some(primitive) => Ok(CellKind::Prim(primitive)),
    }
}

// What a cell is of.
fn kind<'a>(site: &Site<'a>, item: &'a CellItem) -> Result<CellKind, Memory>
    requires { IsSite site.now }
    ensures { IfOk result (λ k. plain_kind k ≡
        design.kind_or (tree_at site.now) (part_at site.now)
        (cell_of (tree_at site.now) (written.plain_cell item.now))) }
{
    match site.scope.kind(item) {
        Found::Unknown => Ok(CellKind::Part(0)),
        Found::Primitive { name, numbers } => primitive(name, numbers),
        Found::Component { part, .. } => {
            let number = number_or_zero(site.scope.index.components.find(&part.name))?;
            Ok(CellKind::Part(number))
        }
    }
}

// A cell.
fn cell<'a>(alloc: Global, site: &Site<'a>, item: &'a CellItem) -> Result<Cell, Memory>
    requires { IsSite site.now }
    ensures { IfOk result (λ c. plain_cell c ≡
        design.plain_cell_of (tree_at site.now) (part_at site.now) (written.plain_cell item.now)) }
{
    let name = Name::from_bytes(alloc, item.name.bytes())?;
    let kind = kind(site, item)?;
    Ok(Cell {
        name,
        kind,
        external: is_external(item),
        place: item.place,
    })
}

/// The cells of a component, in order.
pub(crate) fn cells(alloc: Global, site: &Site) -> Result<Vec<Cell>, Memory>
    requires { IsSite site.now }
    ensures { IfOk result (λ all. map plain_cell all.items ≡
        map (design.plain_cell_of (tree_at site.now) (part_at site.now)) (part_at site.now).cells) }
{
    let mut all = Vec::with_capacity(alloc, site.scope.part.cells.len())?;
    for item in &site.scope.part.cells {
        all.push(cell(alloc, site, item)?)?;
    }
    Ok(all)
}
