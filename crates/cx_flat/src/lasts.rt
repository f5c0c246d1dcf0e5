//! How long the flat component of a static one is kept: up to the last that has a cell of it, and where one of these is not static,
//! to the end.

ghost use Rattle.std.specs.Prelude.{◌≡◌, ◌≤◌, ◌<◌, ℕ, None, Some, false, IfOk, get_or, is_some, length, slice_get};
ghost use Rattle.cx_meaning.specs.Designs.{OfComponent};
ghost use Rattle.cx_design.specs.declared.cells.Cell.{Cell as CellOf};
ghost use Rattle.cx_design.specs.PlainDesigns.{plain_design};
ghost use Rattle.cx_design.specs.PlainForms.{plain_kind};
ghost use Rattle.cx_design_sizes.specs.Orders.{IsChildrenFirst};
ghost use Rattle.cx_flat.specs.Lasts.{AreLasts};

use cx_design::{Cell, CellKind, Component, Design};
use cx_text::Memory;
use std::alloc::Global;

/// For each component the place in an order of the last that has a cell of it, or the end of the order where one that has is not
/// static.
pub(crate) fn last_callers(
    alloc: Global,
    design: &Design,
    order: &[u32],
) -> Result<Vec<usize>, Memory>
    requires first { IsChildrenFirst (plain_design design.now) order.now }
    ensures value { IfOk result (λ lasts.
        AreLasts (plain_design design.now) order.now (length order.now) lasts.items) }
{
    let components = design.components.as_slice();
    let mut lasts = Vec::new(alloc);
    lasts.resize(components.len(), 0usize)?;
    for place in 0..order.len() {
        let part = &components[order[place] as usize];
        let last = last_place(part.latency, place, order.len());
        lasts = raised(lasts, &part.cells, last);
    }
    Ok(lasts)
}

/// How long a component at a place needs what it has cells of: to its place where it is static, and else to the end.
fn last_place(latency: Option<u64>, place: usize, end: usize) -> usize
    requires there { place < end }
    ensures place { place ≤ result }
    ensures end { is_some latency ≡ false → end ≤ result }
{
    if latency.is_some() { place } else { end }
}

/// The places, where those of components of which there are cells are no less than one.
fn raised(lasts: Vec<usize>, cells: &[Cell], last: usize) -> Vec<usize>
    ensures sized { length result.items ≡ length lasts.items }
    ensures more { (j : ℕ) → get_or lasts.items j 0 ≤ get_or result.items j 0 }
    ensures least { (n j : ℕ) (cell : CellOf) → slice_get cells.now n ≡ Some cell
        → plain_kind cell.kind ≡ OfComponent j → j < length lasts.items → last ≤ get_or result.items j 0 }
{
    let mut all = lasts;
    for cell in cells {
        all = raised_of(all, &cell.kind, last);
    }
    all
}

/// The same for one cell, by its kind.
fn raised_of(lasts: Vec<usize>, kind: &CellKind, last: usize) -> Vec<usize>
    ensures sized { length result.items ≡ length lasts.items }
    ensures more { (j : ℕ) → get_or lasts.items j 0 ≤ get_or result.items j 0 }
    ensures least { (j : ℕ) → plain_kind kind.now ≡ OfComponent j → j < length lasts.items
        → last ≤ get_or result.items j 0 }
{
    let mut all = lasts;
    if let CellKind::Part(part) = kind {
        let number = *part as usize;
        if number < all.len() {
            all[number] = all[number].max(last);
        }
    }
    all
}

/// The flat components without those of cells that are needed no longer than to a place.
pub(crate) fn without_done(
    table: Vec<Option<Component>>,
    lasts: &[usize],
    cells: &[Cell],
    place: usize,
) -> Vec<Option<Component>>
    ensures sized { length result.items ≡ length table.items }
    ensures kept { (j : ℕ) → place < get_or lasts.now j 0
        → get_or result.items j None ≡ get_or table.items j None }
{
    let mut kids = table;
    for cell in cells {
        kids = without_kind(kids, lasts, &cell.kind, place);
    }
    kids
}

/// The same for one cell, by its kind.
fn without_kind(
    table: Vec<Option<Component>>,
    lasts: &[usize],
    kind: &CellKind,
    place: usize,
) -> Vec<Option<Component>>
    ensures sized { length result.items ≡ length table.items }
    ensures kept { (j : ℕ) → place < get_or lasts.now j 0
        → get_or result.items j None ≡ get_or table.items j None }
{
    let mut kids = table;
    if let CellKind::Part(part) = kind {
        let number = *part as usize;
        if number < kids.len() && number < lasts.len() && lasts[number] <= place {
            kids[number] = None;
        }
    }
    kids
}
