//! The cells that can step: those that have an enabling port.

ghost use Rattle.std.specs.Prelude.{◌≡◌, ◌^◌, ◌<◌, IfNone, IfOk, IfSome, None, Some, length, map};
ghost use Rattle.cx_meaning.specs.Designs.{OfPrimitive};
ghost use Rattle.cx_design.specs.PlainForms.{plain_cell, plain_kind};
ghost use Rattle.cx_eval_cycle.specs.Stepping.{AreStepping, AreSteppingCells, HaveNumbers, IsKeptOf, kept_at};

use crate::ranges::{Addresses, addresses_of};
use crate::sides::ports_on;
use cx_cells::Primitive;
use cx_design::{Cell, CellKind};
use cx_prim::Side;
use cx_text::Memory;
use std::alloc::Global;

/// A cell that can step: its primitive, and what a cycle looks at.
#[derive(Drop)]
pub struct SteppingCell<'a> {
    pub primitive: &'a Primitive,
    /// The numbers of its enabling ports, ascending.
    pub enabling: Vec<usize>,
    /// The numbers of its plain inputs, ascending.
    pub plain: Vec<usize>,
    pub addresses: Addresses<'a>,
}

/// The cells of a component that can step, as they are known before any run.
#[derive(Drop)]
pub struct SteppingCells<'a> {
    /// For each cell of the component what is known of it, where it can step.
    pub cells: Vec<Option<SteppingCell<'a>>>,
    /// The numbers of those that can, ascending.
    pub numbers: Vec<u32>,
}

impl<'a> SteppingCells<'a> {
    /// Those of the cells of a component.
    pub fn new(alloc: Global, cells: &'a [Cell]) -> Result<SteppingCells<'a>, Memory>
        requires numbered { length cells.now < 2 ^ 32 }
        ensures value { IfOk result (AreSteppingCells (map plain_cell cells.now)) }
    {
        let cells = stepping_cells(alloc, cells)?;
        let numbers = stepping_numbers(alloc, &cells)?;
        Ok(SteppingCells { cells, numbers })
    }
}

/// A primitive as a cell that can step, where it has an enabling port.
fn stepping_primitive<'a>(
    alloc: Global,
    primitive: &'a Primitive,
) -> Result<Option<SteppingCell<'a>>, Memory>
    ensures value { IfOk result (IsKeptOf (Some (OfPrimitive primitive.now))) }
{
    let enabling = ports_on(alloc, primitive, Side::Enable)?;
    if enabling.is_empty() {
        return Ok(None);
    }
    Ok(Some(SteppingCell {
        primitive,
        enabling,
        plain: ports_on(alloc, primitive, Side::Plain)?,
        addresses: addresses_of(primitive),
    }))
}

/// A cell as one that can step, where it can.
fn stepping_cell<'a>(alloc: Global, kind: &'a CellKind) -> Result<Option<SteppingCell<'a>>, Memory>
    ensures value { IfOk result (IsKeptOf (Some (plain_kind kind.now))) }
{
    match kind {
        CellKind::Prim(primitive) => stepping_primitive(alloc, primitive),
        CellKind::Part(_) => Ok(None),
    }
}

/// Each cell of a component as one that can step, where it can.
fn stepping_cells<'a>(
    alloc: Global,
    cells: &'a [Cell],
) -> Result<Vec<Option<SteppingCell<'a>>>, Memory>
    ensures value { IfOk result (λ kept. AreStepping (map plain_cell cells.now) kept.items) }
{
    let mut kept = Vec::new(alloc);
    for cell in 0..cells.len() {
        kept.push(stepping_cell(alloc, &cells[cell].kind)?)?;
    }
    Ok(kept)
}

/// The numbers of the cells that can step, ascending.
fn stepping_numbers(alloc: Global, cells: &[Option<SteppingCell<'_>>]) -> Result<Vec<u32>, Memory>
    requires numbered { length cells.now < 2 ^ 32 }
    ensures value { IfOk result (λ numbers. HaveNumbers cells.now numbers.items) }
{
    let mut numbers = Vec::new(alloc);
    for cell in 0..cells.len() {
        if let Some(_) = &cells[cell] {
            numbers.push(cell as u32)?;
        }
    }
    Ok(numbers)
}

/// What is known of a cell that can step, by its number.
pub fn stepping_at<'b, 'a>(
    cells: &'b [Option<SteppingCell<'a>>],
    cell: usize,
) -> Option<&'b SteppingCell<'a>>
    ensures none { IfNone result (kept_at cells.now cell ≡ None) }
    ensures some { IfSome result (λ kept. kept_at cells.now cell ≡ Some kept.now) }
{
    match cells.get(cell) {
        Some(Some(kept)) => Some(kept),
        Some(None) | None => None,
    }
}
