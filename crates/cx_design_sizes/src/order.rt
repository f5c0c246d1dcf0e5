//! The components in an order in which those of a component's cells come before it.

ghost use Rattle.std.specs.Prelude.{◌≡◌, IfOk, IfSome, IfNone, length, map};
ghost use Rattle.cx_design.specs.PlainForms.{plain_cell};
ghost use Rattle.cx_design.specs.PlainDesigns.{plain_design};
ghost use Rattle.cx_design_sizes.specs.Orders.{IsChildrenFirst, ArePlaced, IsNext, unplaced as unplaced_of};

use cx_design::{Cell, CellKind, Design};
use cx_text::Memory;
use std::alloc::Global;

/// A component on the way, and its first cell that is not gone through.
#[derive(Clone, Copy, Debug, PartialEq, Eq)]
struct Step {
    component: u32,
    next: usize,
}

/// The component of a cell, where it is not placed.
fn unplaced(placed: &[bool], cell: &Cell) -> Option<u32>
    ensures { result ≡ unplaced_of placed.now (plain_cell cell.now).kind }
{
    let CellKind::Part(component) = &cell.kind else {
        return None;
    };
    match placed.get(*component as usize) {
        Some(false) => Some(*component),
        _ => None,
    }
}

/// The first cell from a number on whose component is not placed, and this component.
fn next_unplaced(placed: &[bool], cells: &[Cell], from: usize) -> Option<(usize, u32)>
    ensures none { IfNone result (ArePlaced placed.now (map plain_cell cells.now) from (length cells.now)) }
    ensures some { IfSome result (λ next. IsNext placed.now (map plain_cell cells.now) from next.0 next.1) }
{
    for number in from..cells.len() {
        if let Some(component) = unplaced(placed, &cells[number]) {
            return Some((number, component));
        }
    }
    None
}

/// The components that main is made of, each behind those of its cells. The path leads from main to the component whose
/// cells are gone through, so its components are all different.
pub fn children_first(alloc: Global, design: &Design) -> Result<Vec<u32>, Memory>
    ensures { IfOk result (λ order. IsChildrenFirst (plain_design design.now) order.items) }
{
    let components = design.components.as_slice();
    let mut placed = vec![in alloc; false; components.len()]?;
    let mut order = Vec::new(alloc);
    let mut path = Vec::new(alloc);
    path.push(Step {
        component: design.main,
        next: 0,
    })?;
    while let Some(step) = path.pop() {
        let cells = components[step.component as usize].cells.as_slice();
        match next_unplaced(&placed, cells, step.next) {
            Some((next, component)) => {
                path.push(Step {
                    component: step.component,
                    next,
                })?;
                path.push(Step { component, next: 0 })?;
            }
            None => {
                placed[step.component as usize] = true;
                order.push(step.component)?;
            }
        }
    }
    Ok(order)
}
