//! Which components of a design its `main` reaches, and in which order.

ghost use Rattle.std.specs.Prelude.{◌≡◌, ◌≤◌, ◌<◌, ◌++◌, ◌||◌, ℕ, false, nat_eq, IfOk, OnOk, filter, get_or, length, map};
ghost use Rattle.cx_design.specs.PlainForms.{plain_cell};
ghost use Rattle.cx_static.specs.Islands.{PlainLowereds};
ghost use Rattle.cx_static.specs.PlainLowered.{plain_lowereds};
ghost use Rattle.cx_wiring.specs.Reached as wired;
ghost use Rattle.cx_fsm.specs.Rounds as rounds;
ghost use Rattle.cx_fsm.specs.Rounds.{HasHeights, IsSpread, MarksReached};

use crate::numbers::{beyond, number_of};
use cx_design::{Cell, CellKind};
use cx_static::Lowered;
use cx_text::Memory;
use std::alloc::Global;

/// The components that `main` reaches, by their numbers in the design: by height, and at one height by number. The height of a
/// component without cells of components is 0, and that of another one is above those of its cells, so `main` is last.
pub(crate) fn ordered(alloc: Global, design: &Lowered) -> Result<Vec<u32>, Memory>
    ensures value { IfOk result (λ list. list.items ≡ wired.order (plain_lowereds design.now)) }
{
    let reached = reached(alloc, design)?;
    let (heights, levels) = heights(alloc, design)?;
    let mut list = Vec::with_capacity(alloc, reached.len())?;
    for height in 0..beyond(levels, 1)? {
        add_height(&mut list, &reached, &heights, height)?;
    }
    Ok(list)
}

/// Adds the numbers at one height.
fn add_height(
    list: &mut Vec<u32>,
    reached: &[u32],
    heights: &[u32],
    height: u32,
) -> Result<(), Memory>
    ensures value { OnOk result (list.new.items ≡
        list.old.items ++ filter (λ k. nat_eq (get_or heights.now k 0) height) reached.now) }
{
    for component in reached {
        if height_in(heights, *component) == height {
            list.push(*component)?;
        }
    }
    Ok(())
}

/// The height of a component; 0 for one that is not there.
fn height_in(heights: &[u32], component: u32) -> u32
    ensures value { result ≡ get_or heights.now component 0 }
{
    match heights.get(component as usize) {
        Some(height) => *height,
        None => 0,
    }
}

/// The numbers of the components that `main` reaches.
fn reached(alloc: Global, design: &Lowered) -> Result<Vec<u32>, Memory>
    ensures value { IfOk result (λ list. list.items ≡ wired.reached (plain_lowereds design.now)) }
{
    let marks = marks(alloc, design)?;
    let mut list = Vec::new(alloc);
    for (component, is_marked) in marks.as_slice().iter().enumerate() {
        if *is_marked {
            list.push(number_of(component)?)?;
        }
    }
    Ok(list)
}

/// For each component whether `main` reaches it. In each round one level more is marked.
fn marks(alloc: Global, design: &Lowered) -> Result<Vec<bool>, Memory>
    ensures value { IfOk result (λ marks.
        MarksReached (plain_lowereds design.now) (wired.count (plain_lowereds design.now)) marks.items) }
{
    let count = design.components().len();
    let mut marks = vec![in alloc; false; count]?;
    mark(&mut marks, design.main());
    for _ in 0..count {
        let further = spread(alloc, design, &marks)?;
        if further == marks {
            return Ok(marks);
        }
        marks = further;
    }
    Ok(marks)
}

/// The marks, and those of the components of the cells of marked ones.
fn spread(alloc: Global, design: &Lowered, marks: &[bool]) -> Result<Vec<bool>, Memory>
    ensures value { IfOk result (λ further. IsSpread (plain_lowereds design.now) marks.now further.items) }
{
    let mut further = Vec::from_slice(alloc, marks)?;
    for (component, is_marked) in marks.iter().enumerate() {
        if *is_marked {
            mark_below(design, component, &mut further);
        }
    }
    Ok(further)
}

/// Marks the components of the cells of a component.
fn mark_below(design: &Lowered, component: usize, marks: &mut Vec<bool>)
    ensures count { length marks.new.items ≡ length marks.old.items }
    ensures value { (k : ℕ) → k < length marks.old.items →
        get_or marks.new.items k false ≡ (get_or marks.old.items k false ||
        wired.has_number k (wired.below (plain_lowereds design.now) component)) }
{
    if let Some(found) = design.components().get(component) {
        mark_cells(&found.part.cells, marks);
    }
}

/// Marks the components of cells.
fn mark_cells(cells: &[Cell], marks: &mut Vec<bool>)
    ensures count { length marks.new.items ≡ length marks.old.items }
    ensures value { (k : ℕ) → k < length marks.old.items →
        get_or marks.new.items k false ≡ (get_or marks.old.items k false ||
        wired.has_number k (wired.components_of (map plain_cell cells.now))) }
{
    for cell in cells {
        if let CellKind::Part(part) = &cell.kind {
            mark(marks, *part);
        }
    }
}

/// Marks a component, where it is there.
fn mark(marks: &mut Vec<bool>, component: u32)
    ensures count { length marks.new.items ≡ length marks.old.items }
    ensures value { (k : ℕ) → k < length marks.old.items →
        get_or marks.new.items k false ≡ (get_or marks.old.items k false || nat_eq k component) }
{
    let place = component as usize;
    if place < marks.len() {
        marks[place] = true;
    }
}

/// The heights of the components, and a number that none is above. In each round the components are raised above those of
/// their cells.
fn heights(alloc: Global, design: &Lowered) -> Result<(Vec<u32>, u32), Memory>
    ensures value { IfOk result
        (λ r. HasHeights (plain_lowereds design.now) (wired.count (plain_lowereds design.now)) r.0.items) }
    ensures few { IfOk result (λ r. r.1 ≤ wired.count (plain_lowereds design.now)) }
    ensures within { IfOk result (λ r. (k : ℕ) → wired.height (plain_lowereds design.now) k ≤ r.1) }
{
    let count = number_of(design.components().len())?;
    let mut heights = vec![in alloc; 0u32; count as usize]?;
    for levels in 0..count {
        let higher = raised(alloc, design, &heights)?;
        if higher == heights {
            return Ok((heights, levels));
        }
        heights = higher;
    }
    Ok((heights, count))
}

/// The components above those of their cells.
fn raised(alloc: Global, design: &Lowered, heights: &[u32]) -> Result<Vec<u32>, Memory>
    ensures value { IfOk result (λ higher. higher.items ≡ rounds.raised (plain_lowereds design.now) heights.now) }
{
    let mut higher = Vec::with_capacity(alloc, heights.len())?;
    for component in design.components() {
        higher.push(height_above(&component.part.cells, heights)?)?;
    }
    Ok(higher)
}

/// The height above the components of cells.
fn height_above(cells: &[Cell], heights: &[u32]) -> Result<u32, Memory>
    ensures value { IfOk result (λ height.
        (d : PlainLowereds) → height ≡ rounds.height_above d heights.now (map plain_cell cells.now)) }
{
    let mut height = 0u32;
    for cell in cells {
        if let CellKind::Part(part) = &cell.kind {
            height = height.max(beyond(height_in(heights, *part), 1)?);
        }
    }
    Ok(height)
}

/// The place of a component in an order; 0 for one that is not there.
pub(crate) fn place_in(order: &[u32], component: u32) -> Result<u32, Memory>
    ensures value { IfOk result (λ place. place ≡ wired.place_in component order.now) }
{
    for (place, number) in order.iter().enumerate() {
        if component == *number {
            return number_of(place);
        }
    }
    Ok(0)
}
