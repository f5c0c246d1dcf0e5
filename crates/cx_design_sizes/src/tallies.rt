//! Counts over the tree of instances.

ghost use Rattle.std.specs.Prelude.{◌≡◌, ◌<◌, IfOk, map, length};
ghost use Rattle.cx_meaning.specs.Instances.{tree_of};
ghost use Rattle.cx_design.specs.PlainForms.{plain_cell, plain_component};
ghost use Rattle.cx_design.specs.PlainDesigns.{plain_design};
ghost use Rattle.cx_design_sizes.specs.Orders.{IsChildrenFirst};
ghost use Rattle.cx_design_sizes.specs.Tallies as counts;

use crate::order::children_first;
use crate::sizes::component_size;
use crate::words::memory_words;
use cx_design::{Cell, CellKind, Component, Design};
use cx_text::Memory;
use std::alloc::Global;

/// Counts over the tree of a component. They stop at 2^64 - 1.
#[derive(Clone, Copy, Debug, PartialEq, Eq)]
pub struct LimitTally {
    pub instances: u64,
    pub depth: u64,
    pub words: u64,
    pub weight: u64,
}

/// Nothing.
const NO_TALLY: LimitTally = LimitTally {
    instances: 0,
    depth: 0,
    words: 0,
    weight: 0,
};

/// The counts of cells beside those of others.
fn beside(one: LimitTally, other: LimitTally) -> LimitTally
    ensures { result ≡ counts.beside one other }
{
    LimitTally {
        instances: one.instances.saturating_add(other.instances),
        depth: one.depth.max(other.depth),
        words: one.words.saturating_add(other.words),
        weight: one.weight.saturating_add(other.weight),
    }
}

/// The counts of a cell, by those of the components.
fn cell_tally(tallies: &[LimitTally], cell: &Cell) -> LimitTally
    ensures { result ≡ counts.kind_tally tallies.now (plain_cell cell.now).kind }
{
    match &cell.kind {
        CellKind::Prim(primitive) => LimitTally {
            instances: 0,
            depth: 0,
            words: memory_words(primitive),
            weight: 0,
        },
        CellKind::Part(component) => match tallies.get(*component as usize) {
            Some(tally) => *tally,
            None => NO_TALLY,
        },
    }
}

/// The counts of cells, by those of the components.
fn cells_tally(tallies: &[LimitTally], cells: &[Cell]) -> LimitTally
    ensures { result ≡ counts.cells_tally tallies.now (map plain_cell cells.now) }
{
    let mut tally = NO_TALLY;
    for cell in cells {
        tally = beside(tally, cell_tally(tallies, cell));
    }
    tally
}

/// The counts of a component, by those of the components of its cells.
fn component_tally(tallies: &[LimitTally], part: &Component) -> LimitTally
    ensures { result ≡ counts.above (plain_component part.now)
        (counts.cells_tally tallies.now (map plain_cell part.now.cells.items)) }
{
    let below = cells_tally(tallies, &part.cells);
    LimitTally {
        instances: below.instances.saturating_add(1),
        depth: below.depth.saturating_add(1),
        words: below.words,
        weight: component_size(part)
            .saturating_add(1)
            .saturating_add(below.weight),
    }
}

/// The counts over the tree of each component of an order in which those of a component's cells come before it.
pub fn component_tallies(
    alloc: Global,
    design: &Design,
    order: &[u32],
) -> Result<Vec<LimitTally>, Memory>
    requires first { IsChildrenFirst (plain_design design.now) order.now }
    ensures sized { IfOk result (λ tallies. length tallies.items ≡ length design.now.components.items) }
    ensures value { IfOk result
        (λ tallies. counts.AreTallied (plain_design design.now) (length order.now) tallies.items order.now) }
{
    let components = design.components.as_slice();
    let mut tallies = vec![in alloc; NO_TALLY; components.len()]?;
    for component in order {
        let number = *component as usize;
        tallies[number] = component_tally(&tallies, &components[number]);
    }
    Ok(tallies)
}

/// The counts over the tree of main.
pub fn tree_tally(alloc: Global, design: &Design) -> Result<LimitTally, Memory>
    ensures { IfOk result (λ tally. tally ≡ counts.tally_of (tree_of (plain_design design.now))) }
{
    let order = children_first(alloc, design)?;
    let tallies = component_tallies(alloc, design, &order)?;
    Ok(tallies[design.main as usize])
}
