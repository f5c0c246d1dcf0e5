//! How many counts each component shows.

ghost use Rattle.std.specs.Prelude.{◌≡◌, ◌<◌, IfOk, length, map};
ghost use Rattle.cx_design.specs.PlainForms.{plain_cell, plain_component, plain_kind};
ghost use Rattle.cx_design.specs.PlainDesigns.{plain_design};
ghost use Rattle.cx_design_sizes.specs.Orders.{IsChildrenFirst};
ghost use Rattle.cx_profiling.specs.Instrumented.{gained as gained_of};
ghost use Rattle.cx_profile.specs.Gains as specs;
ghost use Rattle.cx_profile.specs.Renumbering.{AreGained};

use crate::counted::counted;
use cx_design::{Cell, CellKind, Component, Design};
use cx_design_copies::{made_of, sum};
use cx_design_sizes::children_first;
use cx_text::Memory;
use std::alloc::Global;

/// What the components of a design gain.
#[derive(Drop)]
pub(crate) struct Gains {
    /// Which components have an instance.
    pub reached: Vec<bool>,
    /// The outputs that each component gains, one for each count of it and all below it. Main gains none.
    pub outputs: Vec<u32>,
    /// The counts of main and all below it.
    pub entries: u32,
}

/// What the components of a design gain.
pub(crate) fn gains_of(alloc: Global, design: &Design) -> Result<Gains, Memory>
    ensures value { IfOk result (specs.AreGains (plain_design design.now)) }
{
    let reached = reached_components(alloc, design)?;
    let counts = shown_counts(alloc, design)?;
    let outputs = gained_outputs(alloc, design, &reached, &counts)?;
    let entries = counts[design.main as usize];
    Ok(Gains {
        reached,
        outputs,
        entries,
    })
}

/// Of each component whether main has an instance of it, or is it.
fn reached_components(alloc: Global, design: &Design) -> Result<Vec<bool>, Memory>
    ensures value { IfOk result (λ marks. specs.AreReached (plain_design design.now) marks.items) }
{
    made_of(alloc, design)
}

/// The outputs that each component gains, by which are reached and the counts of these.
fn gained_outputs(
    alloc: Global,
    design: &Design,
    reached: &[bool],
    counts: &[u32],
) -> Result<Vec<u32>, Memory>
    requires reached { specs.AreReached (plain_design design.now) reached.now }
    requires counts { specs.AreShown (plain_design design.now) counts.now }
    ensures value { IfOk result (λ outputs. AreGained (plain_design design.now) outputs.items) }
{
    let mut outputs = Vec::with_capacity(alloc, design.components.len())?;
    for number in 0..design.components.len() {
        outputs.push(gained_output(design, reached, counts, number))?;
    }
    Ok(outputs)
}

/// How many outputs a component gains: main and one without an instance gain none.
fn gained_output(design: &Design, reached: &[bool], counts: &[u32], number: usize) -> u32
    requires there { number < length design.now.components.items }
    requires reached { specs.AreReached (plain_design design.now) reached.now }
    requires counts { specs.AreShown (plain_design design.now) counts.now }
    ensures value { result ≡ gained_of (plain_design design.now) number }
{
    if number == design.main as usize {
        return 0;
    }
    if reached[number] {
        return counts[number];
    }
    0
}

/// Of each component that main is made of the counts of it and all below it.
fn shown_counts(alloc: Global, design: &Design) -> Result<Vec<u32>, Memory>
    ensures value { IfOk result (λ counts. specs.AreShown (plain_design design.now) counts.items) }
{
    let order = children_first(alloc, design)?;
    counts_by(alloc, design, &order)
}

/// The counts by an order in which the components of a component's cells come before it.
fn counts_by(alloc: Global, design: &Design, order: &[u32]) -> Result<Vec<u32>, Memory>
    requires first { IsChildrenFirst (plain_design design.now) order.now }
    ensures value { IfOk result (λ counts. specs.AreShown (plain_design design.now) counts.items) }
{
    let components = design.components.as_slice();
    let mut counts = vec![in alloc; 0u32; components.len()]?;
    for component in order {
        let number = *component as usize;
        counts[number] = shown_count(&counts, &components[number])?;
    }
    Ok(counts)
}

/// The counts of a component and all below it, by those of the components of its cells.
fn shown_count(counts: &[u32], part: &Component) -> Result<u32, Memory>
    ensures value { IfOk result (λ count. count ≡ specs.shown_count counts.now (plain_component part.now)) }
{
    let own = counted(&part.cells, &part.groups)?;
    let below = cells_count(counts, &part.cells)?;
    sum(own, below)
}

/// The counts of cells.
fn cells_count(counts: &[u32], cells: &[Cell]) -> Result<u32, Memory>
    ensures value { IfOk result (λ count. count ≡ specs.cells_count counts.now (map plain_cell cells.now)) }
{
    let mut count = 0u32;
    for cell in cells {
        count = sum(count, kind_count(counts, &cell.kind))?;
    }
    Ok(count)
}

/// The counts of a cell.
fn kind_count(counts: &[u32], kind: &CellKind) -> u32
    ensures value { result ≡ specs.kind_count counts.now (plain_kind kind.now) }
{
    match kind {
        CellKind::Prim(_) => 0,
        CellKind::Part(component) => match counts.get(*component as usize) {
            Some(count) => *count,
            None => 0,
        },
    }
}
