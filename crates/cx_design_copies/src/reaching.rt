//! Which components main is made of.

ghost use Rattle.std.specs.Prelude.{◌≡◌, IfOk, map};
ghost use Rattle.cx_design.specs.PlainForms.{plain_cell, plain_component};
ghost use Rattle.cx_design.specs.PlainDesigns.{plain_design};
ghost use Rattle.cx_graphs.specs.Graphs.{edges_of};
ghost use Rattle.cx_design_copies.specs.Reaching.{AreMadeOf, components_of as components_in, edges_between};

use cx_design::{Cell, CellKind, Component, Design};
use cx_text::Memory;
use std::alloc::Global;

/// Of each component whether main has an instance of it, or is it.
pub fn made_of(alloc: Global, design: &Design) -> Result<Vec<bool>, Memory>
    ensures value { IfOk result (λ marks. AreMadeOf (plain_design design.now) marks.items) }
{
    let graph = component_graph(alloc, &design.components)?;
    let starts = [design.main];
    cx_graphs::reached(alloc, graph.as_slice(), &starts)
}

/// Of each component those of its cells.
fn component_graph(alloc: Global, parts: &[Component]) -> Result<Vec<Vec<u32>>, Memory>
    ensures value { IfOk result (λ graph. edges_of graph.items ≡ edges_between (map plain_component parts.now)) }
{
    let mut graph = Vec::with_capacity(alloc, parts.len())?;
    for part in parts {
        graph.push(components_of(alloc, &part.cells)?)?;
    }
    Ok(graph)
}

/// The components of cells.
fn components_of(alloc: Global, cells: &[Cell]) -> Result<Vec<u32>, Memory>
    ensures value { IfOk result (λ components. components.items ≡ components_in (map plain_cell cells.now)) }
{
    let mut components = Vec::new(alloc);
    for cell in cells {
        if let CellKind::Part(component) = &cell.kind {
            components.push(*component)?;
        }
    }
    Ok(components)
}
