//! An order of all components.

ghost use Rattle.std.specs.Prelude.{◌≡◌, ◌++◌, IfOk, map};
ghost use Rattle.cx_graphs.specs.Graphs.{edges_of};
ghost use Rattle.cx_graphs.specs.Ways.{IsOrder};
ghost use Rattle.cx_design.specs.PlainDesigns.{plain_design};
ghost use Rattle.cx_design.specs.PlainForms.{plain_cell, plain_component};
ghost use Rattle.cx_meaning.specs.Designs.{component_of_kind};
ghost use Rattle.cx_limits.specs.Order.{children_of, component_edges, edges_from};

use cx_design::{Cell, CellKind, Component, Design};
use cx_graphs::order;
use cx_text::Memory;
use std::alloc::Global;

/// Adds the component of a cell, where it is of one.
fn add_child(children: &mut Vec<u32>, cell: &Cell) -> Result<(), Memory>
    ensures { IfOk result
        (λ _. children.new.items ≡ children.old.items ++ component_of_kind (plain_cell cell.now).kind) }
{
    if let CellKind::Part(component) = &cell.kind {
        children.push(*component)?;
    }
    Ok(())
}

/// The components of cells, in their order.
fn children(alloc: Global, cells: &[Cell]) -> Result<Vec<u32>, Memory>
    ensures { IfOk result (λ children. children.items ≡ children_of (map plain_cell cells.now)) }
{
    let mut children = Vec::new(alloc);
    for cell in cells {
        add_child(&mut children, cell)?;
    }
    Ok(children)
}

/// A graph with an edge from each component to those of its cells.
fn component_graph(alloc: Global, components: &[Component]) -> Result<Vec<Vec<u32>>, Memory>
    ensures { IfOk result (λ graph. edges_of graph.items ≡ edges_from (map plain_component components.now)) }
{
    let mut graph = Vec::new(alloc);
    for part in components {
        graph.push(children(alloc, part.cells.as_slice())?)?;
    }
    Ok(graph)
}

/// All components, each once and behind those of its cells.
pub fn children_first(alloc: Global, design: &Design) -> Result<Vec<u32>, Memory>
    ensures { IfOk result (λ order. IsOrder (component_edges (plain_design design.now)) order.items) }
{
    let graph = component_graph(alloc, design.components.as_slice())?;
    match order(alloc, graph.as_slice())? {
        Some(order) => Ok(order),
        None => unreachable!(),
    }
}
