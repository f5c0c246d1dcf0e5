//! What continuous assignments link.

ghost use Rattle.std.specs.Prelude.{◌≡◌, ◌<◌, [], ◌∷◌, IfOk, OnOk, length, replicate};
ghost use Rattle.cx_graphs.specs.Graphs.{edges_of};
ghost use Rattle.cx_meaning.specs.Designs.{PlainAssign, component_at};
ghost use Rattle.cx_text.specs.Members.{In};
ghost use Rattle.cx_design.specs.PlainForms.{plain_assign, plain_assigns};
ghost use Rattle.cx_design.specs.PlainDesigns.{plain_design};
ghost use Rattle.cx_race.specs.Cells.{named_in, target_in};
ghost use Rattle.cx_race.specs.Links.{AreLinks, HasLinks, Within, linked};

use crate::cells::add_named;
use cx_design::{Assign, Design, PortRef};
use cx_design_parts::component;
use cx_text::Memory;
use std::alloc::Global;

/// The cells that the continuous assignments name which drive a port of a cell, for each cell of a component.
pub fn links(alloc: Global, design: &Design, number: usize) -> Result<Vec<Vec<u32>>, Memory>
    requires within { number < length design.now.components.items }
    ensures links { IfOk result
        (λ graph. AreLinks (component_at (plain_design design.now) number) (edges_of graph.items)) }
{
    let part = component(design, number);
    let mut graph = no_edges(alloc, part.cells.len())?;
    add_links(alloc, &mut graph, part.always.as_slice())?;
    Ok(graph)
}

/// Adds the edges of assignments.
fn add_links(alloc: Global, graph: &mut Vec<Vec<u32>>, assigns: &[Assign]) -> Result<(), Memory>
    requires within { (a : PlainAssign) → In (plain_assigns assigns.now) a →
        Within (length graph.old.items) (target_in a) }
    requires none { HasLinks [] (edges_of graph.old.items) }
    ensures len { OnOk result (length graph.new.items ≡ length graph.old.items) }
    ensures links { OnOk result (HasLinks (plain_assigns assigns.now) (edges_of graph.new.items)) }
{
    for assign in assigns {
        add_link(alloc, graph, assign)?;
    }
    Ok(())
}

/// Adds the edges of an assignment.
fn add_link(alloc: Global, graph: &mut Vec<Vec<u32>>, assign: &Assign) -> Result<(), Memory>
    requires within { Within (length graph.old.items) (target_in (plain_assign assign.now)) }
    ensures len { OnOk result (length graph.new.items ≡ length graph.old.items) }
    ensures value { OnOk result (edges_of graph.new.items ≡
        linked (edges_of graph.old.items) (target_in (plain_assign assign.now))
        (named_in (plain_assign assign.now))) }
{
    match assign.target {
        PortRef::Cell(cell, _) => {
            let mut named = Vec::new(alloc);
            add_named(alloc, &mut named, assign)?;
            add_edges(graph, cell, named.as_slice())
        }
        PortRef::Input(_) | PortRef::Output(_) | PortRef::Done(_) | PortRef::Literal(_, _) => {
            Ok(())
        }
    }
}

/// Adds edges of one node.
fn add_edges(graph: &mut Vec<Vec<u32>>, node: u32, targets: &[u32]) -> Result<(), Memory>
    requires within { node < length graph.old.items }
    ensures len { OnOk result (length graph.new.items ≡ length graph.old.items) }
    ensures value { OnOk result (edges_of graph.new.items ≡ linked (edges_of graph.old.items) (node ∷ []) targets.now) }
{
    graph[node as usize].extend_from_slice(targets)?;
    Ok(())
}

/// No edge for each of so many nodes.
fn no_edges(alloc: Global, count: usize) -> Result<Vec<Vec<u32>>, Memory>
    ensures value { IfOk result (λ graph. edges_of graph.items ≡ replicate count []) }
{
    let mut graph = Vec::new(alloc);
    while graph.len() < count {
        graph.push(Vec::new(alloc))?;
    }
    Ok(graph)
}
