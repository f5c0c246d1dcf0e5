//! Graphs with their edges turned round.

ghost use Rattle.std.specs.Prelude.{◌≡◌, ◌<◌, IfOk, OnOk, length};
ghost use Rattle.cx_graphs.specs.Graphs.{Bounded, IsGraph, edges_of, targets_of};
ghost use Rattle.cx_graphs.specs.Additions.{Adds, IntoNode, IsBackOfFirst};
ghost use Rattle.cx_graphs.specs.Ways.{IsTurned};

use crate::adding::{add_edge, bare};
use crate::walking::narrow;
use cx_text::Memory;
use std::alloc::Global;

/// The graph with its edges turned round.
pub fn turned(alloc: Global, graph: &[Vec<u32>]) -> Result<Vec<Vec<u32>>, Memory>
    requires graph { IsGraph (edges_of graph.now) }
    ensures value { IfOk result (λ turned. IsTurned (edges_of graph.now) (edges_of turned.items)) }
{
    let mut turned = bare(alloc, graph.len())?;
    for node in 0..graph.len() {
        let to = narrow(node)?;
        add_edges(&mut turned, graph[node].as_slice(), to)?;
    }
    Ok(turned)
}

/// Adds edges from some nodes to one.
fn add_edges(graph: &mut Vec<Vec<u32>>, nodes: &[u32], to: u32) -> Result<(), Memory>
    requires within { Bounded (length graph.old.items) nodes.now }
    ensures value { OnOk result (Adds (edges_of graph.old.items) (IntoNode nodes.now to) (edges_of graph.new.items)) }
{
    for node in nodes {
        add_edge(graph, *node, to)?;
    }
    Ok(())
}
