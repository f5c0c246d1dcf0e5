//! Graphs that grow by edges.

ghost use Rattle.std.specs.Prelude.{◌≡◌, ◌<◌, IfOk, OnOk, length};
ghost use Rattle.cx_graphs.specs.Graphs.{edges_of, targets_of};
ghost use Rattle.cx_graphs.specs.Edges as edges;
ghost use Rattle.cx_graphs.specs.Edges.{with_edge, without_edges};

use cx_text::Memory;
use std::alloc::Global;
use std::mem::replace;

/// A graph of so many nodes without edges.
pub fn no_edges(alloc: Global, nodes: usize) -> Result<Vec<Vec<usize>>, Memory>
    ensures value { IfOk result (λ graph. edges_of graph.items ≡ edges.no_edges nodes) }
{
    let mut graph = Vec::new(alloc);
    for _ in 0..nodes {
        graph.push(Vec::new(alloc))?;
    }
    Ok(graph)
}

/// Adds an edge from a node, behind those that it has.
pub fn add_link(graph: &mut Vec<Vec<usize>>, from: usize, to: usize) -> Result<(), Memory>
    requires within { from < length graph.old.items }
    ensures count { OnOk result (length graph.new.items ≡ length graph.old.items) }
    ensures value { IfOk result (λ _. edges_of graph.new.items ≡ with_edge (edges_of graph.old.items) from to) }
{
    graph[from].push(to)?;
    Ok(())
}

/// Takes the edges of a node away.
pub fn take_edges(alloc: Global, graph: &mut Vec<Vec<usize>>, from: usize) -> Vec<usize>
    requires within { from < length graph.old.items }
    ensures taken { result.items ≡ targets_of (edges_of graph.old.items) from }
    ensures left { edges_of graph.new.items ≡ without_edges (edges_of graph.old.items) from }
{
    replace(&mut graph[from], Vec::new(alloc))
}
