//! Graphs that grow by one edge after the other.

ghost use Rattle.std.specs.Prelude.{◌<◌, IfOk, OnOk, length};
ghost use Rattle.cx_graphs.specs.Graphs.{edges_of};
ghost use Rattle.cx_graphs.specs.Additions.{Adds, IsBare, IsEdge};

use cx_text::Memory;
use std::alloc::Global;

/// A graph of so many nodes, without edges.
pub fn bare(alloc: Global, count: usize) -> Result<Vec<Vec<u32>>, Memory>
    ensures value { IfOk result (λ graph. IsBare count (edges_of graph.items)) }
{
    let mut graph = Vec::new(alloc);
    'nodes: while graph.len() < count {
        graph.push(Vec::new(alloc))?;
    }
    Ok(graph)
}

/// Adds an edge.
pub fn add_edge(graph: &mut Vec<Vec<u32>>, from: u32, to: u32) -> Result<(), Memory>
    requires within { from < length graph.old.items }
    ensures value { OnOk result (Adds (edges_of graph.old.items) (IsEdge from to) (edges_of graph.new.items)) }
{
    graph[from as usize].push(to)?;
    Ok(())
}
