//! Nodes from which every way ends.

ghost use Rattle.std.specs.Prelude.{◌≡◌, ◌<◌, ◌≤◌, ◌++◌, ℕ, List, [], ◌∷◌, false, true, Some, IfNone, IfOk, IfSome, OnOk, length, slice_get, slice_index, slice_set, take};
ghost use Rattle.cx_text.specs.Members.{In};
ghost use Rattle.cx_graphs.specs.Graphs.{Bounded, Edges, IsGraph, edges_of};
ghost use Rattle.cx_graphs.specs.Grounds.{is_grounded};
ghost use Rattle.cx_graphs.specs.GroundSearch.{AllMarked, HasCounts, IsSearch, work};

use crate::edges::{add_link, no_edges, take_edges};
use cx_text::Memory;
use std::alloc::Global;

/// A search on its way.
#[derive(Drop)]
struct Search {
    /// Which nodes are found grounded.
    marks: Vec<bool>,
    /// For each node how many of its first edges lead to marked nodes.
    known: Vec<usize>,
    /// For each node those that wait until it is marked.
    waiting: Vec<Vec<usize>>,
    /// Marked nodes for which nodes may still wait.
    fresh: Vec<usize>,
}

/// For each node whether every way from it ends. The graph has for each node the nodes to which its edges lead.
pub fn grounded(alloc: Global, graph: &[Vec<usize>]) -> Result<Vec<bool>, Memory>
    requires graph { IsGraph (edges_of graph.now) }
    ensures len { IfOk result (λ marks. length marks.items ≡ length graph.now) }
    ensures value { IfOk result (λ marks.
        (n : ℕ) → n < length graph.now → slice_get marks.items n ≡ Some (is_grounded (edges_of graph.now) n)) }
{
    let all = numbers(alloc, graph.len())?;
    let mut search = begin(alloc, graph.len())?;
    settle_all(&mut search, graph, all.as_slice())?;
    while let Some(node) = last(&mut search.fresh) {
        let woken = take_edges(alloc, &mut search.waiting, node);
        settle_all(&mut search, graph, woken.as_slice())?;
    }
    Ok(found(search))
}

/// The marks of a search.
fn found(search: Search) -> Vec<bool>
    ensures value { result.items ≡ search.marks.items }
{
    search.marks
}

/// The numbers below a bound.
fn numbers(alloc: Global, bound: usize) -> Result<Vec<usize>, Memory>
    ensures all { IfOk result (λ list. (n : ℕ) → n < bound → In list.items n) }
    ensures few { IfOk result (λ list. Bounded bound list.items) }
{
    let mut list = Vec::new(alloc);
    for number in 0..bound {
        list.push(number)?;
    }
    Ok(list)
}

/// Nothing is marked, and nothing waits.
fn begin(alloc: Global, nodes: usize) -> Result<Search, Memory>
    ensures way { IfOk result (λ search. (g : Edges) (all : List ℕ) → length g ≡ nodes → Bounded nodes all
        → ((n : ℕ) → n < nodes → In all n) → IsSearch g search all) }
{
    Ok(Search {
        marks: vec![in alloc; false; nodes]?,
        known: vec![in alloc; 0usize; nodes]?,
        waiting: no_edges(alloc, nodes)?,
        fresh: Vec::new(alloc),
    })
}

/// Takes the last of a list.
fn last(list: &mut Vec<usize>) -> Option<usize>
    ensures none { IfNone result (list.old.items ≡ []) }
    ensures some { IfSome result (λ node. list.old.items ≡ list.new.items ++ node ∷ []) }
{
    list.pop()
}

/// Settles some nodes.
fn settle_all(search: &mut Search, graph: &[Vec<usize>], nodes: &[usize]) -> Result<(), Memory>
    requires graph { IsGraph (edges_of graph.now) }
    requires way { IsSearch (edges_of graph.now) search.old nodes.now }
    ensures way { OnOk result (IsSearch (edges_of graph.now) search.new []) }
    ensures less { OnOk result (work search.new ≤ work search.old) }
{
    for node in nodes {
        settle(search, graph, *node)?;
    }
    Ok(())
}

/// Marks a node if all its edges lead to marked nodes; else it waits for one of them.
fn settle(search: &mut Search, graph: &[Vec<usize>], node: usize) -> Result<(), Memory>
    requires graph { IsGraph (edges_of graph.now) }
    requires within { node < length graph.now }
    requires counts { HasCounts (edges_of graph.now) search.old }
    ensures way { OnOk result ((todo : List ℕ) → IsSearch (edges_of graph.now) search.old (node ∷ todo) →
        IsSearch (edges_of graph.now) search.new todo) }
    ensures less { OnOk result (work search.new ≤ work search.old) }
{
    if is_marked(search.marks.as_slice(), node) {
        return Ok(());
    }
    let edges = graph[node].as_slice();
    let next = first_unmarked(search.marks.as_slice(), edges, search.known[node]);
    search.known[node] = next;
    if next < edges.len() {
        add_link(&mut search.waiting, edges[next], node)?;
        return Ok(());
    }
    mark(search, node)?;
    Ok(())
}

/// Marks a node.
fn mark(search: &mut Search, node: usize) -> Result<(), Memory>
    requires within { node < length search.old.marks.items }
    ensures marks { OnOk result (search.new.marks.items ≡ slice_set search.old.marks.items node true) }
    ensures known { OnOk result (search.new.known.items ≡ search.old.known.items) }
    ensures waiting { OnOk result (edges_of search.new.waiting.items ≡ edges_of search.old.waiting.items) }
    ensures fresh { OnOk result (search.new.fresh.items ≡ search.old.fresh.items ++ node ∷ []) }
{
    search.marks[node] = true;
    search.fresh.push(node)?;
    Ok(())
}

/// Whether a node is marked.
fn is_marked(marks: &[bool], node: usize) -> bool
    requires within { node < length marks.now }
    ensures value { slice_get marks.now node ≡ Some result }
{
    marks[node]
}

/// The first edge, from one on, that leads to a node that is not marked; or the number of edges.
fn first_unmarked(marks: &[bool], edges: &[usize], from: usize) -> usize
    requires within { Bounded (length marks.now) edges.now }
    ensures met { AllMarked marks.now (take from edges.now) → AllMarked marks.now (take result edges.now) }
    ensures stops { result < length edges.now → slice_get marks.now (slice_index edges.now result) ≡ Some false }
{
    for edge in from..edges.len() {
        if !is_marked(marks, edges[edge]) {
            return edge;
        }
    }
    edges.len()
}
