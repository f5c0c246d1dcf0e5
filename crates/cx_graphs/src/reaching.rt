//! What is reached from some nodes.

ghost use Rattle.std.specs.Prelude.{◌≡◌, ◌<◌, ℕ, false, IfNone, IfOk, IfSome, OnOk, [], ◌∷◌, ◌++◌, Some, length, replicate, slice_get};
ghost use Rattle.cx_graphs.specs.Graphs.{Appends, Bounded, IsGraph, IsReached, Marked, edges_of, targets_of, unmarked};

use cx_text::Memory;
use std::alloc::Global;

/// Which nodes are reached from the starts by edges, the starts themselves too. The graph has for each node the nodes to
/// which its edges lead.
pub fn reached(alloc: Global, graph: &[Vec<u32>], starts: &[u32]) -> Result<Vec<bool>, Memory>
    requires graph { IsGraph (edges_of graph.now) }
    requires starts { Bounded (length graph.now) starts.now }
    ensures len { IfOk result (λ marks. length marks.items ≡ length graph.now) }
    ensures sound { IfOk result
        (λ marks. (n : ℕ) → Marked marks.items n → IsReached (edges_of graph.now) starts.now n) }
    ensures all { IfOk result (λ marks. (n : ℕ) → IsReached (edges_of graph.now) starts.now n → Marked marks.items n) }
{
    let mut marks = no_marks(alloc, graph.len())?;
    let mut waiting = Vec::new(alloc);
    mark_all(&mut marks, &mut waiting, starts)?;
    while let Some(node) = last(&mut waiting) {
        mark_all(&mut marks, &mut waiting, graph[node as usize].as_slice())?;
    }
    Ok(marks)
}

/// Marks the nodes of a list, and puts those at the end of what waits that were not marked before.
pub(crate) fn mark_all(
    marks: &mut Vec<bool>,
    waiting: &mut Vec<u32>,
    nodes: &[u32],
) -> Result<(), Memory>
    requires within { Bounded (length marks.old.items) nodes.now }
    ensures appends { OnOk result
        (Appends marks.old.items waiting.old.items nodes.now marks.new.items waiting.new.items) }
{
    for node in nodes {
        mark(marks, waiting, *node)?;
    }
    Ok(())
}

/// Marks a node, and puts it at the end of what waits if it was not marked before.
pub(crate) fn mark(marks: &mut Vec<bool>, waiting: &mut Vec<u32>, node: u32) -> Result<(), Memory>
    requires within { node < length marks.old.items }
    ensures appends { OnOk result
        (Appends marks.old.items waiting.old.items (node ∷ []) marks.new.items waiting.new.items) }
{
    if !is_marked(marks.as_slice(), node) {
        marks[node as usize] = true;
        waiting.push(node)?;
    }
    Ok(())
}

/// Whether a node is marked.
fn is_marked(marks: &[bool], node: u32) -> bool
    requires within { node < length marks.now }
    ensures value { slice_get marks.now node ≡ Some result }
{
    marks[node as usize]
}

/// A mark for each of so many nodes, none of them set.
pub(crate) fn no_marks(alloc: Global, count: usize) -> Result<Vec<bool>, Memory>
    ensures len { IfOk result (λ marks. length marks.items ≡ count) }
    ensures value { IfOk result (λ marks. marks.items ≡ replicate count false) }
{
    Ok(vec![in alloc; false; count]?)
}

/// Takes the last node of a list.
pub(crate) fn last(waiting: &mut Vec<u32>) -> Option<u32>
    ensures none { IfNone result (waiting.old.items ≡ []) }
    ensures none_left { IfNone result (waiting.new.items ≡ []) }
    ensures some { IfSome result (λ node. waiting.old.items ≡ waiting.new.items ++ node ∷ []) }
{
    waiting.pop()
}
