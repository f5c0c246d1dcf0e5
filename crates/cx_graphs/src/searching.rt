//! Searches along the edges of two graphs over the same nodes.

ghost use Rattle.std.specs.Prelude.{◌≡◌, ◌↔◌, ◌<◌, IfOk, IsTrue, OnOk, length};
ghost use Rattle.cx_graphs.specs.Graphs.{Appends, IsGraph, edges_of, targets_of};
ghost use Rattle.cx_graphs.specs.Ways.{LeadsWithin, both};
ghost use Rattle.cx_graphs.specs.Reach.{AreReached, IsKept, IsUnmarked, Reaches, SomeMarked};

use crate::reaching::{last, mark, mark_all, no_marks};
use cx_text::Memory;
use std::alloc::Global;

/// What a search keeps. One serves for many searches over graphs of as many nodes, and each costs no more than what it reaches.
#[derive(Debug, Drop)]
pub struct Reach {
    marks: Vec<bool>,
    /// The nodes that are marked, in the order in which they are gone through.
    touched: Vec<u32>,
}

impl Reach {
    /// For graphs of so many nodes.
    pub fn new(alloc: Global, count: usize) -> Result<Reach, Memory>
        ensures unmarked { IfOk result (IsUnmarked count) }
    {
        Ok(Reach {
            marks: no_marks(alloc, count)?,
            touched: Vec::new(alloc),
        })
    }

    /// Whether a way along the edges of a graph and of another one leads from a node to one of the nodes from the first to the
    /// last, or the node is one of these itself.
    pub fn leads_between(
        &mut self,
        graph: &[Vec<u32>],
        more: &[Vec<u32>],
        start: u32,
        first: u32,
        last: u32,
    ) -> Result<bool, Memory>
        requires unmarked { IsUnmarked (length graph.now) self.old }
        requires graph { IsGraph (edges_of graph.now) }
        requires more { LeadsWithin (length graph.now) (edges_of more.now) }
        requires same { length more.now ≡ length graph.now }
        requires start { start < length graph.now }
        ensures unmarked { OnOk result (IsUnmarked (length graph.now) self.new) }
        ensures value { IfOk result
            (λ found. IsTrue found ↔ Reaches (edges_of graph.now) (edges_of more.now) start first last) }
    {
        self.mark_reached(graph, more, start)?;
        let found = is_marked_between(self.marks.as_slice(), first as usize, last as usize);
        self.clear();
        Ok(found)
    }

    /// Marks what is reached from a node, itself too.
    fn mark_reached(
        &mut self,
        graph: &[Vec<u32>],
        more: &[Vec<u32>],
        start: u32,
    ) -> Result<(), Memory>
        requires unmarked { IsUnmarked (length graph.now) self.old }
        requires graph { IsGraph (edges_of graph.now) }
        requires more { LeadsWithin (length graph.now) (edges_of more.now) }
        requires same { length more.now ≡ length graph.now }
        requires start { start < length graph.now }
        ensures len { OnOk result (length self.new.marks.items ≡ length graph.now) }
        ensures reached { OnOk result
            (AreReached (both (edges_of graph.now) (edges_of more.now)) start self.new.marks.items) }
        ensures kept { OnOk result (IsKept self.new.marks.items self.new.touched.items) }
    {
        mark(&mut self.marks, &mut self.touched, start)?;
        let mut next = 0;
        while next < self.touched.len() {
            let node = self.touched[next];
            self.mark_targets(graph, node)?;
            self.mark_targets(more, node)?;
            next += 1;
        }
        Ok(())
    }

    /// Marks the nodes to which the edges of a node lead.
    fn mark_targets(&mut self, graph: &[Vec<u32>], node: u32) -> Result<(), Memory>
        requires graph { LeadsWithin (length self.old.marks.items) (edges_of graph.now) }
        requires node { node < length graph.now }
        ensures appends { OnOk result (Appends self.old.marks.items self.old.touched.items
            (targets_of (edges_of graph.now) node) self.new.marks.items self.new.touched.items) }
    {
        let targets = graph[node as usize].as_slice();
        mark_all(&mut self.marks, &mut self.touched, targets)
    }

    /// Takes all marks away.
    fn clear(&mut self)
        requires kept { IsKept self.old.marks.items self.old.touched.items }
        ensures unmarked { IsUnmarked (length self.old.marks.items) self.new }
    {
        while let Some(node) = last(&mut self.touched) {
            self.marks[node as usize] = false;
        }
    }
}

/// Whether one of the marks from the first to the last is set.
fn is_marked_between(marks: &[bool], first: usize, last: usize) -> bool
    ensures value { IsTrue result ↔ SomeMarked marks.now first last }
{
    for node in first..marks.len() {
        if node > last {
            return false;
        }
        if marks[node] {
            return true;
        }
    }
    false
}
