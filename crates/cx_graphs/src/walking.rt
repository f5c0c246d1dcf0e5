//! Walks along edges, which find circles and orders.

ghost use Rattle.std.specs.Prelude.{◌≡◌, ◌↔◌, ◌+◌, ◌*◌, ◌<◌, ℕ, List, [], ◌∷◌, ◌++◌, Some, true, false, IfOk, IfSome, IfNone, IsTrue, MatchOption, OnOk, length, slice_get, slice_set};
ghost use Rattle.cx_text.specs.Members.{In};
ghost use Rattle.cx_graphs.specs.Graphs.{Bounded, IsGraph, edges_of, targets_of};
ghost use Rattle.cx_graphs.specs.Ways.{HasCircle, HasCircleFrom, IsOrder, LeadsWithin, Targets, both};
ghost use Rattle.cx_graphs.specs.Walks.{AllCome, AreLeft, Is, IsKnown, IsKnownOf, IsNext, IsReady, IsWalk, IsWalkOf, NoFresher, fresh_count};
ghost use Rattle.cx_graphs.specs.declared.walking.Mark.TheVariants as mark;

use crate::reaching::last;
use cx_text::Memory;
use std::alloc::Global;

/// What a walk did with a node.
#[derive(Clone, Copy, Debug, PartialEq, Eq)]
enum Mark {
    Fresh,
    /// It stands on the path.
    Entered,
    /// All to which it leads is walked.
    Left,
}

/// A node on the path, and which of its edges is next.
#[derive(Clone, Copy, Debug)]
struct Step {
    node: u32,
    next: usize,
}

/// What comes next at the end of the path.
#[derive(Clone, Copy, Debug)]
enum Next {
    /// No edge is left.
    Nothing,
    /// An edge to a node of the path.
    Circle,
    /// The edge of a number, to a fresh node.
    Fresh(usize, u32),
}

/// What walks keep. One serves for many walks over graphs of as many nodes, and each costs no more than what it meets.
#[derive(Debug, Drop)]
pub struct Walk {
    marks: Vec<Mark>,
    path: Vec<Step>,
    /// The nodes that were left, in the order in which they were.
    order: Vec<u32>,
    /// The nodes that are not fresh.
    entered: Vec<u32>,
}

impl Walk {
    /// For graphs of so many nodes.
    pub fn new(alloc: Global, count: usize) -> Result<Walk, Memory>
        ensures ready { IfOk result (IsReady count) }
    {
        Ok(Walk {
            marks: vec![in alloc; Mark::Fresh; count]?,
            path: Vec::new(alloc),
            order: Vec::new(alloc),
            entered: Vec::new(alloc),
        })
    }

    /// Whether a circle is met from some nodes, along the edges of a graph and of another one.
    pub fn meets_circle(
        &mut self,
        graph: &[Vec<u32>],
        more: &[Vec<u32>],
        starts: &[u32],
    ) -> Result<bool, Memory>
        requires ready { IsReady (length graph.now) self.old }
        requires graph { IsGraph (edges_of graph.now) }
        requires more { LeadsWithin (length graph.now) (edges_of more.now) }
        requires starts { Bounded (length graph.now) starts.now }
        ensures ready { OnOk result (IsReady (length graph.now) self.new) }
        ensures value { IfOk result (λ found.
            IsTrue found ↔ HasCircleFrom (both (edges_of graph.now) (edges_of more.now)) starts.now) }
    {
        let found = self.walk_all(graph, more, starts)?;
        self.forget();
        Ok(found)
    }

    /// Walks from each of some nodes, until a circle is met.
    fn walk_all(
        &mut self,
        graph: &[Vec<u32>],
        more: &[Vec<u32>],
        starts: &[u32],
    ) -> Result<bool, Memory>
        requires ready { IsReady (length graph.now) self.old }
        requires graph { IsGraph (edges_of graph.now) }
        requires more { LeadsWithin (length graph.now) (edges_of more.now) }
        requires starts { Bounded (length graph.now) starts.now }
        ensures known { OnOk result (IsKnownOf (length graph.now) self.new) }
        ensures found { IfOk result (λ found.
            found ≡ true → HasCircleFrom (both (edges_of graph.now) (edges_of more.now)) starts.now) }
        ensures walked { IfOk result (λ found. found ≡ false
            → IsWalk (both (edges_of graph.now) (edges_of more.now))
            (length graph.now) self.new.marks.items [] self.new.order.items self.new.entered.items) }
        ensures begun { IfOk result (λ found. found ≡ false → (n : ℕ) → In starts.now n → In self.new.order.items n) }
    {
        for start in starts {
            if self.walk_from(graph, more, *start)? {
                return Ok(true);
            }
        }
        Ok(false)
    }

    /// Walks from a node, until a circle is met.
    fn walk_from(
        &mut self,
        graph: &[Vec<u32>],
        more: &[Vec<u32>],
        start: u32,
    ) -> Result<bool, Memory>
        requires walk { IsWalkOf (both (edges_of graph.now) (edges_of more.now)) (length graph.now) self.old }
        requires no_path { self.old.path.items ≡ [] }
        requires graph { IsGraph (edges_of graph.now) }
        requires more { LeadsWithin (length graph.now) (edges_of more.now) }
        requires start { start < length graph.now }
        ensures known { OnOk result (IsKnownOf (length graph.now) self.new) }
        ensures found { IfOk result (λ found.
            found ≡ true → HasCircleFrom (both (edges_of graph.now) (edges_of more.now)) (start ∷ [])) }
        ensures walked { IfOk result (λ found. found ≡ false
            → IsWalkOf (both (edges_of graph.now) (edges_of more.now)) (length graph.now) self.new) }
        ensures no_path { IfOk result (λ found. found ≡ false → self.new.path.items ≡ []) }
        ensures no_fresher { OnOk result (NoFresher self.old.marks.items self.new.marks.items) }
        ensures begun { OnOk result (Is self.new.marks.items start mark.Fresh → ⊥) }
    {
        self.begin(start)?;
        while let Some(step) = last_step(&mut self.path) {
            if self.go_on(graph, more, step)? {
                return Ok(true);
            }
        }
        Ok(false)
    }

    /// Begins a path at a node, if it is fresh.
    fn begin(&mut self, start: u32) -> Result<(), Memory>
        requires within { start < length self.old.marks.items }
        ensures walk { OnOk result ((targets : Targets) (count : ℕ) → IsWalkOf targets count self.old →
            self.old.path.items ≡ [] → IsWalkOf targets count self.new) }
        ensures comes { OnOk result ((targets : Targets) → self.old.path.items ≡ [] →
            AllCome targets (start ∷ []) self.new.path.items) }
        ensures no_fresher { OnOk result (NoFresher self.old.marks.items self.new.marks.items) }
        ensures begun { OnOk result (Is self.new.marks.items start mark.Fresh → ⊥) }
    {
        if is_fresh(self.marks.as_slice(), start) {
            self.enter(start)?;
        }
        Ok(())
    }

    /// Goes on from a step, which was the last of the path. Answers whether that meets a circle.
    fn go_on(&mut self, graph: &[Vec<u32>], more: &[Vec<u32>], step: Step) -> Result<bool, Memory>
        requires walk { IsWalk (both (edges_of graph.now) (edges_of more.now))
            (length graph.now) self.old.marks.items
            (self.old.path.items ++ step ∷ []) self.old.order.items self.old.entered.items }
        requires graph { IsGraph (edges_of graph.now) }
        requires more { LeadsWithin (length graph.now) (edges_of more.now) }
        ensures known { OnOk result (IsKnownOf (length graph.now) self.new) }
        ensures found { IfOk result (λ found. found ≡ true → (starts : List ℕ)
            → AllCome (both (edges_of graph.now) (edges_of more.now)) starts
            (self.old.path.items ++ step ∷ [])
            → HasCircleFrom (both (edges_of graph.now) (edges_of more.now)) starts) }
        ensures walked { IfOk result (λ found. found ≡ false
            → IsWalkOf (both (edges_of graph.now) (edges_of more.now)) (length graph.now) self.new) }
        ensures comes { IfOk result (λ found. found ≡ false → (starts : List ℕ)
            → AllCome (both (edges_of graph.now) (edges_of more.now)) starts
            (self.old.path.items ++ step ∷ [])
            → AllCome (both (edges_of graph.now) (edges_of more.now)) starts self.new.path.items) }
        ensures no_fresher { OnOk result (NoFresher self.old.marks.items self.new.marks.items) }
        ensures less { IfOk result (λ found. found ≡ false
            → length self.new.path.items + 2 * fresh_count self.new.marks.items <
            length self.old.path.items + 1 + 2 * fresh_count self.old.marks.items) }
    {
        let first = edges(graph, step.node);
        let second = edges(more, step.node);
        match next_edge(self.marks.as_slice(), first, second, step.next) {
            Next::Circle => Ok(true),
            Next::Nothing => {
                self.leave(step.node)?;
                Ok(false)
            }
            Next::Fresh(at, target) => {
                self.path.push(Step {
                    node: step.node,
                    next: at,
                })?;
                self.enter(target)?;
                Ok(false)
            }
        }
    }

    /// Puts a node at the end of the path.
    fn enter(&mut self, node: u32) -> Result<(), Memory>
        requires within { node < length self.old.marks.items }
        ensures marks { OnOk result (self.new.marks.items ≡ slice_set self.old.marks.items node mark.Entered) }
        ensures path { OnOk result
            (self.new.path.items ≡ self.old.path.items ++ record { node = node; next = 0 } ∷ []) }
        ensures order { OnOk result (self.new.order.items ≡ self.old.order.items) }
        ensures entered { OnOk result (self.new.entered.items ≡ self.old.entered.items ++ node ∷ []) }
    {
        self.marks[node as usize] = Mark::Entered;
        self.path.push(Step { node, next: 0 })?;
        Ok(self.entered.push(node)?)
    }

    /// Leaves a node, which is no longer on the path.
    fn leave(&mut self, node: u32) -> Result<(), Memory>
        requires within { node < length self.old.marks.items }
        ensures marks { OnOk result (self.new.marks.items ≡ slice_set self.old.marks.items node mark.Left) }
        ensures path { OnOk result (self.new.path.items ≡ self.old.path.items) }
        ensures order { OnOk result (self.new.order.items ≡ self.old.order.items ++ node ∷ []) }
        ensures entered { OnOk result (self.new.entered.items ≡ self.old.entered.items) }
    {
        self.marks[node as usize] = Mark::Left;
        Ok(self.order.push(node)?)
    }

    /// Makes all nodes fresh again.
    fn forget(&mut self)
        requires within { Bounded (length self.old.marks.items) self.old.entered.items }
        ensures ready { (count : ℕ) → IsKnownOf count self.old → IsReady count self.new }
    {
        refresh(&mut self.marks, &mut self.entered);
        self.path.clear();
        self.order.clear();
    }

    /// The nodes that were left, in the order in which they were.
    fn into_order(self) -> Vec<u32>
        ensures value { result.items ≡ self.order.items }
    {
        self.order
    }
}

/// Makes nodes fresh again, and takes them off the list.
fn refresh(marks: &mut Vec<Mark>, entered: &mut Vec<u32>)
    requires within { Bounded (length marks.old.items) entered.old.items }
    ensures ready { (count : ℕ) → IsKnown count marks.old.items entered.old.items → IsKnown count marks.new.items [] }
    ensures none { entered.new.items ≡ [] }
{
    while let Some(node) = last(entered) {
        marks[node as usize] = Mark::Fresh;
    }
}

/// Takes the last step of a path.
fn last_step(path: &mut Vec<Step>) -> Option<Step>
    ensures none { IfNone result (path.old.items ≡ []) }
    ensures none_left { IfNone result (path.new.items ≡ []) }
    ensures some { IfSome result (λ step. path.old.items ≡ path.new.items ++ step ∷ []) }
{
    path.pop()
}

/// Whether a node is fresh.
fn is_fresh(marks: &[Mark], node: u32) -> bool
    requires within { node < length marks.now }
    ensures value { IsTrue result ↔ Is marks.now node mark.Fresh }
{
    matches!(marks[node as usize], Mark::Fresh)
}

/// The nodes to which the edges of a node lead.
fn edges(graph: &[Vec<u32>], node: u32) -> &[u32]
    ensures value { result.now ≡ targets_of (edges_of graph.now) node }
{
    if (node as usize) < graph.len() {
        graph[node as usize].as_slice()
    } else {
        &[]
    }
}

/// What comes next among the edges of a node, from a number on.
fn next_edge(marks: &[Mark], first: &[u32], second: &[u32], from: usize) -> Next
    requires within { Bounded (length marks.now) (first.now ++ second.now) }
    ensures value { AreLeft (first.now ++ second.now) marks.now from →
        IsNext (first.now ++ second.now) marks.now result }
{
    for at in from..first.len() + second.len() {
        let target = edge_target(first, second, at);
        match mark_of(marks, target) {
            Mark::Left => {}
            Mark::Entered => return Next::Circle,
            Mark::Fresh => return Next::Fresh(at, target),
        }
    }
    Next::Nothing
}

/// What a walk did with a node.
fn mark_of(marks: &[Mark], node: u32) -> Mark
    requires within { node < length marks.now }
    ensures value { Is marks.now node result }
{
    marks[node as usize]
}

/// Where the edge of a number leads.
fn edge_target(first: &[u32], second: &[u32], at: usize) -> u32
    requires within { at < length (first.now ++ second.now) }
    ensures value { slice_get (first.now ++ second.now) at ≡ Some result }
{
    if at < first.len() {
        first[at]
    } else {
        second[at - first.len()]
    }
}

/// All nodes of a graph, each once, in an order in which each edge leads to an earlier one; or none, where some node leads
/// back to itself.
pub fn order(alloc: Global, graph: &[Vec<u32>]) -> Result<Option<Vec<u32>>, Memory>
    requires graph { IsGraph (edges_of graph.now) }
    ensures value { IfOk result (λ found. MatchOption found (HasCircle (targets_of (edges_of graph.now)))
        (λ order. IsOrder (edges_of graph.now) order.items)) }
    ensures no_circle { IfOk result
        (λ found. MatchOption found (Unit {0}) (λ order. HasCircle (targets_of (edges_of graph.now)) → ⊥)) }
{
    let starts = all_nodes(alloc, graph.len())?;
    let mut walk = Walk::new(alloc, graph.len())?;
    if walk.walk_all(graph, &[], starts.as_slice())? {
        Ok(None)
    } else {
        Ok(Some(walk.into_order()))
    }
}

/// The nodes of a graph of so many. Nodes that no `u32` counts are too many for any memory.
fn all_nodes(alloc: Global, count: usize) -> Result<Vec<u32>, Memory>
    ensures within { IfOk result (λ nodes. Bounded count nodes.items) }
    ensures all { IfOk result (λ nodes. (n : ℕ) → n < count → In nodes.items n) }
{
    let mut nodes = Vec::new(alloc);
    for node in 0..count {
        nodes.push(narrow(node)?)?;
    }
    Ok(nodes)
}

/// A number as a `u32`. One that is no `u32` counts what is too much for any memory.
pub(crate) fn narrow(number: usize) -> Result<u32, Memory>
    ensures value { IfOk result (λ narrow. narrow ≡ number) }
{
    match u32::try_from(number) {
        Ok(narrow) => Ok(narrow),
        Err(_) => Err(Memory),
    }
}

/// Whether some node leads back to itself.
pub fn has_circle(alloc: Global, graph: &[Vec<u32>]) -> Result<bool, Memory>
    requires graph { IsGraph (edges_of graph.now) }
    ensures value { IfOk result (λ found. IsTrue found ↔ HasCircle (targets_of (edges_of graph.now))) }
{
    Ok(order(alloc, graph)?.is_none())
}
