//! Tallies of nodes.

ghost use Rattle.std.specs.Prelude.{◌≡◌, ◌<◌, ℕ, IfNone, IfOk, IfSome, OnOk, [], ◌∷◌, ◌++◌, length, replicate};
ghost use Rattle.cx_graphs.specs.Graphs.{Bounded, IsGraph, edges_of, targets_of};
ghost use Rattle.cx_graphs.specs.Owners.{IsLeast, lesser};
ghost use Rattle.cx_graphs.specs.Tallies.{Added, IsClear, IsKept, Reaches, Starts, Tallies, starts_of};

use crate::owners::Owners;
use cx_text::Memory;
use std::alloc::Global;

/// The owners of each node, and the nodes that have owners.
#[derive(Debug, Drop)]
pub struct Tally {
    pub owners: Vec<Owners>,
    pub touched: Vec<u32>,
}

impl Tally {
    /// A tally of so many nodes, none of which has an owner.
    pub fn new(alloc: Global, count: usize) -> Result<Tally, Memory>
        ensures clear { IfOk result (λ tally. IsClear count tally.owners.items tally.touched.items) }
    {
        Ok(Tally {
            owners: no_owners(alloc, count)?,
            touched: Vec::new(alloc),
        })
    }

    /// Tallies lists of nodes: a node is owned by the numbers of the lists in which it stands.
    pub fn tally(&mut self, lists: &[Vec<u32>]) -> Result<(), Memory>
        requires clear { IsClear (length self.old.owners.items) self.old.owners.items self.old.touched.items }
        requires within { (k : ℕ) → Bounded (length self.old.owners.items) (targets_of (edges_of lists.now) k) }
        ensures len { OnOk result (length self.new.owners.items ≡ length self.old.owners.items) }
        ensures told { OnOk result (Tallies
            (Starts (targets_of (edges_of lists.now))) self.new.owners.items self.new.touched.items) }
    {
        for number in 0..lists.len() {
            self.add_all(lists[number].as_slice(), Owners::Only(number))?;
        }
        Ok(())
    }

    /// Tallies lists of nodes and lists of groups of nodes: a node is owned by the numbers of the lists in which it stands, or in which
    /// a group stands that has it. The tally of the groups serves meanwhile, and is empty again at the end.
    pub fn tally_groups(
        &mut self,
        groups: &mut Tally,
        members: &[Vec<u32>],
        group_lists: &[Vec<u32>],
        lists: &[Vec<u32>],
    ) -> Result<(), Memory>
        requires clear { IsClear (length self.old.owners.items) self.old.owners.items self.old.touched.items }
        requires groups { IsClear (length members.now) groups.old.owners.items groups.old.touched.items }
        requires members { (g : ℕ) → Bounded (length self.old.owners.items) (targets_of (edges_of members.now) g) }
        requires groups_within { (k : ℕ) → Bounded (length members.now) (targets_of (edges_of group_lists.now) k) }
        requires within { (k : ℕ) → Bounded (length self.old.owners.items) (targets_of (edges_of lists.now) k) }
        ensures len { OnOk result (length self.new.owners.items ≡ length self.old.owners.items) }
        ensures told { OnOk result (Tallies (Starts
            (starts_of (edges_of members.now) (edges_of group_lists.now) (edges_of lists.now)))
            self.new.owners.items self.new.touched.items) }
        ensures groups { OnOk result (IsClear (length members.now) groups.new.owners.items groups.new.touched.items) }
    {
        self.tally(lists)?;
        groups.tally(group_lists)?;
        for place in 0..groups.touched.len() {
            let group = groups.touched[place];
            let owners = groups.owners[group as usize];
            self.add_all(members[group as usize].as_slice(), owners)?;
        }
        groups.clear();
        Ok(())
    }

    /// Tallies lists of nodes and of groups of nodes with all that is reached from them in a graph: a node is owned by the numbers of the
    /// lists from which it is reached.
    pub fn tally_reached(
        &mut self,
        graph: &[Vec<u32>],
        groups: &mut Tally,
        members: &[Vec<u32>],
        group_lists: &[Vec<u32>],
        lists: &[Vec<u32>],
    ) -> Result<(), Memory>
        requires clear { IsClear (length graph.now) self.old.owners.items self.old.touched.items }
        requires groups { IsClear (length members.now) groups.old.owners.items groups.old.touched.items }
        requires members { (g : ℕ) → Bounded (length graph.now) (targets_of (edges_of members.now) g) }
        requires groups_within { (k : ℕ) → Bounded (length members.now) (targets_of (edges_of group_lists.now) k) }
        requires within { (k : ℕ) → Bounded (length graph.now) (targets_of (edges_of lists.now) k) }
        requires graph { IsGraph (edges_of graph.now) }
        ensures len { OnOk result (length self.new.owners.items ≡ length graph.now) }
        ensures told { OnOk result (Tallies (Reaches (edges_of graph.now)
            (starts_of (edges_of members.now) (edges_of group_lists.now) (edges_of lists.now)))
            self.new.owners.items self.new.touched.items) }
        ensures groups { OnOk result (IsClear (length members.now) groups.new.owners.items groups.new.touched.items) }
    {
        self.tally_groups(groups, members, group_lists, lists)?;
        let mut next = 0;
        while next < self.touched.len() {
            let node = self.touched[next];
            let owners = self.owners[node as usize];
            self.add_all(graph[node as usize].as_slice(), owners)?;
            next += 1;
        }
        Ok(())
    }

    /// The least of some nodes that several own.
    pub fn least_several(&self, among: &[u32]) -> Option<u32>
        requires within { Bounded (length self.now.owners.items) among.now }
        ensures least { IsLeast self.now.owners.items among.now result }
    {
        let mut least = None;
        for node in among {
            least = self.less(least, *node);
        }
        least
    }

    /// The lesser of the least so far and one more node, if several own it.
    fn less(&self, least: Option<u32>, node: u32) -> Option<u32>
        requires within { node < length self.now.owners.items }
        ensures value { result ≡ lesser self.now.owners.items least node }
    {
        if !self.owners[node as usize].are_several() {
            return least;
        }
        match least {
            Some(least) if least < node => Some(least),
            Some(_) | None => Some(node),
        }
    }

    /// Takes all owners away.
    pub fn clear(&mut self)
        requires kept { IsKept self.old.owners.items self.old.touched.items }
        ensures clear { IsClear (length self.old.owners.items) self.new.owners.items self.new.touched.items }
    {
        while let Some(node) = last(&mut self.touched) {
            self.owners[node as usize] = Owners::Nobody;
        }
    }

    /// Adds owners to the nodes of a list.
    fn add_all(&mut self, nodes: &[u32], more: Owners) -> Result<(), Memory>
        requires within { Bounded (length self.old.owners.items) nodes.now }
        ensures added { OnOk result (Added self.old.owners.items self.old.touched.items nodes.now more
            self.new.owners.items self.new.touched.items) }
    {
        for node in nodes {
            self.add(*node, more)?;
        }
        Ok(())
    }

    /// Adds owners to a node, which is touched if that changes its owners.
    fn add(&mut self, node: u32, more: Owners) -> Result<(), Memory>
        requires within { node < length self.old.owners.items }
        ensures added { OnOk result (Added self.old.owners.items self.old.touched.items
            (node ∷ []) more self.new.owners.items self.new.touched.items) }
    {
        let before = self.owners[node as usize];
        let after = before.join(more);
        if !after.is(before) {
            self.owners[node as usize] = after;
            self.touched.push(node)?;
        }
        Ok(())
    }
}

/// Nobody for each of so many nodes.
fn no_owners(alloc: Global, count: usize) -> Result<Vec<Owners>, Memory>
    ensures value { IfOk result (λ owners. owners.items ≡ replicate count Owners.Nobody) }
{
    Ok(vec![in alloc; Owners::Nobody; count]?)
}

/// Takes the last node of a list.
fn last(nodes: &mut Vec<u32>) -> Option<u32>
    ensures none { IfNone result (nodes.old.items ≡ []) }
    ensures left { IfNone result (nodes.new.items ≡ []) }
    ensures some { IfSome result (λ node. nodes.old.items ≡ nodes.new.items ++ node ∷ []) }
{
    nodes.pop()
}
