//! Which groups drive a port to which a node leads: a group whose edges lead to no node that leads back to it has no circle, and
//! what it reads need not be walked.

ghost use Rattle.std.specs.Prelude.{◌≡◌, ◌<◌, ◌↔◌, ℕ, false, IfOk, IsTrue, length};
ghost use Rattle.cx_text.specs.Members.{In};
ghost use Rattle.cx_graphs.specs.Graphs.{Bounded, edges_of, targets_of};
ghost use Rattle.cx_graphs.specs.Owners.{Covers, owners_at};
ghost use Rattle.cx_meaning.specs.Designs.{component_at};
ghost use Rattle.cx_rules.specs.Ports.{component_of};
ghost use Rattle.cx_design.specs.PlainDesigns.{plain_design};
ghost use Rattle.cx_design_leads.specs.Nodes.{IsNodesOf, node_count};
ghost use Rattle.cx_comb.specs.Owning.{AreOwners, AreTargetLists};
ghost use Rattle.cx_comb.specs.Pruning.{ServesGroups};

use crate::pruning::add_targets;
use cx_design::Design;
use cx_design_leads::{GroupLeads, Nodes};
use cx_design_parts::component;
use cx_graphs::{Owners, Tally, turned};
use cx_text::Memory;
use std::alloc::Global;

/// For each node the groups that drive a port to which it leads, as far as none, one and several are told apart.
pub fn owners(
    alloc: Global,
    design: &Design,
    number: usize,
    nodes: &Nodes,
    pruned: &[Vec<u32>],
) -> Result<Vec<Owners>, Memory>
    requires within { number < length design.now.components.items }
    requires nodes { IsNodesOf (component_of (plain_design design.now) number) nodes.now }
    requires pruned { ServesGroups (component_of (plain_design design.now) number) (edges_of pruned.now) }
    ensures len { IfOk result
        (λ owners. length owners.items ≡ node_count (component_of (plain_design design.now) number)) }
    ensures value { IfOk result (λ owners.
        AreOwners (component_of (plain_design design.now) number) (edges_of pruned.now) owners.items) }
{
    let lists = target_lists(alloc, design, number, nodes)?;
    let turned = turned(alloc, pruned)?;
    let mut tally = Tally::new(alloc, pruned.len())?;
    let mut groups = Tally::new(alloc, 0)?;
    tally.tally_reached(turned.as_slice(), &mut groups, &[], &[], lists.as_slice())?;
    Ok(tally.owners)
}

/// For each group the nodes that it drives.
fn target_lists(
    alloc: Global,
    design: &Design,
    number: usize,
    nodes: &Nodes,
) -> Result<Vec<Vec<u32>>, Memory>
    requires within { number < length design.now.components.items }
    requires nodes { IsNodesOf (component_of (plain_design design.now) number) nodes.now }
    ensures value { IfOk result (λ lists. AreTargetLists (component_of (plain_design design.now) number)
        (component_at (plain_design design.now) number).groups (edges_of lists.items)) }
{
    let mut lists = Vec::new(alloc);
    let groups = component(design, number).groups.as_slice();
    for group in groups {
        let mut list = Vec::new(alloc);
        add_targets(&mut list, design, number, nodes, group.assigns.as_slice())?;
        lists.push(list)?;
    }
    Ok(lists)
}

/// Whether an edge of a group leads to a node that leads to a port which the group drives; maybe too where several groups
/// drive such ports.
pub fn leads_back(owners: &[Owners], more: &GroupLeads, group: usize) -> bool
    requires targets { Bounded (length more.now.edges.items) more.now.targets.items }
    requires edges { (n : ℕ) → Bounded (length owners.now) (targets_of (edges_of more.now.edges.items) n) }
    ensures never { result ≡ false → (m n : ℕ) → In more.now.targets.items m →
        In (targets_of (edges_of more.now.edges.items) m) n → Covers (owners_at owners.now n) group → ⊥ }
{
    for target in more.targets.as_slice() {
        if has_owned(owners, more.edges[*target as usize].as_slice(), group) {
            return true;
        }
    }
    false
}

/// Whether a group may be among the owners of one of some nodes.
fn has_owned(owners: &[Owners], nodes: &[u32], group: usize) -> bool
    requires within { Bounded (length owners.now) nodes.now }
    ensures never { result ≡ false → (n : ℕ) → In nodes.now n → Covers (owners_at owners.now n) group → ⊥ }
{
    for node in nodes {
        if may_own(owners[*node as usize], group) {
            return true;
        }
    }
    false
}

/// Whether a group may be among owners.
fn may_own(owners: Owners, group: usize) -> bool
    ensures covers { IsTrue result ↔ Covers owners group }
{
    match owners {
        Owners::Nobody => false,
        Owners::Only(owner) => owner == group,
        Owners::Several => true,
    }
}
