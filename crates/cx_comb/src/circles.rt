//! The circles of a component.

ghost use Rattle.std.specs.Prelude.{◌≡◌, ◌↔◌, ◌<◌, true, IfOk, IsTrue, OnOk, length, replicate};
ghost use Rattle.cx_graphs.specs.Graphs.{edges_of, targets_of};
ghost use Rattle.cx_graphs.specs.Ways.{HasCircle, HasCircleFrom, both};
ghost use Rattle.cx_graphs.specs.Walks.{IsReady};
ghost use Rattle.cx_meaning.specs.Designs.{component_at};
ghost use Rattle.cx_meaning.specs.Active as active;
ghost use Rattle.cx_meaning.specs.Instances.{Instance};
ghost use Rattle.cx_rules.specs.Footprints.{Leads};
ghost use Rattle.cx_rules.specs.Ports.{component_of};
ghost use Rattle.cx_rules.specs.RaceRule.{HasCycle};
ghost use Rattle.cx_design.specs.PlainDesigns.{plain_design};
ghost use Rattle.cx_design_leads.specs.Nodes.{IsNodesOf, node_count};
ghost use Rattle.cx_design_leads.specs.Edges.{HasEdges, IsClear, IsGroupOf};
ghost use Rattle.cx_comb.specs.Circles.{AreCircles, AreGroupCircles};
ghost use Rattle.cx_comb.specs.Owning.{AreOwners};
ghost use Rattle.cx_comb.specs.Pruning.{ServesGroups};

use crate::owning::{leads_back, owners};
use crate::pruning::pruned;
use cx_design::Design;
use cx_design_leads::{GroupLeads, Nodes, continuous_leads};
use cx_design_parts::component;
use cx_graphs::{Owners, Walk, has_circle};
use cx_text::Memory;
use std::alloc::Global;

/// Whether the continuous assignments of a component have a circle, and whether they have one with each of its groups.
#[derive(Debug, Drop)]
pub struct Circles {
    pub whole: bool,
    pub groups: Vec<bool>,
}

/// The circles of a component.
pub fn find_circles(alloc: Global, design: &Design, number: usize) -> Result<Circles, Memory>
    requires within { number < length design.now.components.items }
    ensures value { IfOk result (λ circles.
        AreCircles (component_of (plain_design design.now) number) circles.whole circles.groups.items) }
{
    let nodes = Nodes::new(alloc, design, number)?;
    let graph = continuous_leads(alloc, design, number, &nodes)?;
    if has_circle(alloc, graph.as_slice())? {
        let all = all_circular(alloc, component(design, number).groups.len())?;
        return Ok(Circles {
            whole: true,
            groups: all,
        });
    }
    let groups = circular_groups(alloc, design, number, &nodes, graph.as_slice())?;
    Ok(Circles {
        whole: false,
        groups,
    })
}

/// The answer for so many groups that all have a circle.
fn all_circular(alloc: Global, count: usize) -> Result<Vec<bool>, Memory>
    ensures value { IfOk result (λ groups. groups.items ≡ replicate count true) }
{
    Ok(vec![in alloc; true; count]?)
}

/// Which groups have a circle, where the continuous assignments alone have none.
fn circular_groups(
    alloc: Global,
    design: &Design,
    number: usize,
    nodes: &Nodes,
    graph: &[Vec<u32>],
) -> Result<Vec<bool>, Memory>
    requires within { number < length design.now.components.items }
    requires nodes { IsNodesOf (component_of (plain_design design.now) number) nodes.now }
    requires graph { HasEdges (component_of (plain_design design.now) number)
        (Leads (component_of (plain_design design.now) number) active.nothing) (edges_of graph.now) }
    requires no_circle { HasCircle (targets_of (edges_of graph.now)) → ⊥ }
    ensures count { IfOk result
        (λ groups. length groups.items ≡ length (component_at (plain_design design.now) number).groups) }
    ensures value { IfOk result
        (λ groups. AreGroupCircles (component_of (plain_design design.now) number) groups.items) }
{
    let pruned = pruned(alloc, design, number, nodes, graph)?;
    let owners = owners(alloc, design, number, nodes, pruned.as_slice())?;
    let mut walk = Walk::new(alloc, nodes.count())?;
    let mut more = GroupLeads::new(alloc, nodes.count())?;
    let mut groups = Vec::new(alloc);
    for group in 0..component(design, number).groups.len() {
        let found = is_circular(
            alloc,
            design,
            number,
            nodes,
            pruned.as_slice(),
            owners.as_slice(),
            &mut walk,
            &mut more,
            group,
        )?;
        groups.push(found)?;
    }
    Ok(groups)
}

/// Whether the continuous assignments have a circle with one group.
fn is_circular(
    alloc: Global,
    design: &Design,
    number: usize,
    nodes: &Nodes,
    pruned: &[Vec<u32>],
    owners: &[Owners],
    walk: &mut Walk,
    more: &mut GroupLeads,
    group: usize,
) -> Result<bool, Memory>
    requires within { number < length design.now.components.items }
    requires nodes { IsNodesOf (component_of (plain_design design.now) number) nodes.now }
    requires group { group < length (component_at (plain_design design.now) number).groups }
    requires pruned { ServesGroups (component_of (plain_design design.now) number) (edges_of pruned.now) }
    requires owners { AreOwners (component_of (plain_design design.now) number) (edges_of pruned.now) owners.now }
    requires len { length owners.now ≡ node_count (component_of (plain_design design.now) number) }
    requires walk { IsReady (node_count (component_of (plain_design design.now) number)) walk.old }
    requires more { IsClear (node_count (component_of (plain_design design.now) number)) more.old }
    ensures walk { OnOk result (IsReady (node_count (component_of (plain_design design.now) number)) walk.new) }
    ensures more { OnOk result (IsClear (node_count (component_of (plain_design design.now) number)) more.new) }
    ensures value { IfOk result (λ found.
        IsTrue found ↔ HasCycle (component_of (plain_design design.now) number) (active.group group)) }
{
    more.add_group(alloc, design, number, nodes, group)?;
    let found = meets_circle(pruned, owners, walk, more, group)?;
    more.clear();
    Ok(found)
}

/// Whether a circle is met from the targets of a group. Nothing is walked where none of its edges leads back to it.
fn meets_circle(
    pruned: &[Vec<u32>],
    owners: &[Owners],
    walk: &mut Walk,
    more: &GroupLeads,
    group: usize,
) -> Result<bool, Memory>
    requires pruned { (i : Instance) × ServesGroups i (edges_of pruned.now) ×
        AreOwners i (edges_of pruned.now) owners.now × IsGroupOf i group more.now }
    requires len { length owners.now ≡ length pruned.now }
    requires walk { IsReady (length pruned.now) walk.old }
    ensures walk { OnOk result (IsReady (length pruned.now) walk.new) }
    ensures value { IfOk result (λ found. IsTrue found ↔
        HasCircleFrom (both (edges_of pruned.now) (edges_of more.now.edges.items)) more.now.targets.items) }
{
    if !leads_back(owners, more, group) {
        return Ok(false);
    }
    let found = walk.meets_circle(pruned, more.edges.as_slice(), more.targets.as_slice())?;
    Ok(found)
}
