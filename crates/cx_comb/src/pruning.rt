//! What is left of a graph for the search of circles under one group: thousands of groups that read the end of one long chain
//! of continuous assignments are not to walk the chain each.

ghost use Rattle.std.specs.Prelude.{◌≡◌, ◌<◌, ◌⊎◌, ◌∷◌, [], ℕ, List, Bool, Some, IfOk, OnOk, length, slice_get};
ghost use Rattle.cx_text.specs.Members.{In};
ghost use Rattle.cx_graphs.specs.Graphs as graphs;
ghost use Rattle.cx_graphs.specs.Graphs.{Bounded, IsGraph, Marked, edges_of};
ghost use Rattle.cx_meaning.specs.Designs.{component_at};
ghost use Rattle.cx_meaning.specs.Active as active;
ghost use Rattle.cx_rules.specs.Footprints.{Leads};
ghost use Rattle.cx_rules.specs.Ports.{component_of};
ghost use Rattle.cx_design.specs.PlainForms.{plain_assign, plain_assigns};
ghost use Rattle.cx_design.specs.PlainDesigns.{plain_design};
ghost use Rattle.cx_design_leads.specs.Nodes.{IsNodesOf};
ghost use Rattle.cx_design_leads.specs.Edges.{HasEdges};
ghost use Rattle.cx_comb.specs.Pruning.{AddsTargets, HasTargets, IsKept, IsPruned, AreMarked};

use cx_design::{Assign, Design};
use cx_design_leads::{Nodes, driven};
use cx_design_parts::component;
use cx_graphs::{reached, turned};
use cx_text::Memory;
use std::alloc::Global;

/// The graph of continuous assignments without the edges to nodes from which it leads to no port that a group drives.
pub fn pruned(
    alloc: Global,
    design: &Design,
    number: usize,
    nodes: &Nodes,
    graph: &[Vec<u32>],
) -> Result<Vec<Vec<u32>>, Memory>
    requires within { number < length design.now.components.items }
    requires nodes { IsNodesOf (component_of (plain_design design.now) number) nodes.now }
    requires graph { HasEdges (component_of (plain_design design.now) number)
        (Leads (component_of (plain_design design.now) number) active.nothing) (edges_of graph.now) }
    ensures value { IfOk result (λ pruned. (marks : List Bool)
        × IsPruned (component_of (plain_design design.now) number) (edges_of graph.now) marks
        (edges_of pruned.items)) }
{
    let targets = group_targets(alloc, design, number, nodes)?;
    let turned = turned(alloc, graph)?;
    let marks = reached(alloc, turned.as_slice(), targets.as_slice())?;
    let pruned = kept(alloc, graph, marks.as_slice())?;
    Ok(pruned)
}

/// The nodes that groups drive.
fn group_targets(
    alloc: Global,
    design: &Design,
    number: usize,
    nodes: &Nodes,
) -> Result<Vec<u32>, Memory>
    requires within { number < length design.now.components.items }
    requires nodes { IsNodesOf (component_of (plain_design design.now) number) nodes.now }
    ensures value { IfOk result (λ targets.
        HasTargets (component_of (plain_design design.now) number)
        (component_at (plain_design design.now) number).groups targets.items) }
{
    let mut targets = Vec::new(alloc);
    let groups = component(design, number).groups.as_slice();
    for group in groups {
        add_targets(
            &mut targets,
            design,
            number,
            nodes,
            group.assigns.as_slice(),
        )?;
    }
    Ok(targets)
}

/// Adds the nodes that assignments drive.
pub fn add_targets(
    targets: &mut Vec<u32>,
    design: &Design,
    number: usize,
    nodes: &Nodes,
    assigns: &[Assign],
) -> Result<(), Memory>
    requires within { number < length design.now.components.items }
    requires nodes { IsNodesOf (component_of (plain_design design.now) number) nodes.now }
    ensures value { OnOk result (AddsTargets (component_of (plain_design design.now) number)
        (plain_assigns assigns.now) targets.old.items targets.new.items) }
{
    for assign in assigns {
        add_target(targets, design, number, nodes, assign)?;
    }
    Ok(())
}

/// Adds the node that an assignment drives.
fn add_target(
    targets: &mut Vec<u32>,
    design: &Design,
    number: usize,
    nodes: &Nodes,
    assign: &Assign,
) -> Result<(), Memory>
    requires within { number < length design.now.components.items }
    requires nodes { IsNodesOf (component_of (plain_design design.now) number) nodes.now }
    ensures value { OnOk result (AddsTargets (component_of (plain_design design.now) number)
        (plain_assign assign.now ∷ []) targets.old.items targets.new.items) }
{
    match driven(design, number, nodes, assign.target) {
        Some(target) => {
            targets.push(target)?;
            Ok(())
        }
        None => Ok(()),
    }
}

/// The edges of a graph to marked nodes.
fn kept(alloc: Global, graph: &[Vec<u32>], marks: &[bool]) -> Result<Vec<Vec<u32>>, Memory>
    requires graph { IsGraph (edges_of graph.now) }
    requires marks { length marks.now ≡ length graph.now }
    ensures value { IfOk result (λ kept. IsKept (edges_of graph.now) marks.now (edges_of kept.items)) }
{
    let mut kept = Vec::new(alloc);
    for node in 0..graph.len() {
        let list = marked(alloc, graph[node].as_slice(), marks)?;
        kept.push(list)?;
    }
    Ok(kept)
}

/// The marked nodes of a list.
fn marked(alloc: Global, nodes: &[u32], marks: &[bool]) -> Result<Vec<u32>, Memory>
    requires within { Bounded (length marks.now) nodes.now }
    ensures value { IfOk result (λ marked. AreMarked nodes.now marks.now marked.items) }
{
    let mut marked = Vec::new(alloc);
    for node in nodes {
        add_marked(&mut marked, *node, marks)?;
    }
    Ok(marked)
}

/// Adds a node, if it is marked.
fn add_marked(marked: &mut Vec<u32>, node: u32, marks: &[bool]) -> Result<(), Memory>
    requires within { node < length marks.now }
    ensures kept { OnOk result ((n : ℕ) → In marked.old.items n → In marked.new.items n) }
    ensures known { OnOk result ((n : ℕ) → In marked.new.items n → In marked.old.items n ⊎ (node ≡ n)) }
    ensures has { OnOk result (Marked marks.now node → In marked.new.items node) }
{
    if is_marked(marks, node) {
        marked.push(node)?;
    }
    Ok(())
}

/// Whether a node is marked.
fn is_marked(marks: &[bool], node: u32) -> bool
    requires within { node < length marks.now }
    ensures value { slice_get marks.now node ≡ Some result }
{
    marks[node as usize]
}
