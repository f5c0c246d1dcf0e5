//! The edges between the ports of a component.

ghost use Rattle.std.specs.Prelude.{◌≡◌, ◌<◌, ℕ, false, [], ◌∷◌, ◌++◌, IfNone, IfOk, IfSome, OnOk, length};
ghost use Rattle.cx_graphs.specs.Graphs.{Bounded, edges_of, targets_of};
ghost use Rattle.cx_text.specs.Members.{In};
ghost use Rattle.cx_graphs.specs.Additions.{Adds, IsBare};
ghost use Rattle.cx_meaning.specs.Active.{nothing};
ghost use Rattle.cx_meaning.specs.Designs.{component_at};
ghost use Rattle.cx_rules.specs.Footprints.{Leads};
ghost use Rattle.cx_rules.specs.Ports.{component_of};
ghost use Rattle.cx_design.specs.PlainForms.{plain_assign, plain_assigns};
ghost use Rattle.cx_design.specs.PlainDesigns.{plain_design};
ghost use Rattle.cx_design_leads.specs.Nodes.{IsNodesOf, node_count};
ghost use Rattle.cx_design_leads.specs.Edges.{HasEdges, IsClear, IsGroupOf, IsSpreadOf};
ghost use Rattle.cx_design_leads.specs.Links.{OfAssign, OfAssigns};

use crate::assigns::{add_assign, add_named, driven};
use crate::numbering::Nodes;
use crate::rows::add_cells;
use cx_design::{Assign, Design};
use cx_design_parts::component;
use cx_graphs::bare;
use cx_text::Memory;
use std::alloc::Global;

/// The graph of what leads to what under the continuous assignments of a component.
pub fn continuous_leads(
    alloc: Global,
    design: &Design,
    number: usize,
    nodes: &Nodes,
) -> Result<Vec<Vec<u32>>, Memory>
    requires within { number < length design.now.components.items }
    requires nodes { IsNodesOf (component_of (plain_design design.now) number) nodes.now }
    ensures value { IfOk result (λ graph. let i = component_of (plain_design design.now) number in
        HasEdges i (Leads i nothing) (edges_of graph.items)) }
{
    let mut graph = bare(alloc, nodes.count())?;
    let always = component(design, number).always.as_slice();
    add_assigns(alloc, &mut graph, design, number, nodes, always)?;
    add_cells(&mut graph, design, number, nodes)?;
    Ok(graph)
}

/// Adds the edges of assignments.
fn add_assigns(
    alloc: Global,
    graph: &mut Vec<Vec<u32>>,
    design: &Design,
    number: usize,
    nodes: &Nodes,
    assigns: &[Assign],
) -> Result<(), Memory>
    requires within { number < length design.now.components.items }
    requires nodes { IsNodesOf (component_of (plain_design design.now) number) nodes.now }
    requires graph { length graph.old.items ≡ node_count (component_of (plain_design design.now) number) }
    ensures value { OnOk result (Adds (edges_of graph.old.items)
        (OfAssigns (component_of (plain_design design.now) number) (plain_assigns assigns.now))
        (edges_of graph.new.items)) }
{
    for assign in assigns {
        add_assign(alloc, graph, design, number, nodes, assign)?;
    }
    Ok(())
}

/// The edges that one group adds to those of the continuous assignments. One serves for many groups of a component.
#[derive(Debug, Drop)]
pub struct GroupLeads {
    pub edges: Vec<Vec<u32>>,
    /// The nodes from which the edges lead.
    pub targets: Vec<u32>,
}

impl GroupLeads {
    /// No edges yet, among so many nodes.
    pub fn new(alloc: Global, count: usize) -> Result<GroupLeads, Memory>
        ensures value { IfOk result (IsClear count) }
    {
        Ok(GroupLeads {
            edges: bare(alloc, count)?,
            targets: Vec::new(alloc),
        })
    }

    /// Adds the edges of a group.
    pub fn add_group(
        &mut self,
        alloc: Global,
        design: &Design,
        number: usize,
        nodes: &Nodes,
        group: usize,
    ) -> Result<(), Memory>
        requires within { number < length design.now.components.items }
        requires nodes { IsNodesOf (component_of (plain_design design.now) number) nodes.now }
        requires group { group < length (component_at (plain_design design.now) number).groups }
        requires clear { IsClear (node_count (component_of (plain_design design.now) number)) self.old }
        ensures value { OnOk result (IsGroupOf (component_of (plain_design design.now) number) group self.new) }
    {
        let part = component(design, number);
        let assigns = part.groups[group].assigns.as_slice();
        self.add_assigns(alloc, design, number, nodes, assigns)?;
        Ok(())
    }

    /// Adds the edges of assignments, and the nodes from which they lead.
    fn add_assigns(
        &mut self,
        alloc: Global,
        design: &Design,
        number: usize,
        nodes: &Nodes,
        assigns: &[Assign],
    ) -> Result<(), Memory>
        requires within { number < length design.now.components.items }
        requires nodes { IsNodesOf (component_of (plain_design design.now) number) nodes.now }
        requires spread { IsSpreadOf (node_count (component_of (plain_design design.now) number)) self.old }
        ensures spread { OnOk result (IsSpreadOf (node_count (component_of (plain_design design.now) number)) self.new) }
        ensures value { OnOk result (Adds (edges_of self.old.edges.items)
            (OfAssigns (component_of (plain_design design.now) number) (plain_assigns assigns.now))
            (edges_of self.new.edges.items)) }
    {
        for assign in assigns {
            self.add_assign(alloc, design, number, nodes, assign)?;
        }
        Ok(())
    }

    /// Adds the edges of an assignment, and the node from which they lead, if none did so far.
    fn add_assign(
        &mut self,
        alloc: Global,
        design: &Design,
        number: usize,
        nodes: &Nodes,
        assign: &Assign,
    ) -> Result<(), Memory>
        requires within { number < length design.now.components.items }
        requires nodes { IsNodesOf (component_of (plain_design design.now) number) nodes.now }
        requires spread { IsSpreadOf (node_count (component_of (plain_design design.now) number)) self.old }
        ensures spread { OnOk result (IsSpreadOf (node_count (component_of (plain_design design.now) number)) self.new) }
        ensures value { OnOk result (Adds (edges_of self.old.edges.items)
            (OfAssign (component_of (plain_design design.now) number) (plain_assign assign.now))
            (edges_of self.new.edges.items)) }
    {
        match driven(design, number, nodes, assign.target) {
            Some(from) => {
                let is_new = is_bare(&self.edges, from);
                add_named(alloc, &mut self.edges, nodes, from, assign)?;
                if is_new {
                    self.targets.push(from)?;
                }
                Ok(())
            }
            None => Ok(()),
        }
    }

    /// Takes away all edges.
    pub fn clear(&mut self)
        requires within { Bounded (length self.old.edges.items) self.old.targets.items }
        ensures value { (count : ℕ) → IsSpreadOf count self.old → IsClear count self.new }
    {
        while let Some(target) = last(&mut self.targets) {
            self.edges[target as usize].clear();
        }
    }
}

/// Whether no edges lead from a node.
fn is_bare(edges: &[Vec<u32>], node: u32) -> bool
    requires there { node < length edges.now }
    ensures none_so_far { result ≡ false → (n : ℕ) × In (targets_of (edges_of edges.now) node) n }
{
    edges[node as usize].is_empty()
}

/// Takes the last node of a list.
fn last(nodes: &mut Vec<u32>) -> Option<u32>
    ensures none { IfNone result (nodes.old.items ≡ []) }
    ensures none_left { IfNone result (nodes.new.items ≡ []) }
    ensures some { IfSome result (λ node. nodes.old.items ≡ nodes.new.items ++ node ∷ []) }
{
    nodes.pop()
}
