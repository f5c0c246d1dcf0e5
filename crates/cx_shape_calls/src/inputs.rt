//! Which inputs of a called cell depend on an output or the done of the cell.

ghost use Rattle.std.specs.Prelude.{◌≡◌, ◌+◌, ◌<◌, ◌↔◌, ℕ, IfNone, IfOk, IfSome, IsTrue, OnOk, length, suc};
ghost use Rattle.cx_meaning.specs.Designs.{component_at, group_at};
ghost use Rattle.cx_rules.specs.Ports.{component_of};
ghost use Rattle.cx_design.specs.PlainForms.{plain_assigns, plain_component, plain_group};
ghost use Rattle.cx_design.specs.PlainDesigns.{plain_design};
ghost use Rattle.cx_callees.specs.Callees.{PlainCallee, plain_callee};
ghost use Rattle.cx_shape_calls.specs.Forms.{times};
ghost use Rattle.cx_shape_calls.specs.Inputs as inputs;
ghost use Rattle.cx_shape_calls.specs.Inputs.{AreDependent, AreDependentPorts, ArePathsOf, HasPaths, IsDependent, IsInputOf};

use crate::{PortTally, tally};
use cx_callees::{Callee, callee_of};
use cx_design::{Assign, Component, Design, Group, PortRef};
use cx_design_leads::{GroupLeads, Nodes, continuous_leads};
use cx_design_parts::{PartPort, part_port};
use cx_graphs::Reach;
use cx_text::Memory;
use std::alloc::Global;

/// What leads to what in a component.
#[derive(Drop)]
pub struct Paths {
    nodes: Nodes,
    graph: Vec<Vec<u32>>,
    /// The edges of the group that is looked at.
    leads: GroupLeads,
    /// Serves for all searches: between two of them no node is marked.
    reach: Reach,
}

impl Paths {
    /// What leads to what under the continuous assignments of a component.
    pub fn new(alloc: Global, design: &Design, number: usize) -> Result<Paths, Memory>
        requires within { number < length design.now.components.items }
        ensures value { IfOk result (ArePathsOf (component_of (plain_design design.now) number)) }
    {
        let nodes = Nodes::new(alloc, design, number)?;
        let graph = continuous_leads(alloc, design, number, &nodes)?;
        let leads = GroupLeads::new(alloc, nodes.count())?;
        let reach = Reach::new(alloc, nodes.count())?;
        Ok(Paths {
            nodes,
            graph,
            leads,
            reach,
        })
    }

    /// The targets of a group's assignments that are inputs of a component cell, and depend on an output or the done of the
    /// cell under the group.
    pub fn dependent_inputs(
        &mut self,
        alloc: Global,
        design: &Design,
        number: usize,
        place: usize,
        group: &Group,
    ) -> Result<PortTally, Memory>
        requires within { number < length design.now.components.items }
        requires paths { ArePathsOf (component_of (plain_design design.now) number) self.old }
        requires group { place < length (component_at (plain_design design.now) number).groups }
        requires is { plain_group group.now ≡ group_at (component_at (plain_design design.now) number) place }
        ensures paths { OnOk result (ArePathsOf (component_of (plain_design design.now) number) self.new) }
        ensures value { IfOk result (λ tally. AreDependent
            (component_of (plain_design design.now) number) place (plain_group group.now).assigns
            (times tally)) }
    {
        self.leads
            .add_group(alloc, design, number, &self.nodes, place)?;
        let ports = self.dependent_ports(alloc, design, number, group.assigns.as_slice())?;
        self.leads.clear();
        let dependent = tally(alloc, ports.as_slice())?;
        Ok(dependent)
    }

    /// The targets that depend on an output or the done of their cell.
    fn dependent_ports(
        &mut self,
        alloc: Global,
        design: &Design,
        number: usize,
        assigns: &[Assign],
    ) -> Result<Vec<PortRef>, Memory>
        requires within { number < length design.now.components.items }
        requires paths { (g : ℕ) × HasPaths (component_of (plain_design design.now) number) g self.old }
        ensures paths { OnOk result ((g : ℕ) →
            HasPaths (component_of (plain_design design.now) number) g self.old →
            HasPaths (component_of (plain_design design.now) number) g self.new) }
        ensures value { IfOk result (λ ports. (g : ℕ)
            → HasPaths (component_of (plain_design design.now) number) g self.old
            → AreDependentPorts (component_of (plain_design design.now) number) g
            (plain_assigns assigns.now) ports.items) }
    {
        let mut ports = Vec::new(alloc);
        for assign in assigns {
            if self.is_dependent(design, number, assign.target)? {
                ports.push(assign.target)?;
            }
        }
        Ok(ports)
    }

    /// Whether a port is an input of a component cell that depends on an output or the done of the cell.
    fn is_dependent(
        &mut self,
        design: &Design,
        number: usize,
        port: PortRef,
    ) -> Result<bool, Memory>
        requires within { number < length design.now.components.items }
        requires paths { (g : ℕ) × HasPaths (component_of (plain_design design.now) number) g self.old }
        ensures paths { OnOk result ((g : ℕ) →
            HasPaths (component_of (plain_design design.now) number) g self.old →
            HasPaths (component_of (plain_design design.now) number) g self.new) }
        ensures value { IfOk result (λ found. (g : ℕ)
            → HasPaths (component_of (plain_design design.now) number) g self.old
            → (IsTrue found ↔ IsDependent (component_of (plain_design design.now) number) g port)) }
    {
        let Some(callee) = input_of(design, number, port) else {
            return Ok(false);
        };
        let done = done_number(callee.part)?;
        let first = callee.part.inputs.len() as u32 + 1;
        let Some(start) = self.nodes.node(port) else {
            return Ok(false);
        };
        let Some(first) = self.nodes.node(PortRef::Cell(callee.cell, first)) else {
            return Ok(false);
        };
        let Some(last) = self.nodes.node(PortRef::Cell(callee.cell, done)) else {
            return Ok(false);
        };
        let graph = self.graph.as_slice();
        let more = self.leads.edges.as_slice();
        let found = self.reach.leads_between(graph, more, start, first, last)?;
        Ok(found)
    }
}

/// The component cell of which a port is an input.
fn input_of(design: &Design, number: usize, port: PortRef) -> Option<Callee<'_>>
    requires within { number < length design.now.components.items }
    ensures none { IfNone result
        ((k : PlainCallee) → IsInputOf (component_of (plain_design design.now) number) port k → ⊥) }
    ensures some { IfSome result
        (λ callee. IsInputOf (component_of (plain_design design.now) number) port (plain_callee callee)) }
{
    let callee = callee_of(design, number, port)?;
    if is_input(callee.part, port) {
        Some(callee)
    } else {
        None
    }
}

/// Whether a port of a component's cell is one of its inputs.
fn is_input(part: &Component, port: PortRef) -> bool
    ensures value { result ≡ inputs.is_input (plain_component part.now) port }
{
    match port {
        PortRef::Cell(_, port) => matches!(part_port(part, port), PartPort::Input(_)),
        PortRef::Input(_) | PortRef::Output(_) | PortRef::Done(_) | PortRef::Literal(_, _) => false,
    }
}

/// The number of the done of a component's cell. Ports that no `u32` counts are too many for any memory.
fn done_number(part: &Component) -> Result<u32, Memory>
    ensures value { IfOk result (λ done. done ≡ suc (length part.now.inputs.items + length part.now.outputs.items)) }
{
    let Some(ports) = part.inputs.len().checked_add(part.outputs.len()) else {
        return Err(Memory);
    };
    match u32::try_from(ports) {
        Ok(ports) if ports < u32::MAX => Ok(ports + 1),
        _ => Err(Memory),
    }
}
