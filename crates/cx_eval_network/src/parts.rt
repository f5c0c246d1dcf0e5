//! The ports of a component, by their numbers.

ghost use Rattle.std.specs.Prelude.{◌≡◌, ◌+◌, ◌<◌, ℕ, IfOk, OnOk, length};
ghost use Rattle.cx_meaning.specs.Instances.{Instance};
ghost use Rattle.cx_rules.specs.Ports.{component_of};
ghost use Rattle.cx_design.specs.PlainDesigns.{plain_design};
ghost use Rattle.cx_design_leads.specs.Nodes.{IsNodesOf, node_count};
ghost use Rattle.cx_eval_network.specs.Parts.{ArePorts, HaveSpan, at_number};
ghost use Rattle.cx_eval_network.specs.Nodes.{IsPartOf};

use cx_design::{Design, PortRef};
use cx_design_leads::Nodes as PartNumbers;
use cx_design_parts::component;
use cx_text::Memory;
use std::alloc::Global;

/// The numbers of the ports of a component, and the port of each number.
#[derive(Debug, Drop)]
pub struct PartNodes {
    pub numbers: PartNumbers,
    pub ports: Vec<PortRef>,
}

impl PartNodes {
    /// The ports of a component. Ports that no `u32` counts are too many for any memory.
    pub fn new(alloc: Global, design: &Design, number: usize) -> Result<PartNodes, Memory>
        requires within { number < length design.now.components.items }
        ensures value { IfOk result (IsPartOf (component_of (plain_design design.now) number)) }
    {
        let numbers = PartNumbers::new(alloc, design, number)?;
        let ports = part_ports(alloc, design, number, &numbers)?;
        Ok(PartNodes { numbers, ports })
    }
}

/// The ports of a component in the order of their numbers.
fn part_ports(
    alloc: Global,
    design: &Design,
    number: usize,
    numbers: &PartNumbers,
) -> Result<Vec<PortRef>, Memory>
    requires within { number < length design.now.components.items }
    requires numbers { IsNodesOf (component_of (plain_design design.now) number) numbers.now }
    ensures value { IfOk result (λ ports.
        let i = component_of (plain_design design.now) number in ArePorts i (node_count i) ports.items) }
{
    let mut ports = Vec::new(alloc);
    for cell in 0..component(design, number).cells.len() {
        let cell_number = narrow(cell)?;
        add_ports(&mut ports, numbers, PortRef::Cell(cell_number, 0))?;
    }
    add_ports(&mut ports, numbers, PortRef::Input(0))?;
    add_ports(&mut ports, numbers, PortRef::Output(0))?;
    add_ports(&mut ports, numbers, PortRef::Done(0))?;
    Ok(ports)
}

/// Adds a port and those of its kind behind it, as many as there are.
fn add_ports(ports: &mut Vec<PortRef>, numbers: &PartNumbers, first: PortRef) -> Result<(), Memory>
    ensures value { OnOk result ((i : Instance) (count start : ℕ) → IsNodesOf i numbers.now →
        HaveSpan i first count start → ArePorts i start ports.old.items →
        ArePorts i (start + count) ports.new.items) }
{
    for number in 0..u32::MAX {
        let port = numbered(first, number);
        match numbers.node(port) {
            Some(_) => ports.push(port)?,
            None => return Ok(()),
        }
    }
    Err(Memory)
}

/// The port of another number, of the same kind.
fn numbered(port: PortRef, number: u32) -> PortRef
    ensures value { result ≡ at_number port number }
{
    match port {
        PortRef::Cell(cell, _) => PortRef::Cell(cell, number),
        PortRef::Input(_) => PortRef::Input(number),
        PortRef::Output(_) => PortRef::Output(number),
        PortRef::Done(_) => PortRef::Done(number),
        PortRef::Literal(width, value) => PortRef::Literal(width, value),
    }
}

/// A number as a `u32`. One that is no `u32` counts what is too much for any memory.
pub fn narrow(number: usize) -> Result<u32, Memory>
    ensures value { IfOk result (λ narrow. narrow ≡ number) }
{
    match u32::try_from(number) {
        Ok(narrow) => Ok(narrow),
        Err(_) => Err(Memory),
    }
}
