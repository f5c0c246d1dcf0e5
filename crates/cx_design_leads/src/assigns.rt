//! The edges of assignments.

ghost use Rattle.std.specs.Prelude.{◌≡◌, ◌<◌, OnOk, length};
ghost use Rattle.cx_graphs.specs.Graphs.{edges_of};
ghost use Rattle.cx_graphs.specs.Additions.{Adds};
ghost use Rattle.cx_meaning.specs.Instances.{Instance};
ghost use Rattle.cx_rules.specs.Ports.{component_of};
ghost use Rattle.cx_design.specs.PlainForms.{plain_assign};
ghost use Rattle.cx_design.specs.PlainDesigns.{plain_design};
ghost use Rattle.cx_design_leads.specs.Nodes.{IsNodesOf, node_count};
ghost use Rattle.cx_design_leads.specs.Links.{OfAssign, ToNamed, ToPort, ToPorts, driven_node};

use crate::numbering::Nodes;
use cx_design::{Assign, Design, PlacedPort, PortRef};
use cx_design_parts::{is_source_only, operands};
use cx_graphs::add_edge;
use cx_text::Memory;
use std::alloc::Global;

/// Adds the edges of an assignment.
pub fn add_assign(
    alloc: Global,
    graph: &mut Vec<Vec<u32>>,
    design: &Design,
    number: usize,
    nodes: &Nodes,
    assign: &Assign,
) -> Result<(), Memory>
    requires within { number < length design.now.components.items }
    requires nodes { IsNodesOf (component_of (plain_design design.now) number) nodes.now }
    requires graph { length graph.old.items ≡ node_count (component_of (plain_design design.now) number) }
    ensures value { OnOk result (Adds (edges_of graph.old.items)
        (OfAssign (component_of (plain_design design.now) number) (plain_assign assign.now))
        (edges_of graph.new.items)) }
{
    match driven(design, number, nodes, assign.target) {
        Some(from) => {
            add_named(alloc, graph, nodes, from, assign)?;
            Ok(())
        }
        None => Ok(()),
    }
}

/// The node of a port that an assignment can drive.
pub fn driven(design: &Design, number: usize, nodes: &Nodes, port: PortRef) -> Option<u32>
    requires within { number < length design.now.components.items }
    requires nodes { IsNodesOf (component_of (plain_design design.now) number) nodes.now }
    ensures value { result ≡ driven_node (component_of (plain_design design.now) number) port }
{
    if is_source_only(design, number, port) {
        None
    } else {
        nodes.node(port)
    }
}

/// Adds edges from a node to what an assignment names.
pub fn add_named(
    alloc: Global,
    graph: &mut Vec<Vec<u32>>,
    nodes: &Nodes,
    from: u32,
    assign: &Assign,
) -> Result<(), Memory>
    requires from { from < length graph.old.items }
    ensures value { OnOk result ((i : Instance) → IsNodesOf i nodes.now →
        Adds (edges_of graph.old.items) (ToNamed i from (plain_assign assign.now)) (edges_of graph.new.items)) }
{
    let operands = operands(alloc, &assign.guard)?;
    add_ports(graph, nodes, from, operands.as_slice())?;
    add_port(graph, nodes, from, assign.source.port)?;
    Ok(())
}

/// Adds edges from a node to ports.
fn add_ports(
    graph: &mut Vec<Vec<u32>>,
    nodes: &Nodes,
    from: u32,
    ports: &[PlacedPort],
) -> Result<(), Memory>
    requires from { from < length graph.old.items }
    ensures len { OnOk result (length graph.new.items ≡ length graph.old.items) }
    ensures value { OnOk result ((i : Instance) → IsNodesOf i nodes.now →
        Adds (edges_of graph.old.items) (ToPorts i from ports.now) (edges_of graph.new.items)) }
{
    for port in ports {
        add_port(graph, nodes, from, port.port)?;
    }
    Ok(())
}

/// Adds an edge from a node to a port, where the port has a node.
pub fn add_port(
    graph: &mut Vec<Vec<u32>>,
    nodes: &Nodes,
    from: u32,
    port: PortRef,
) -> Result<(), Memory>
    requires from { from < length graph.old.items }
    ensures len { OnOk result (length graph.new.items ≡ length graph.old.items) }
    ensures value { OnOk result ((i : Instance) → IsNodesOf i nodes.now →
        Adds (edges_of graph.old.items) (ToPort i from port) (edges_of graph.new.items)) }
{
    match nodes.node(port) {
        Some(to) => {
            add_edge(graph, from, to)?;
            Ok(())
        }
        None => Ok(()),
    }
}
