//! The edges of the cells of primitives, from their combinational outputs to the inputs that these read.

ghost use Rattle.std.specs.Prelude.{◌≡◌, ◌<◌, OnOk, length};
ghost use Rattle.cx_graphs.specs.Graphs.{edges_of};
ghost use Rattle.cx_graphs.specs.Additions.{Adds};
ghost use Rattle.cx_prim.specs.Table.{row_of};
ghost use Rattle.cx_meaning.specs.Instances.{Instance, cells_of, cell_count};
ghost use Rattle.cx_meaning.specs.Rows.{side_of};
ghost use Rattle.cx_rules.specs.Ports.{component_of};
ghost use Rattle.cx_design.specs.PlainDesigns.{plain_design};
ghost use Rattle.cx_design_leads.specs.Nodes.{IsNodesOf, node_count};
ghost use Rattle.cx_design_leads.specs.Links.{OfCell, OfCells, OfPort, OfPorts, ToInputs};
ghost use Rattle.cx_design_parts.specs.Outputs.{is_combinational};

use crate::assigns::add_port;
use crate::numbering::{Nodes, narrow};
use cx_cells::Primitive;
use cx_design::{Design, PortRef};
use cx_design_parts::output_laws::outputs_read_first;
use cx_design_parts::{At, component, read_count, side, stands_at};
use cx_prim::{Cycle, Side};
use cx_text::Memory;

/// Adds the edges of all cells.
pub fn add_cells(
    graph: &mut Vec<Vec<u32>>,
    design: &Design,
    number: usize,
    nodes: &Nodes,
) -> Result<(), Memory>
    requires within { number < length design.now.components.items }
    requires nodes { IsNodesOf (component_of (plain_design design.now) number) nodes.now }
    requires graph { length graph.old.items ≡ node_count (component_of (plain_design design.now) number) }
    ensures value { OnOk result (let i = component_of (plain_design design.now) number in
        Adds (edges_of graph.old.items) (OfCells i (cell_count (cells_of i))) (edges_of graph.new.items)) }
{
    for cell in 0..component(design, number).cells.len() {
        let cell_number = narrow(cell)?;
        add_cell(graph, design, number, nodes, cell_number)?;
    }
    Ok(())
}

/// Adds the edges of a cell.
fn add_cell(
    graph: &mut Vec<Vec<u32>>,
    design: &Design,
    number: usize,
    nodes: &Nodes,
    cell: u32,
) -> Result<(), Memory>
    requires within { number < length design.now.components.items }
    requires nodes { IsNodesOf (component_of (plain_design design.now) number) nodes.now }
    requires graph { length graph.old.items ≡ node_count (component_of (plain_design design.now) number) }
    ensures value { OnOk result (Adds (edges_of graph.old.items)
        (OfCell (component_of (plain_design design.now) number) cell) (edges_of graph.new.items)) }
{
    match stands_at(design, number, cell) {
        At::Primitive(primitive) => {
            add_outputs(graph, design, number, nodes, cell, primitive)?;
            Ok(())
        }
        At::Nothing => Ok(()),
        At::Part(_) => Ok(()),
    }
}

/// Adds the edges of the outputs of a primitive's cell.
fn add_outputs(
    graph: &mut Vec<Vec<u32>>,
    design: &Design,
    number: usize,
    nodes: &Nodes,
    cell: u32,
    primitive: &Primitive,
) -> Result<(), Memory>
    requires within { number < length design.now.components.items }
    requires nodes { IsNodesOf (component_of (plain_design design.now) number) nodes.now }
    requires graph { length graph.old.items ≡ node_count (component_of (plain_design design.now) number) }
    ensures value { OnOk result (Adds (edges_of graph.old.items)
        (OfPorts (component_of (plain_design design.now) number) cell (row_of primitive.now)
        (length (row_of primitive.now).ports)) (edges_of graph.new.items)) }
{
    for port in 0..primitive.port_count() {
        let port_number = narrow(port)?;
        add_output(graph, design, number, nodes, cell, primitive, port_number)?;
    }
    Ok(())
}

/// Adds the edges of a port of a primitive's cell, where it is a combinational output.
fn add_output(
    graph: &mut Vec<Vec<u32>>,
    design: &Design,
    number: usize,
    nodes: &Nodes,
    cell: u32,
    primitive: &Primitive,
    port: u32,
) -> Result<(), Memory>
    requires within { number < length design.now.components.items }
    requires nodes { IsNodesOf (component_of (plain_design design.now) number) nodes.now }
    requires graph { length graph.old.items ≡ node_count (component_of (plain_design design.now) number) }
    ensures value { OnOk result (Adds (edges_of graph.old.items)
        (OfPort (component_of (plain_design design.now) number) cell (row_of primitive.now) port)
        (edges_of graph.new.items)) }
{
    outputs_read_first();
    if !is_output(primitive, port) {
        return Ok(());
    }
    match nodes.node(PortRef::Cell(cell, port)) {
        Some(from) => {
            let count = narrow(read_count(primitive))?;
            add_inputs(graph, nodes, from, cell, count)?;
            Ok(())
        }
        None => Ok(()),
    }
}

/// Whether a port is a combinational output.
fn is_output(primitive: &Primitive, port: u32) -> bool
    ensures value { result ≡ is_combinational (side_of (row_of primitive.now) port) }
{
    match side(primitive, port) {
        Side::Output => true,
        Side::Enable | Side::Plain | Side::Registered => false,
    }
}

/// Adds edges from a node to the first ports of a cell.
fn add_inputs(
    graph: &mut Vec<Vec<u32>>,
    nodes: &Nodes,
    from: u32,
    cell: u32,
    count: u32,
) -> Result<(), Memory>
    requires from { from < length graph.old.items }
    ensures value { OnOk result ((i : Instance) → IsNodesOf i nodes.now →
        Adds (edges_of graph.old.items) (ToInputs i from cell count) (edges_of graph.new.items)) }
{
    for input in 0..count {
        add_port(graph, nodes, from, PortRef::Cell(cell, input))?;
    }
    Ok(())
}
