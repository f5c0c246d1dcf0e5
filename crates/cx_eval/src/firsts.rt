//! The nodes that the turns of an instance ask for, found before any run.

ghost use Rattle.std.specs.Prelude.{◌≡◌, ◌<◌, ◌^◌, IfOk, List, length};
ghost use Rattle.cx_design.specs.PlainDesigns.{plain_design};
ghost use Rattle.cx_meaning.specs.Designs.{PlainDesign};
ghost use Rattle.cx_rules.specs.Wellformed.{IsDesign};
ghost use Rattle.cx_state.specs.declared.tables.InstanceRow.{InstanceRow};
ghost use Rattle.cx_state.specs.Tables.{IsTable};
ghost use Rattle.cx_eval_network.specs.Nodes.{IsNodesOf, node_at};
ghost use Rattle.cx_eval.specs.Firsts.{AreFirsts, HaveFirsts, or_zero};

use cx_design::{Design, PortRef};
use cx_design_parts::component;
use cx_eval_network::Nodes;
use cx_state::InstanceTable;
use cx_text::Memory;
use std::alloc::Global;

/// The node of a port of an instance; 0 where it has none.
fn node_or_zero(nodes: &Nodes, instance: usize, port: PortRef) -> usize
    ensures value { (d : PlainDesign) (rows : List InstanceRow) → IsNodesOf d rows nodes.now →
        instance < length rows → result ≡ or_zero (node_at d rows instance port) }
{
    match nodes.node(instance, port) {
        Some(node) => node,
        None => 0,
    }
}

/// The nodes of the first ports of so many cells of an instance, by the numbers of these; 0 for a cell without a port.
fn first_nodes(
    alloc: Global,
    nodes: &Nodes,
    instance: usize,
    count: usize,
) -> Result<Vec<usize>, Memory>
    requires few { count < 2 ^ 32 }
    ensures value { IfOk result (λ firsts. (d : PlainDesign) (rows : List InstanceRow) →
        IsNodesOf d rows nodes.now → instance < length rows → AreFirsts d rows instance count firsts.items) }
{
    let mut firsts = Vec::new(alloc);
    for cell in 0..count {
        let port = PortRef::Cell(cell as u32, 0);
        firsts.push(node_or_zero(nodes, instance, port))?;
    }
    Ok(firsts)
}

/// Those of each instance of the table of a design that is numbered.
pub(crate) fn all_firsts(
    alloc: Global,
    design: &Design,
    table: &InstanceTable,
    nodes: &Nodes,
) -> Result<Vec<Vec<usize>>, Memory>
    requires design { IsDesign (plain_design design.now) }
    requires table { IsTable (plain_design design.now) table.now.rows.items table.now.children.items }
    requires numbered { IsNodesOf (plain_design design.now) table.now.rows.items nodes.now }
    ensures value { IfOk result (λ firsts.
        HaveFirsts (plain_design design.now) table.now.rows.items firsts.items) }
{
    let mut firsts = Vec::new(alloc);
    for instance in 0..table.rows.len() {
        let part = component(design, table.rows[instance].component as usize);
        firsts.push(first_nodes(alloc, nodes, instance, part.cells.len())?)?;
    }
    Ok(firsts)
}
