//! On which cells the combinational outputs of each cell wait.

ghost use Rattle.std.specs.Prelude.{◌≡◌, ◌<◌, Some, IfOk, OnOk, flat_map, length, map};
ghost use Rattle.cx_rules.specs.Ports.{component_of};
ghost use Rattle.cx_meaning.specs.Instances.{cell_count, cells_of};
ghost use Rattle.cx_design.specs.PlainForms.{plain_assign, plain_assigns, plain_group};
ghost use Rattle.cx_design.specs.PlainDesigns.{plain_design};
ghost use Rattle.cx_graphs.specs.Graphs.{edges_of};
ghost use Rattle.cx_shape_state.specs.Waits as waits;
ghost use Rattle.cx_shape_state.specs.Waits.{always_waits, group_waits, waits_on};
ghost use Rattle.cx_shape_state.specs.Joining.{IsWithin, joined, with_edges};

use crate::basis::{Basis, basis_of, reader};
use cx_design::{Assign, Design, Group, PlacedPort};
use cx_design_parts::{component, operands};
use cx_graphs::{add_link, no_edges};
use cx_text::Memory;
use std::alloc::Global;

/// The graph that leads from each cell to those on which its combinational outputs wait, where signature inputs rest on
/// state or never rest.
pub fn waits(
    alloc: Global,
    design: &Design,
    number: usize,
    inputs: bool,
) -> Result<Vec<Vec<usize>>, Memory>
    requires within { number < length design.now.components.items }
    ensures value { IfOk result
        (λ graph. edges_of graph.items ≡ waits.waits (component_of (plain_design design.now) number) inputs) }
{
    let part = component(design, number);
    let mut graph = no_edges(alloc, part.cells.len())?;
    add_always(
        alloc,
        &mut graph,
        design,
        number,
        inputs,
        part.always.as_slice(),
    )?;
    add_groups(&mut graph, design, number, part.groups.as_slice())?;
    Ok(graph)
}

/// Adds what continuous assignments have cells wait for.
fn add_always(
    alloc: Global,
    graph: &mut Vec<Vec<usize>>,
    design: &Design,
    number: usize,
    inputs: bool,
    assigns: &[Assign],
) -> Result<(), Memory>
    requires within { number < length design.now.components.items }
    requires count { length graph.old.items ≡ cell_count (cells_of (component_of (plain_design design.now) number)) }
    ensures count { OnOk result (length graph.new.items ≡ length graph.old.items) }
    ensures value { IfOk result (λ _. let i = component_of (plain_design design.now) number in
        edges_of graph.new.items ≡ joined (edges_of graph.old.items) 0
        (λ c. flat_map (always_waits i inputs c) (plain_assigns assigns.now))) }
{
    for assign in assigns {
        add_assign(alloc, graph, design, number, inputs, assign)?;
    }
    Ok(())
}

/// Adds what a continuous assignment has a cell wait for.
fn add_assign(
    alloc: Global,
    graph: &mut Vec<Vec<usize>>,
    design: &Design,
    number: usize,
    inputs: bool,
    assign: &Assign,
) -> Result<(), Memory>
    requires within { number < length design.now.components.items }
    requires count { length graph.old.items ≡ cell_count (cells_of (component_of (plain_design design.now) number)) }
    ensures count { OnOk result (length graph.new.items ≡ length graph.old.items) }
    ensures value { IfOk result (λ _. let i = component_of (plain_design design.now) number in
        edges_of graph.new.items ≡
        joined (edges_of graph.old.items) 0 (λ c. always_waits i inputs c (plain_assign assign.now))) }
{
    let Some(cell) = reader(design, number, assign.target) else {
        return Ok(());
    };
    let operands = operands(alloc, &assign.guard)?;
    add_wait(
        graph,
        cell,
        basis_of(design, number, inputs, assign.source.port),
    )?;
    add_waits(graph, design, number, inputs, cell, operands.as_slice())?;
    Ok(())
}

/// Adds that a cell waits for some ports.
fn add_waits(
    graph: &mut Vec<Vec<usize>>,
    design: &Design,
    number: usize,
    inputs: bool,
    cell: usize,
    ports: &[PlacedPort],
) -> Result<(), Memory>
    requires within { number < length design.now.components.items }
    requires cell { cell < length graph.old.items }
    ensures count { OnOk result (length graph.new.items ≡ length graph.old.items) }
    ensures value { IfOk result (λ _. let i = component_of (plain_design design.now) number in
        edges_of graph.new.items ≡ with_edges (edges_of graph.old.items) cell
        (flat_map (λ p. waits_on cell (waits.basis_of i inputs p.port)) ports.now)) }
{
    for port in ports {
        add_wait(graph, cell, basis_of(design, number, inputs, port.port))?;
    }
    Ok(())
}

/// Adds that a cell waits for a port that rests on something.
fn add_wait(graph: &mut Vec<Vec<usize>>, cell: usize, basis: Basis) -> Result<(), Memory>
    requires cell { cell < length graph.old.items }
    ensures count { OnOk result (length graph.new.items ≡ length graph.old.items) }
    ensures value { IfOk result
        (λ _. edges_of graph.new.items ≡ with_edges (edges_of graph.old.items) cell (waits_on cell basis)) }
{
    match basis {
        Basis::State => Ok(()),
        Basis::Nothing => {
            add_link(graph, cell, cell)?;
            Ok(())
        }
        Basis::Cell(other) => {
            add_link(graph, cell, other)?;
            Ok(())
        }
    }
}

/// Has the cells wait on themselves that a group drives.
fn add_groups(
    graph: &mut Vec<Vec<usize>>,
    design: &Design,
    number: usize,
    groups: &[Group],
) -> Result<(), Memory>
    requires within { number < length design.now.components.items }
    requires count { length graph.old.items ≡ cell_count (cells_of (component_of (plain_design design.now) number)) }
    ensures value { IfOk result (λ _. let i = component_of (plain_design design.now) number in
        edges_of graph.new.items ≡ joined (edges_of graph.old.items) 0
        (λ c. flat_map (λ g. flat_map (group_waits i c) g.assigns) (map plain_group groups.now))) }
{
    for group in groups {
        add_group(graph, design, number, group.assigns.as_slice())?;
    }
    Ok(())
}

fn add_group(
    graph: &mut Vec<Vec<usize>>,
    design: &Design,
    number: usize,
    assigns: &[Assign],
) -> Result<(), Memory>
    requires within { number < length design.now.components.items }
    requires count { length graph.old.items ≡ cell_count (cells_of (component_of (plain_design design.now) number)) }
    ensures count { OnOk result (length graph.new.items ≡ length graph.old.items) }
    ensures value { IfOk result (λ _. let i = component_of (plain_design design.now) number in
        edges_of graph.new.items ≡
        joined (edges_of graph.old.items) 0 (λ c. flat_map (group_waits i c) (plain_assigns assigns.now))) }
{
    for assign in assigns {
        add_driven(graph, design, number, assign)?;
    }
    Ok(())
}

/// Has the cell wait on itself whose outputs read the target of an assignment in a group.
fn add_driven(
    graph: &mut Vec<Vec<usize>>,
    design: &Design,
    number: usize,
    assign: &Assign,
) -> Result<(), Memory>
    requires within { number < length design.now.components.items }
    requires count { length graph.old.items ≡ cell_count (cells_of (component_of (plain_design design.now) number)) }
    ensures count { OnOk result (length graph.new.items ≡ length graph.old.items) }
    ensures value { IfOk result (λ _. let i = component_of (plain_design design.now) number in
        edges_of graph.new.items ≡
        joined (edges_of graph.old.items) 0 (λ c. group_waits i c (plain_assign assign.now))) }
{
    let Some(cell) = reader(design, number, assign.target) else {
        return Ok(());
    };
    add_link(graph, cell, cell)?;
    Ok(())
}
