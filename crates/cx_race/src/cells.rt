//! The cells that groups drive and name, and those of conditions.

ghost use Rattle.std.specs.Prelude.{◌≡◌, ◌++◌, IfOk, flat_map, map};
ghost use Rattle.cx_graphs.specs.Graphs.{edges_of};
ghost use Rattle.cx_design.specs.PlainForms.{plain_assign, plain_assigns, plain_group, plain_statement};
ghost use Rattle.cx_race.specs.Cells.{cell_in, cells_in_group, driven_in, named_in, named_in_all, port_cell, targets_in_group, tested_by};

use crate::forms::tests;
use cx_design::{Assign, Group, PlacedPort, PortRef, Statement};
use cx_design_parts::operands;
use cx_text::Memory;
use std::alloc::Global;

/// The cells of a statement's conditions.
pub fn tested(alloc: Global, statement: &Statement) -> Result<Vec<u32>, Memory>
    ensures value { IfOk result (λ cells. cells.items ≡ tested_by (plain_statement statement.now)) }
{
    let tests = tests(alloc, statement)?;
    let mut cells = Vec::new(alloc);
    add_ports(&mut cells, tests.as_slice())?;
    Ok(cells)
}

/// For each group the cells that it drives.
pub fn driven(alloc: Global, groups: &[Group]) -> Result<Vec<Vec<u32>>, Memory>
    ensures value { IfOk result (λ lists. edges_of lists.items ≡ map targets_in_group (map plain_group groups.now)) }
{
    let mut lists = Vec::new(alloc);
    for group in groups {
        lists.push(driven_by(alloc, group)?)?;
    }
    Ok(lists)
}

/// For each group the cells that it drives or names.
pub fn named(alloc: Global, groups: &[Group]) -> Result<Vec<Vec<u32>>, Memory>
    ensures value { IfOk result (λ lists. edges_of lists.items ≡ map cells_in_group (map plain_group groups.now)) }
{
    let mut lists = Vec::new(alloc);
    for group in groups {
        lists.push(named_by(alloc, group)?)?;
    }
    Ok(lists)
}

fn driven_by(alloc: Global, group: &Group) -> Result<Vec<u32>, Memory>
    ensures value { IfOk result (λ cells. cells.items ≡ targets_in_group (plain_group group.now)) }
{
    let mut cells = Vec::new(alloc);
    add_targets(&mut cells, group.assigns.as_slice())?;
    Ok(cells)
}

fn named_by(alloc: Global, group: &Group) -> Result<Vec<u32>, Memory>
    ensures value { IfOk result (λ cells. cells.items ≡ cells_in_group (plain_group group.now)) }
{
    let mut cells = driven_by(alloc, group)?;
    add_assigns(alloc, &mut cells, group.assigns.as_slice())?;
    Ok(cells)
}

/// Adds the cells that assignments look at.
pub fn add_assigns(alloc: Global, cells: &mut Vec<u32>, assigns: &[Assign]) -> Result<(), Memory>
    ensures value { IfOk result (λ _. cells.new.items ≡ cells.old.items ++ named_in_all (plain_assigns assigns.now)) }
{
    for assign in assigns {
        add_named(alloc, cells, assign)?;
    }
    Ok(())
}

/// Adds the cells that an assignment looks at.
pub fn add_named(alloc: Global, cells: &mut Vec<u32>, assign: &Assign) -> Result<(), Memory>
    ensures value { IfOk result (λ _. cells.new.items ≡ cells.old.items ++ named_in (plain_assign assign.now)) }
{
    add_port(cells, assign.source.port)?;
    let operands = operands(alloc, &assign.guard)?;
    add_ports(cells, operands.as_slice())
}

/// Adds the cells that assignments drive.
pub fn add_targets(cells: &mut Vec<u32>, assigns: &[Assign]) -> Result<(), Memory>
    ensures value { IfOk result (λ _. cells.new.items ≡ cells.old.items ++ driven_in (plain_assigns assigns.now)) }
{
    for assign in assigns {
        add_port(cells, assign.target)?;
    }
    Ok(())
}

fn add_ports(cells: &mut Vec<u32>, ports: &[PlacedPort]) -> Result<(), Memory>
    ensures value { IfOk result (λ _. cells.new.items ≡ cells.old.items ++ flat_map port_cell ports.now) }
{
    for port in ports {
        add_port(cells, port.port)?;
    }
    Ok(())
}

fn add_port(cells: &mut Vec<u32>, port: PortRef) -> Result<(), Memory>
    ensures value { IfOk result (λ _. cells.new.items ≡ cells.old.items ++ cell_in port) }
{
    match port {
        PortRef::Cell(cell, _) => cells.push(cell)?,
        PortRef::Input(_) | PortRef::Output(_) | PortRef::Done(_) | PortRef::Literal(_, _) => {}
    }
    Ok(())
}
