//! The ports of a component that show counts, and the outputs that carry them up.

ghost use Rattle.std.specs.Prelude.{◌≡◌, ◌*◌, ◌+◌, ◌++◌, ℕ, IfOk, length, map};
ghost use Rattle.cx_design.specs.PlainForms.{plain_assigns, plain_cell, plain_component, plain_kind};
ghost use Rattle.cx_design.specs.PlainDesigns.{plain_design};
ghost use Rattle.cx_profile.specs.Renumbering.{AreGained, AreThere, IsThereKind};
ghost use Rattle.cx_profile.specs.Growing as growing;

use crate::counters::{drive, name_again};
use crate::renumbering::first_gained;
use cx_design::{Assign, Cell, CellKind, Component, Design, PortDecl, PortRef};
use cx_design_copies::{number, sum};
use cx_text::{Memory, Name, Place};
use std::alloc::Global;

/// The ports of so many registers, the first of them at a cell.
fn register_ports(alloc: Global, first: u32, count: u32) -> Result<Vec<PortRef>, Memory>
    ensures value { IfOk result (λ ports. ports.items ≡ growing.register_ports first count) }
{
    let mut ports = Vec::new(alloc);
    for number in 0..count {
        let register = sum(first, sum(number, number)?)?;
        ports.push(PortRef::Cell(register, 2))?;
    }
    Ok(ports)
}

/// Appends so many ports of a cell, from one on.
fn with_ports_from(
    ports: Vec<PortRef>,
    cell: u32,
    first: u32,
    count: u32,
) -> Result<Vec<PortRef>, Memory>
    ensures value { IfOk result (λ all. all.items ≡ ports.items ++ growing.ports_from cell first count) }
{
    let mut all = ports;
    for number in 0..count {
        all.push(PortRef::Cell(cell, sum(first, number)?))?;
    }
    Ok(all)
}

/// Appends the outputs of a cell that its component gains.
fn with_kind_ports(
    ports: Vec<PortRef>,
    design: &Design,
    gained: &[u32],
    cell: u32,
    kind: &CellKind,
) -> Result<Vec<PortRef>, Memory>
    requires there { IsThereKind (length design.now.components.items) (plain_kind kind.now) }
    requires gained { AreGained (plain_design design.now) gained.now }
    ensures value { IfOk result (λ all.
        all.items ≡ ports.items ++ growing.kind_ports (plain_design design.now) cell (plain_kind kind.now)) }
{
    match kind {
        CellKind::Prim(_) => Ok(ports),
        CellKind::Part(component) => {
            let child = *component as usize;
            let first = first_gained(&design.components.as_slice()[child])?;
            with_ports_from(ports, cell, first, gained[child])
        }
    }
}

/// Appends the outputs that the components of cells gain, in the order of the cells.
fn with_cell_ports(
    ports: Vec<PortRef>,
    design: &Design,
    gained: &[u32],
    cells: &[Cell],
) -> Result<Vec<PortRef>, Memory>
    requires there { AreThere (length design.now.components.items) (map plain_cell cells.now) }
    requires gained { AreGained (plain_design design.now) gained.now }
    ensures value { IfOk result (λ all.
        all.items ≡ ports.items ++ growing.cell_ports (plain_design design.now) 0 (map plain_cell cells.now)) }
{
    let mut all = ports;
    let mut number = 0u32;
    for cell in cells {
        all = with_kind_ports(all, design, gained, number, &cell.kind)?;
        number = sum(number, 1)?;
    }
    Ok(all)
}

/// The port of each count of a component and all below it: the registers of its own counters, then, in cell order, the outputs that
/// the components of its cells gain.
pub(crate) fn shown_ports(
    alloc: Global,
    design: &Design,
    gained: &[u32],
    part: &Component,
    own: u32,
) -> Result<Vec<PortRef>, Memory>
    requires there { AreThere (length design.now.components.items) (map plain_cell part.now.cells.items) }
    requires gained { AreGained (plain_design design.now) gained.now }
    ensures value { IfOk result (λ ports.
        ports.items ≡ growing.shown_ports (plain_design design.now) (plain_component part.now) own) }
{
    let first = number(part.cells.len())?;
    let ports = register_ports(alloc, first, own)?;
    with_cell_ports(ports, design, gained, &part.cells)
}

/// Appends so many outputs of 64 bits, with the names behind those of so many counters.
pub(crate) fn with_outputs(
    alloc: Global,
    outputs: Vec<PortDecl>,
    names: &[Name],
    own: u32,
    count: u32,
) -> Result<Vec<PortDecl>, Memory>
    ensures value { IfOk result (λ all. all.items ≡ outputs.items ++ growing.new_outputs names.now (2 * own) count) }
{
    let mut all = outputs;
    let first = 2 * own as usize;
    for number in 0..count {
        let name = name_again(alloc, names, first + number as usize)?;
        all.push(PortDecl { name, width: 64 })?;
    }
    Ok(all)
}

/// Appends the assignments that drive outputs by these ports, from an output on.
pub(crate) fn with_output_assigns(
    always: Vec<Assign>,
    place: Place,
    first: u32,
    ports: &[PortRef],
) -> Result<Vec<Assign>, Memory>
    ensures value { IfOk result (λ all.
        plain_assigns all.items ≡ plain_assigns always.items ++ growing.port_assigns place first ports.now) }
{
    let mut all = always;
    let mut output = first;
    for port in ports {
        all.push(drive(place, PortRef::Output(output), *port))?;
        output = sum(output, 1)?;
    }
    Ok(all)
}
