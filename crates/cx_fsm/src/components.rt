//! The net of a component.

ghost use Rattle.std.specs.Prelude.{◌≡◌, ◌+◌, ◌-◌, ◌++◌, IfOk, length, map, replicate};
ghost use Rattle.cx_design.specs.PlainForms.{plain_cell};
ghost use Rattle.cx_net.specs.PlainNets.{plain_net_component, plain_net_drivers};
ghost use Rattle.cx_static.specs.PlainLowered.{plain_lowered, plain_lowereds};
ghost use Rattle.cx_wiring.specs.Reached.{order};
ghost use Rattle.cx_wiring.specs.Trees.{tree_widths, trees};
ghost use Rattle.cx_wiring.specs.Wiring as wired;

use crate::assigns::{assigns_drivers, driven_assigns};
use crate::control::control_drivers;
use crate::copies::ordered_cells;
use crate::drafts::Draft;
use crate::numbers::{beyond, number_of};
use crate::plans::plan_of;
use crate::registers::{add_widths, control_registers};
use crate::trees::{Trees, add_trees, by_target};
use crate::widths::Widths;
use cx_design::{Cell, Component, PortDecl};
use cx_net::{NetComponent, NetDriver};
use cx_static::{Lowered, LoweredComponent, copied_name, copied_ports};
use cx_text::{Memory, Name};
use std::alloc::Global;

/// The net of a component of a design whose components have the numbers of an order.
pub(crate) fn net_component(
    alloc: Global,
    design: &Lowered,
    numbers: &[u32],
    component: &LoweredComponent,
) -> Result<NetComponent, Memory>
    requires { numbers.now ≡ order (plain_lowereds design.now) }
    ensures value { IfOk result (λ c.
        plain_net_component c ≡ wired.net_component (plain_lowereds design.now) (plain_lowered component.now)) }
{
    let holes = holes_of(component)?;
    let registers = control_registers(alloc, &component.islands, &component.part.control)?;
    let (wires, drivers) = wires_and_drivers(alloc, design, component, &registers)?;
    let face = face_of(alloc, numbers, &component.part)?;
    Ok(NetComponent {
        name: face.name,
        inputs: face.inputs,
        outputs: face.outputs,
        cells: face.cells,
        registers,
        wires,
        holes,
        drivers,
    })
}

/// The name, the ports and the cells of a component, as its net has them.
#[derive(Drop)]
struct Face {
    name: Name,
    inputs: Vec<PortDecl>,
    outputs: Vec<PortDecl>,
    cells: Vec<Cell>,
}

/// The name, the ports and the cells of a component, in a net whose components have the numbers of an order.
fn face_of(alloc: Global, numbers: &[u32], part: &Component) -> Result<Face, Memory>
    ensures name { IfOk result (λ face. face.name ≡ part.now.name) }
    ensures inputs { IfOk result (λ face. face.inputs.items ≡ part.now.inputs.items) }
    ensures outputs { IfOk result (λ face. face.outputs.items ≡ part.now.outputs.items) }
    ensures cells { IfOk result (λ face. map plain_cell face.cells.items ≡
        map (wired.cell_in numbers.now) (map plain_cell part.now.cells.items)) }
{
    Ok(Face {
        name: copied_name(alloc, &part.name)?,
        inputs: copied_ports(alloc, part.inputs.as_slice())?,
        outputs: copied_ports(alloc, part.outputs.as_slice())?,
        cells: ordered_cells(alloc, numbers, part.cells.as_slice())?,
    })
}

/// How many holes a component has: two for each group.
fn holes_of(component: &LoweredComponent) -> Result<u32, Memory>
    ensures value { IfOk result (λ holes.
        holes ≡ wired.groups (plain_lowered component.now) + wired.groups (plain_lowered component.now)) }
{
    let groups = number_of(component.part.groups.len())?;
    beyond(groups, groups)
}

/// The widths of all wires of a component with these registers, and all its drivers.
fn wires_and_drivers(
    alloc: Global,
    design: &Lowered,
    component: &LoweredComponent,
    registers: &[u8],
) -> Result<(Vec<u8>, Vec<NetDriver>), Memory>
    requires { registers.now ≡ wired.component_registers (plain_lowered component.now) }
    ensures wires { let lowered = plain_lowered component.now in
        let widths = wired.target_width (plain_lowereds design.now) lowered in
        IfOk result (λ r.
        r.0.items ≡ wired.plain_wires lowered ++ tree_widths widths (wired.component_driven lowered)) }
    ensures drivers { let lowered = plain_lowered component.now in
        IfOk result (λ r. plain_net_drivers r.1.items ≡
        trees (length (wired.plain_wires lowered)) (wired.component_driven lowered)) }
{
    let (drivers, first) = plain_drivers(alloc, component)?;
    let drivers = by_target(drivers)?;
    let mut wires = plain_wires(alloc, component.part.groups.len(), first as usize)?;
    let widths = Widths {
        design,
        component,
        registers,
        wires: &wires,
    };
    let mut trees = Trees::new(alloc, first);
    add_trees(&mut trees, &widths, drivers);
    wires.extend_from_slice(&trees.widths)?;
    Ok((wires, trees.draft.finished()?))
}

/// The drivers of a component before any tree is made, and the first wire behind those of them.
fn plain_drivers(
    alloc: Global,
    component: &LoweredComponent,
) -> Result<(Vec<NetDriver>, u32), Memory>
    ensures drivers { IfOk result (λ r. plain_net_drivers r.0.items ≡ wired.plain_drivers (plain_lowered component.now)) }
    ensures wires { IfOk result (λ r. r.1 ≡ length (wired.plain_wires (plain_lowered component.now))) }
{
    let plan = plan_of(alloc, component)?;
    let assigns = driven_assigns(alloc, component)?;
    let mut draft = Draft::new(alloc);
    let wire = control_drivers(&mut draft, &plan, &component.part.control);
    let first = assigns_drivers(&mut draft, plan.groups, wire, &assigns);
    Ok((draft.finished()?, first))
}

/// The widths of so many wires, of which the first ones are the offsets of groups.
fn plain_wires(alloc: Global, groups: usize, wires: usize) -> Result<Vec<u8>, Memory>
    ensures value { IfOk result (λ widths. widths.items ≡ replicate groups 32 ++ replicate (wires - groups) 1) }
{
    let mut widths = Vec::with_capacity(alloc, wires)?;
    add_widths(&mut widths, groups, 32)?;
    add_widths(&mut widths, wires.saturating_sub(groups), 1)?;
    Ok(widths)
}
