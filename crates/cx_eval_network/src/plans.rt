//! Plans of the ports of components, made before any run.

ghost use Rattle.std.specs.Prelude.{◌≡◌, ◌<◌, IfOk, Some, length, slice_get};
ghost use Rattle.cx_prim.specs.Table.{row_of};
ghost use Rattle.cx_meaning.specs.declared.ports.PortRef.TheVariants.{Cell};
ghost use Rattle.cx_meaning.specs.Rows.{side_of};
ghost use Rattle.cx_design.specs.PlainDesigns.{plain_design};
ghost use Rattle.cx_design_parts.specs.Cells.{plain_part_port};
ghost use Rattle.cx_design_leads.specs.Nodes.{node_count, node_of};
ghost use Rattle.cx_eval_network.specs.Nodes.{HaveParts};
ghost use Rattle.cx_eval_network.specs.Parts.{ArePorts};
ghost use Rattle.cx_eval_network.specs.Plans.{ArePlans, HavePlans, IsPlanOf, IsPlannedPart, assigned, instance_of, part_decides, planned, side_decides};

use crate::apart::bit_seen;
use crate::parts::PartNodes;
use crate::planned::{DrivenPlan, PartPlans, PortPlan};
use crate::planning::planned_assigns;
use cx_cells::Primitive;
use cx_design::{Design, PortRef, Seen};
use cx_design_leads::Nodes as PartNumbers;
use cx_design_parts::{At, PartPort, part_port, read_count, side, stands_at};
use cx_eval_drives::Drivers;
use cx_prim::Side;
use cx_text::Memory;
use std::alloc::Global;

/// A component of a design, with the numbers of its ports and what drives them.
#[derive(Clone, Copy)]
pub struct PlannedPart<'p, 'a> {
    pub design: &'a Design,
    pub component: usize,
    pub numbers: &'p PartNumbers,
    pub drivers: &'p Drivers<'a>,
}

/// The plans of the ports of each component.
pub fn all_plans(
    alloc: Global,
    design: &Design,
    parts: &[PartNodes],
) -> Result<Vec<PartPlans>, Memory>
    requires parts { HaveParts (plain_design design.now) parts.now }
    ensures value { IfOk result (λ plans. HavePlans (plain_design design.now) plans.items) }
{
    let drivers = Drivers::new(alloc, design)?;
    let mut plans = Vec::new(alloc);
    for component in 0..parts.len() {
        let part = PlannedPart {
            design,
            component,
            numbers: &parts[component].numbers,
            drivers: &drivers,
        };
        let ports = part_plans(alloc, &part, parts[component].ports.as_slice())?;
        plans.push(PartPlans { ports })?;
    }
    Ok(plans)
}

/// Those of the ports of a component, in the order of their numbers.
fn part_plans(
    alloc: Global,
    part: &PlannedPart<'_, '_>,
    ports: &[PortRef],
) -> Result<Vec<PortPlan>, Memory>
    requires part { IsPlannedPart part.now }
    requires ports { ArePorts (instance_of part.now) (node_count (instance_of part.now)) ports.now }
    ensures value { IfOk result (λ plans. ArePlans (instance_of part.now) plans.items) }
{
    let mut plans = Vec::new(alloc);
    for number in 0..ports.len() {
        let port = port_at(ports, number);
        plans.push(plan_of(alloc, part, port, number)?)?;
    }
    Ok(plans)
}

/// The port of a number.
fn port_at(ports: &[PortRef], number: usize) -> PortRef
    requires within { number < length ports.now }
    ensures value { slice_get ports.now number ≡ Some result }
{
    ports[number]
}

/// The plan of a port, by its number.
fn plan_of(
    alloc: Global,
    part: &PlannedPart<'_, '_>,
    port: PortRef,
    number: usize,
) -> Result<PortPlan, Memory>
    requires part { IsPlannedPart part.now }
    requires number { node_of (instance_of part.now) port ≡ Some number }
    ensures value { IfOk result (IsPlanOf (instance_of part.now) port) }
{
    match port {
        PortRef::Cell(cell, port) => cell_plan(alloc, part, cell, port, number),
        PortRef::Output(_) => driven_plan(alloc, part, port, number, Seen::Undefined),
        PortRef::Done(_) => driven_plan(alloc, part, port, number, bit_seen(false)),
        PortRef::Input(_) | PortRef::Literal(_, _) => Ok(PortPlan::Apart),
    }
}

/// The plan of a port of a cell.
fn cell_plan(
    alloc: Global,
    part: &PlannedPart<'_, '_>,
    cell: u32,
    port: u32,
    number: usize,
) -> Result<PortPlan, Memory>
    requires part { IsPlannedPart part.now }
    requires number { node_of (instance_of part.now) (Cell cell port) ≡ Some number }
    ensures value { IfOk result (IsPlanOf (instance_of part.now) (Cell cell port)) }
{
    match stands_at(part.design, part.component, cell) {
        At::Nothing => Ok(PortPlan::Apart),
        At::Primitive(primitive) => primitive_plan(alloc, part, cell, primitive, port, number),
        At::Part(component) => {
            component_plan(alloc, part, cell, port, part_port(component, port), number)
        }
    }
}

/// The plan of a port of a primitive.
fn primitive_plan(
    alloc: Global,
    part: &PlannedPart<'_, '_>,
    cell: u32,
    primitive: &Primitive,
    port: u32,
    number: usize,
) -> Result<PortPlan, Memory>
    requires part { IsPlannedPart part.now }
    requires number { node_of (instance_of part.now) (Cell cell port) ≡ Some number }
    ensures value { IfOk result (λ plan. planned plan ≡
        side_decides (instance_of part.now) (Cell cell port) (row_of primitive.now)
        (side_of (row_of primitive.now) port)) }
{
    let own = PortRef::Cell(cell, port);
    match side(primitive, port) {
        Side::Enable => driven_plan(alloc, part, own, number, bit_seen(false)),
        Side::Plain => driven_plan(alloc, part, own, number, Seen::Undefined),
        Side::Output => Ok(PortPlan::Output(read_count(primitive))),
        Side::Registered => Ok(PortPlan::Output(0)),
    }
}

/// The plan of a port of a component cell.
fn component_plan(
    alloc: Global,
    part: &PlannedPart<'_, '_>,
    cell: u32,
    port: u32,
    kind: PartPort,
    number: usize,
) -> Result<PortPlan, Memory>
    requires part { IsPlannedPart part.now }
    requires number { node_of (instance_of part.now) (Cell cell port) ≡ Some number }
    ensures value { IfOk result
        (λ plan. planned plan ≡ part_decides (instance_of part.now) (Cell cell port) (plain_part_port kind)) }
{
    let own = PortRef::Cell(cell, port);
    match kind {
        PartPort::Go => driven_plan(alloc, part, own, number, bit_seen(false)),
        PartPort::Input(_) => driven_plan(alloc, part, own, number, Seen::Undefined),
        PartPort::Output(_) | PartPort::Done => Ok(PortPlan::Apart),
    }
}

/// The plan of a port that the assignments to it decide.
fn driven_plan(
    alloc: Global,
    part: &PlannedPart<'_, '_>,
    port: PortRef,
    number: usize,
    undriven: Seen,
) -> Result<PortPlan, Memory>
    requires part { IsPlannedPart part.now }
    requires number { node_of (instance_of part.now) port ≡ Some number }
    ensures value { IfOk result (λ plan. planned plan ≡ assigned (instance_of part.now) port undriven) }
{
    let assigns = part.drivers.assigns_of(part.component, number);
    let assigns = planned_assigns(alloc, part, assigns)?;
    Ok(PortPlan::Driven(DrivenPlan { assigns, undriven }))
}
