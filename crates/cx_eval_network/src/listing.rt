//! The lists of the groups of a component, made before any run.

ghost use Rattle.std.specs.Prelude.{◌≡◌, IfOk, OnOk, length, slice_get};
ghost use Rattle.cx_graphs.specs.Graphs.{Bounded, IsGraph, edges_of};
ghost use Rattle.cx_design.specs.PlainDesigns.{plain_design};
ghost use Rattle.cx_eval_network.specs.Lists.{AreGroupPorts, AreListed, ArePartLists, HaveLists};
ghost use Rattle.cx_eval_network.specs.Nodes.{HaveParts};
ghost use Rattle.cx_eval_network.specs.Plans.{HavePlans};

use crate::listed::{GroupList, GroupPorts, ListedPort, PartLists};
use crate::parts::{PartNodes, narrow};
use crate::planned::{PartPlans, PlannedAssign, PlannedPort, PortPlan, port_plan};
use crate::soles::{FEW, found_by};
use cx_design::{Active, Assign, Component, Design, PortRef};
use cx_design_parts::component;
use cx_eval_drives::offset_of;
use cx_graphs::order;
use cx_text::Memory;
use std::alloc::Global;

/// The lists of each component.
pub fn all_lists(
    alloc: Global,
    design: &Design,
    parts: &[PartNodes],
    plans: &[PartPlans],
) -> Result<Vec<PartLists>, Memory>
    requires parts { HaveParts (plain_design design.now) parts.now }
    requires plans { HavePlans (plain_design design.now) plans.now }
    ensures value { IfOk result (λ lists. HaveLists parts.now plans.now lists.items) }
{
    let mut lists = Vec::new(alloc);
    for number in 0..plans.len() {
        let own = part_lists(
            alloc,
            component(design, number),
            &parts[number],
            &plans[number],
        )?;
        lists.push(own)?;
    }
    Ok(lists)
}

/// Those of the groups of a component.
fn part_lists(
    alloc: Global,
    component: &Component,
    part: &PartNodes,
    plans: &PartPlans,
) -> Result<PartLists, Memory>
    ensures value { IfOk result (ArePartLists part.now.ports.items plans.now.ports.items) }
{
    let mut groups = Vec::new(alloc);
    for (number, group) in component.groups.iter().enumerate() {
        let active = Active::Group(narrow(number)?);
        let assigns = group.assigns.as_slice();
        let own = group_ports(alloc, part, plans.ports.as_slice(), &active, assigns)?;
        groups.push(own)?;
    }
    Ok(PartLists { groups })
}

/// The lists of a group.
fn group_ports(
    alloc: Global,
    part: &PartNodes,
    plans: &[PortPlan],
    active: &Active,
    assigns: &[Assign],
) -> Result<GroupPorts, Memory>
    ensures value { IfOk result (AreGroupPorts part.now.ports.items plans.now active.now) }
{
    let hole = ordered_ports(alloc, part, plans, active, assigns, GroupList::Hole)?;
    let others = ordered_ports(alloc, part, plans, active, assigns, GroupList::Others)?;
    Ok(GroupPorts { hole, others })
}

/// One of them. Where its ports rest on one another in a circle, it is empty.
fn ordered_ports(
    alloc: Global,
    part: &PartNodes,
    plans: &[PortPlan],
    active: &Active,
    assigns: &[Assign],
    list: GroupList,
) -> Result<Vec<ListedPort>, Memory>
    ensures value { IfOk result (λ ports. AreListed part.now.ports.items plans.now active.now ports.items) }
{
    let ports = touched_ports(alloc, part, plans, active, assigns, list)?;
    let graph = links(alloc, part, plans, active, ports.as_slice())?;
    match order(alloc, graph.as_slice())? {
        Some(order) => listed_ports(
            alloc,
            part,
            plans,
            active,
            ports.as_slice(),
            order.as_slice(),
        ),
        None => Ok(Vec::new(alloc)),
    }
}

/// The ports of some places, each with how it is found.
fn listed_ports(
    alloc: Global,
    part: &PartNodes,
    plans: &[PortPlan],
    active: &Active,
    numbers: &[usize],
    places: &[u32],
) -> Result<Vec<ListedPort>, Memory>
    ensures value { IfOk result (λ listed. AreListed part.now.ports.items plans.now active.now listed.items) }
{
    let mut listed = Vec::new(alloc);
    for place in places {
        if let Some(number) = numbers.get(*place as usize) {
            add_listed(&mut listed, part, plans, active, *number)?;
        }
    }
    Ok(listed)
}

/// Adds a port with how it is found, where it is there.
fn add_listed(
    listed: &mut Vec<ListedPort>,
    part: &PartNodes,
    plans: &[PortPlan],
    active: &Active,
    number: usize,
) -> Result<(), Memory>
    ensures value { OnOk result (AreListed part.now.ports.items plans.now active.now listed.old.items →
        AreListed part.now.ports.items plans.now active.now listed.new.items) }
{
    if let Some(port) = port_of(part, number) {
        if let Some(plan) = port_plan(plans, number) {
            listed.push(ListedPort {
                number,
                found_by: found_by(active, port, plan),
            })?;
        }
    }
    Ok(())
}

/// The port of a number, where it is there.
fn port_of(part: &PartNodes, number: usize) -> Option<PortRef>
    ensures value { result ≡ slice_get part.now.ports.items number }
{
    part.ports.get(number).copied()
}

/// The ports that a group drives and that belong to a list of it, and those that they rest on at once, each once.
fn touched_ports(
    alloc: Global,
    part: &PartNodes,
    plans: &[PortPlan],
    active: &Active,
    assigns: &[Assign],
    list: GroupList,
) -> Result<Vec<usize>, Memory> {
    let mut found = Vec::new(alloc);
    for assign in assigns {
        if is_in(list, assign.target) {
            add_touched(&mut found, part, plans, active, assign.target)?;
        }
    }
    found.sort_unstable();
    found.dedup();
    Ok(found)
}

/// Whether a driven port belongs to a list.
fn is_in(list: GroupList, target: PortRef) -> bool {
    let is_hole = matches!(target, PortRef::Done(_));
    match list {
        GroupList::Hole => is_hole,
        GroupList::Others => !is_hole,
    }
}

/// Adds a driven port, and those that it rests on at once.
fn add_touched(
    found: &mut Vec<usize>,
    part: &PartNodes,
    plans: &[PortPlan],
    active: &Active,
    target: PortRef,
) -> Result<(), Memory> {
    if let Some(number) = part.numbers.node(target) {
        found.push(number as usize)?;
        add_rests(found, part, plans, active, number as usize)?;
    }
    Ok(())
}

/// Which of some ports rest on which, by their places.
fn links(
    alloc: Global,
    part: &PartNodes,
    plans: &[PortPlan],
    active: &Active,
    ports: &[usize],
) -> Result<Vec<Vec<u32>>, Memory>
    ensures value { IfOk result (λ graph. IsGraph (edges_of graph.items)) }
{
    let mut graph = Vec::new(alloc);
    for number in ports {
        let mut rests = Vec::new(alloc);
        add_rests(&mut rests, part, plans, active, *number)?;
        let places = places_of(alloc, ports, rests.as_slice())?;
        graph.push(places)?;
    }
    Ok(graph)
}

/// The places of those of some ports that are listed.
fn places_of(alloc: Global, ports: &[usize], some: &[usize]) -> Result<Vec<u32>, Memory>
    ensures value { IfOk result (λ places. Bounded (length ports.now) places.items) }
{
    let mut places = Vec::new(alloc);
    for port in some {
        add_place(&mut places, ports, *port)?;
    }
    Ok(places)
}

/// Adds the place of a port among those that are listed, where it is there.
fn add_place(places: &mut Vec<u32>, ports: &[usize], port: usize) -> Result<(), Memory>
    ensures value { OnOk result
        (Bounded (length ports.now) places.old.items → Bounded (length ports.now) places.new.items) }
{
    match ports.binary_search(&port) {
        Ok(place) => {
            places.push(narrow(place)?)?;
            Ok(())
        }
        Err(_) => Ok(()),
    }
}

/// Adds the ports that a port rests on at once.
fn add_rests(
    rests: &mut Vec<usize>,
    part: &PartNodes,
    plans: &[PortPlan],
    active: &Active,
    number: usize,
) -> Result<(), Memory> {
    match plans.get(number) {
        Some(PortPlan::Driven(plan)) => add_driven(rests, active, plan.assigns.as_slice()),
        Some(PortPlan::Output(reads)) => add_inputs(rests, part, number, *reads),
        Some(PortPlan::Apart) | None => Ok(()),
    }
}

/// Adds what the active ones of some assignments name, where they are few.
fn add_driven(
    rests: &mut Vec<usize>,
    active: &Active,
    assigns: &[PlannedAssign],
) -> Result<(), Memory> {
    if assigns.len() > FEW {
        return Ok(());
    }
    for assign in assigns {
        if offset_of(active, assign.owner).is_some() {
            add_named(rests, assign)?;
        }
    }
    Ok(())
}

/// Adds what an assignment names.
fn add_named(rests: &mut Vec<usize>, assign: &PlannedAssign) -> Result<(), Memory> {
    for named in &assign.named {
        rests.push(*named as usize)?;
    }
    if let PlannedPort::Numbered(source) = assign.source {
        rests.push(source as usize)?;
    }
    Ok(())
}

/// Adds the first so many ports of the primitive of an output.
fn add_inputs(
    rests: &mut Vec<usize>,
    part: &PartNodes,
    number: usize,
    reads: usize,
) -> Result<(), Memory> {
    if let Some(PortRef::Cell(_, port)) = part.ports.get(number) {
        let first = number.saturating_sub(*port as usize);
        for input in 0..reads {
            rests.push(first.saturating_add(input))?;
        }
    }
    Ok(())
}
