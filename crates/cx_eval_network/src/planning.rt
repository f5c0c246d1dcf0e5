//! Assignments over ports by their numbers.

ghost use Rattle.std.specs.Prelude.{◌≡◌, ◌++◌, IfOk, OnOk, map, option_to_list};
ghost use Rattle.cx_meaning.specs.Designs as plain;
ghost use Rattle.cx_rules.specs.Items.{operands_of};
ghost use Rattle.cx_design.specs.PlainForms.{plain_guard};
ghost use Rattle.cx_design_parts.specs.Plain.{plain_owned};
ghost use Rattle.cx_design_leads.specs.Nodes.{node_of};
ghost use Rattle.cx_eval_network.specs.Planned.{StandFor, assign_plan, guard_plan, guard_plans, guards_of, numbered_assign, numbered_guard, numbers_of, port_plan};
ghost use Rattle.cx_eval_network.specs.Plans.{IsPlannedPart, instance_of};

use crate::literals::literal_seen;
use crate::planned::{PlannedAssign, PlannedGuard, PlannedPort};
use crate::plans::PlannedPart;
use cx_design::{Guard, PlacedPort, PortRef};
use cx_design_parts::{OwnedAssign, operands};
use cx_text::Memory;
use std::alloc::Global;

/// The number of a port, where it has one.
fn number_of(part: &PlannedPart<'_, '_>, port: PortRef) -> Option<u32>
    requires part { IsPlannedPart part.now }
    ensures value { result ≡ node_of (instance_of part.now) port }
{
    part.numbers.node(port)
}

/// A port by its number; one that has none as it is seen.
fn planned_port(part: &PlannedPart<'_, '_>, port: PortRef) -> PlannedPort
    requires part { IsPlannedPart part.now }
    ensures value { result ≡ port_plan (instance_of part.now) port }
{
    match number_of(part, port) {
        Some(number) => PlannedPort::Numbered(number),
        None => PlannedPort::Fixed(literal_seen(port)),
    }
}

/// A guard over ports by their numbers.
#[cycle(guard)]
fn planned_guard(
    alloc: Global,
    part: &PlannedPart<'_, '_>,
    guard: &Guard,
) -> Result<PlannedGuard, Memory>
    requires part { IsPlannedPart part.now }
    ensures value { IfOk result
        (λ planned. numbered_guard planned ≡ guard_plan (instance_of part.now) (plain_guard guard.now)) }
{
    match guard {
        Guard::True => Ok(PlannedGuard::True),
        Guard::Port(port) => Ok(PlannedGuard::Port(planned_port(part, port.port))),
        Guard::Not(guard) => {
            let guard = planned_guard(alloc, part, guard)?;
            Ok(PlannedGuard::Not(Box::new(alloc, guard)?))
        }
        Guard::And(guards) => Ok(PlannedGuard::And(planned_guards(alloc, part, guards)?)),
        Guard::Or(guards) => Ok(PlannedGuard::Or(planned_guards(alloc, part, guards)?)),
        Guard::Compare(comparison, left, right) => Ok(PlannedGuard::Compare(
            *comparison,
            planned_port(part, left.port),
            planned_port(part, right.port),
        )),
        Guard::During(from, to) => Ok(PlannedGuard::During(*from, *to)),
    }
}

/// Guards over ports by their numbers.
#[cycle(guard)]
fn planned_guards(
    alloc: Global,
    part: &PlannedPart<'_, '_>,
    guards: &[Guard],
) -> Result<Vec<PlannedGuard>, Memory>
    requires part { IsPlannedPart part.now }
    ensures value { IfOk result (λ planned.
        guards_of (map numbered_guard planned.items) ≡
        guard_plans (instance_of part.now) (plain.guards_of (map plain_guard guards.now))) }
{
    let mut planned = Vec::with_capacity(alloc, guards.len())?;
    for guard in guards {
        planned.push(planned_guard(alloc, part, guard)?)?;
    }
    Ok(planned)
}

/// The numbers of the ports that a guard names.
fn named_numbers(
    alloc: Global,
    part: &PlannedPart<'_, '_>,
    guard: &Guard,
) -> Result<Vec<u32>, Memory>
    requires part { IsPlannedPart part.now }
    ensures value { IfOk result (λ found. found.items ≡
        numbers_of (instance_of part.now) (map (λ q. q.port) (operands_of (plain_guard guard.now)))) }
{
    let ports = operands(alloc, guard)?;
    let mut found = Vec::new(alloc);
    add_numbers(&mut found, part, ports.as_slice())?;
    Ok(found)
}

/// Adds the numbers of ports that have one.
fn add_numbers(
    found: &mut Vec<u32>,
    part: &PlannedPart<'_, '_>,
    ports: &[PlacedPort],
) -> Result<(), Memory>
    requires part { IsPlannedPart part.now }
    ensures value { OnOk result (found.new.items ≡
        found.old.items ++ numbers_of (instance_of part.now) (map (λ q. q.port) ports.now)) }
{
    for port in ports {
        add_number(found, part, port.port)?;
    }
    Ok(())
}

/// Adds the number of a port, where it has one.
fn add_number(found: &mut Vec<u32>, part: &PlannedPart<'_, '_>, port: PortRef) -> Result<(), Memory>
    requires part { IsPlannedPart part.now }
    ensures value { OnOk result
        (found.new.items ≡ found.old.items ++ option_to_list (node_of (instance_of part.now) port)) }
{
    match number_of(part, port) {
        Some(number) => {
            found.push(number)?;
            Ok(())
        }
        None => Ok(()),
    }
}

/// An assignment over ports by their numbers.
fn planned_assign(
    alloc: Global,
    part: &PlannedPart<'_, '_>,
    owned: &OwnedAssign<'_>,
) -> Result<PlannedAssign, Memory>
    requires part { IsPlannedPart part.now }
    ensures value { IfOk result
        (λ planned. numbered_assign planned ≡ assign_plan (instance_of part.now) (plain_owned owned.now)) }
{
    let named = named_numbers(alloc, part, &owned.assign.guard)?;
    let guard = planned_guard(alloc, part, &owned.assign.guard)?;
    Ok(PlannedAssign {
        owner: owned.owner,
        named,
        guard,
        source: planned_port(part, owned.assign.source.port),
    })
}

/// Assignments over ports by their numbers.
pub fn planned_assigns(
    alloc: Global,
    part: &PlannedPart<'_, '_>,
    assigns: &[OwnedAssign<'_>],
) -> Result<Vec<PlannedAssign>, Memory>
    requires part { IsPlannedPart part.now }
    ensures value { IfOk result
        (λ planned. StandFor (instance_of part.now) planned.items (map plain_owned assigns.now)) }
{
    let mut planned = Vec::new(alloc);
    for owned in assigns {
        planned.push(planned_assign(alloc, part, owned)?)?;
    }
    Ok(planned)
}
