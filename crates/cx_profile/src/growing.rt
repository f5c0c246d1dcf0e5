//! The components of the instrumented design, each by the component that it is made of.

ghost use Rattle.std.specs.Prelude.{◌≡◌, ◌+◌, ◌*◌, ◌++◌, ◌∷◌, [], IfOk, length, map};
ghost use Rattle.cx_design.specs.PlainForms.{plain_assigns, plain_cell, plain_component, plain_group, plain_statement};
ghost use Rattle.cx_rewrites.specs.Moving.{moved_assign, moved_statement as statement_moved};
ghost use Rattle.cx_profiling.specs.Instrumented as instrumented;
ghost use Rattle.cx_profile.specs.Renumbering.{renumber};
ghost use Rattle.cx_profile.specs.Growing as growing;

use crate::counters::{counted_groups, name_again, with_counter_cells};
use crate::invokes::moved_invokes;
use crate::outputs::{with_output_assigns, with_outputs};
use crate::renumbering::{NewDone, NewPorts};
use crate::stores::{
    CountMemory, FirstStore, address_width, memory_cell, then_stores, with_stores,
};
use cx_design::{Assign, Cell, Component, Group, PortDecl, PortRef, Statement};
use cx_design_copies::{
    copied_cells, copied_name, copied_ports, moved_assigns, moved_groups, moved_statement, number,
    sum,
};
use cx_text::{Memory, Name};
use std::alloc::Global;

/// The component with renumbered ports, which is all that a component without an instance needs.
pub(crate) fn kept_component(
    alloc: Global,
    dones: &[NewDone],
    part: &Component,
) -> Result<Component, Memory>
    ensures value { IfOk result
        (λ c. plain_component c ≡ growing.kept_part (renumber dones.now) (plain_component part.now)) }
{
    Ok(Component {
        name: copied_name(alloc, &part.name)?,
        latency: part.latency,
        inputs: copied_ports(alloc, &part.inputs)?,
        outputs: copied_ports(alloc, &part.outputs)?,
        cells: copied_cells(alloc, &part.cells)?,
        groups: moved_groups(alloc, &NewPorts { dones }, &part.groups)?,
        invokes: moved_invokes(alloc, dones, &part.invokes)?,
        always: moved_assigns(alloc, &NewPorts { dones }, &part.always)?,
        control: moved_statement(alloc, &NewPorts { dones }, &part.control)?,
        place: part.place,
    })
}

/// The cells of a component, and behind them those of so many counters.
fn cells_with_counters(
    alloc: Global,
    part: &Component,
    names: &[Name],
    own: u32,
) -> Result<Vec<Cell>, Memory>
    ensures value { IfOk result (λ cells. map plain_cell cells.items ≡
        map plain_cell part.now.cells.items ++ instrumented.counter_cells part.now.place names.now 0 own) }
{
    let cells = copied_cells(alloc, &part.cells)?;
    with_counter_cells(alloc, cells, part.place, names, own)
}

/// The outputs of a component, and behind them one for each count.
fn outputs_with_counts(
    alloc: Global,
    part: &Component,
    names: &[Name],
    own: u32,
    ports: &[PortRef],
) -> Result<Vec<PortDecl>, Memory>
    ensures value { IfOk result (λ outputs.
        outputs.items ≡ part.now.outputs.items ++ growing.new_outputs names.now (2 * own) (length ports.now)) }
{
    let outputs = copied_ports(alloc, &part.outputs)?;
    let count = number(ports.len())?;
    with_outputs(alloc, outputs, names, own, count)
}

/// The continuous assignments with renumbered ports, and behind them those that drive the outputs of the counts.
fn always_with_counts(
    alloc: Global,
    dones: &[NewDone],
    part: &Component,
    ports: &[PortRef],
) -> Result<Vec<Assign>, Memory>
    ensures value { IfOk result (λ always. plain_assigns always.items ≡
        map (moved_assign (renumber dones.now)) (plain_assigns part.now.always.items)
        ++ growing.port_assigns part.now.place (length part.now.outputs.items) ports.now) }
{
    let always = moved_assigns(alloc, &NewPorts { dones }, &part.always)?;
    let first = number(part.outputs.len())?;
    with_output_assigns(always, part.place, first, ports)
}

/// A component with counters, and with outputs that show the counts of it and all below it at these ports.
pub(crate) fn child_component(
    alloc: Global,
    dones: &[NewDone],
    part: &Component,
    names: &[Name],
    own: u32,
    ports: &[PortRef],
) -> Result<Component, Memory>
    ensures value { IfOk result (λ c. plain_component c ≡
        growing.child_part (renumber dones.now) (plain_component part.now) names.now own ports.now) }
{
    Ok(Component {
        name: copied_name(alloc, &part.name)?,
        latency: part.latency,
        inputs: copied_ports(alloc, &part.inputs)?,
        outputs: outputs_with_counts(alloc, part, names, own, ports)?,
        cells: cells_with_counters(alloc, part, names, own)?,
        groups: counted_groups(alloc, dones, part)?,
        invokes: moved_invokes(alloc, dones, &part.invokes)?,
        always: always_with_counts(alloc, dones, part, ports)?,
        control: moved_statement(alloc, &NewPorts { dones }, &part.control)?,
        place: part.place,
    })
}

/// The cells of main, those of its counters and the memory of so many counts.
fn cells_with_memory(
    alloc: Global,
    part: &Component,
    names: &[Name],
    own: u32,
    count: u32,
) -> Result<Vec<Cell>, Memory>
    ensures value { IfOk result (λ cells. map plain_cell cells.items ≡
        (map plain_cell part.now.cells.items ++ instrumented.counter_cells part.now.place names.now 0 own)
        ++ instrumented.memory_cell part.now.place (instrumented.name_at names.now (2 * own)) count ∷ []) }
{
    let mut cells = cells_with_counters(alloc, part, names, own)?;
    let name = name_again(alloc, names, 2 * own as usize)?;
    cells.push(memory_cell(alloc, part.place, name, count)?)?;
    Ok(cells)
}

/// The memory of so many counts, behind the cells of main and those of so many counters.
fn count_memory(part: &Component, own: u32, count: u32) -> Result<CountMemory, Memory>
    ensures cell { IfOk result (λ memory. memory.cell ≡ length part.now.cells.items + 2 * own) }
    ensures width { IfOk result (λ memory. memory.address_width ≡ instrumented.address_width count) }
{
    let first = number(part.cells.len())?;
    let cell = sum(sum(first, own)?, own)?;
    let address_width = address_width(count)?;
    Ok(CountMemory {
        cell,
        address_width,
    })
}

/// Where the stores of main begin: behind its groups, and behind the names of so many counters and of the memory.
fn first_store(part: &Component, own: u32) -> Result<FirstStore, Memory>
    ensures name { IfOk result (λ first. first.name ≡ 2 * own + 1) }
    ensures group { IfOk result (λ first. first.group ≡ length part.now.groups.items) }
{
    let name = sum(sum(own, own)?, 1)?;
    let group = number(part.groups.len())?;
    Ok(FirstStore { name, group })
}

/// The groups of main with the assignments of their counters, and behind them a store for each count.
fn groups_with_stores(
    alloc: Global,
    dones: &[NewDone],
    part: &Component,
    names: &[Name],
    own: u32,
    ports: &[PortRef],
) -> Result<Vec<Group>, Memory>
    ensures value { IfOk result (λ groups. map plain_group groups.items ≡
        (growing.main_part (renumber dones.now) (plain_component part.now) names.now own ports.now).groups) }
{
    let groups = counted_groups(alloc, dones, part)?;
    let memory = count_memory(part, own, number(ports.len())?)?;
    let first = first_store(part, own)?;
    with_stores(alloc, groups, part.place, names, memory, first, ports)
}

/// The control of main with renumbered ports, and behind it so many stores.
fn control_with_stores(
    alloc: Global,
    dones: &[NewDone],
    part: &Component,
    count: u32,
) -> Result<Statement, Memory>
    ensures value { IfOk result (λ s. plain_statement s ≡
        growing.then_stores part.now.place
        (statement_moved (renumber dones.now) (plain_statement part.now.control))
        (length part.now.groups.items) count) }
{
    let control = moved_statement(alloc, &NewPorts { dones }, &part.control)?;
    let first = number(part.groups.len())?;
    then_stores(alloc, part.place, control, first, count)
}

/// Main with counters, the memory of the counts, and behind its control a store of each count.
pub(crate) fn main_component(
    alloc: Global,
    dones: &[NewDone],
    part: &Component,
    names: &[Name],
    own: u32,
    ports: &[PortRef],
) -> Result<Component, Memory>
    ensures value { IfOk result (λ c. plain_component c ≡
        growing.main_part (renumber dones.now) (plain_component part.now) names.now own ports.now) }
{
    let count = number(ports.len())?;
    Ok(Component {
        name: copied_name(alloc, &part.name)?,
        latency: part.latency,
        inputs: copied_ports(alloc, &part.inputs)?,
        outputs: copied_ports(alloc, &part.outputs)?,
        cells: cells_with_memory(alloc, part, names, own, count)?,
        groups: groups_with_stores(alloc, dones, part, names, own, ports)?,
        invokes: moved_invokes(alloc, dones, &part.invokes)?,
        always: moved_assigns(alloc, &NewPorts { dones }, &part.always)?,
        control: control_with_stores(alloc, dones, part, count)?,
        place: part.place,
    })
}
