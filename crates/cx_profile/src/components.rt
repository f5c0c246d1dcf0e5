//! The components of the instrumented design.

ghost use Rattle.std.specs.Prelude.{◌≡◌, ◌<◌, ◌+◌, ◌*◌, IfOk, length, map};
ghost use Rattle.cx_design.specs.PlainForms.{plain_cell, plain_component};
ghost use Rattle.cx_design.specs.PlainDesigns.{plain_design};
ghost use Rattle.cx_profiling.specs.Instrumented as instrumented;
ghost use Rattle.cx_profile.specs.Gains.{AreGains};
ghost use Rattle.cx_profile.specs.Making as making;
ghost use Rattle.cx_profile.specs.Renumbering.{AreGained, AreThere, renumber};

use crate::counted::counted;
use crate::free_names::free_names;
use crate::gained::Gains;
use crate::growing::{child_component, kept_component, main_component};
use crate::outputs::shown_ports;
use crate::renumbering::{NewDone, renumbered_cells};
use cx_design::{Component, Design, PortRef};
use cx_design_copies::{number, sum};
use cx_text::Memory;
use std::alloc::Global;

/// The components of the instrumented design of one with an entry, in order.
pub(crate) fn instrumented_components(
    alloc: Global,
    design: &Design,
    gains: &Gains,
) -> Result<Vec<Component>, Memory>
    requires gains { AreGains (plain_design design.now) gains.now }
    ensures value { IfOk result (λ all.
        map plain_component all.items ≡ (instrumented.with_counts (plain_design design.now)).components) }
{
    let mut all = Vec::with_capacity(alloc, design.components.len())?;
    for number in 0..design.components.len() {
        all.push(instrumented_component(alloc, design, gains, number)?)?;
    }
    Ok(all)
}

/// The components as they are.
pub(crate) fn same_components(alloc: Global, parts: &[Component]) -> Result<Vec<Component>, Memory>
    ensures value { IfOk result (λ all. map plain_component all.items ≡ map plain_component parts.now) }
{
    let mut all = Vec::with_capacity(alloc, parts.len())?;
    for part in parts {
        all.push(same_component(alloc, part)?)?;
    }
    Ok(all)
}

/// The component as it is.
fn same_component(alloc: Global, part: &Component) -> Result<Component, Memory>
    ensures value { IfOk result (λ c. plain_component c ≡ plain_component part.now) }
{
    kept_component(alloc, &[], part)
}

/// The component of a number in the instrumented design.
fn instrumented_component(
    alloc: Global,
    design: &Design,
    gains: &Gains,
    number: usize,
) -> Result<Component, Memory>
    requires there { number < length design.now.components.items }
    requires gains { AreGains (plain_design design.now) gains.now }
    ensures value { IfOk result
        (λ c. plain_component c ≡ instrumented.instrumented_component (plain_design design.now) number) }
{
    let part = &design.components.as_slice()[number];
    let dones = renumbered_cells(alloc, design, &gains.outputs, &part.cells)?;
    if number == design.main as usize {
        instrumented_main(alloc, design, &gains.outputs, &dones, part)
    } else if gains.reached[number] {
        instrumented_child(alloc, design, &gains.outputs, &dones, part)
    } else {
        kept_component(alloc, &dones, part)
    }
}

/// Main, with the counts of it and all below it at the ports that show them.
fn instrumented_main(
    alloc: Global,
    design: &Design,
    gained: &[u32],
    dones: &[NewDone],
    part: &Component,
) -> Result<Component, Memory>
    requires there { AreThere (length design.now.components.items) (map plain_cell part.now.cells.items) }
    requires gained { AreGained (plain_design design.now) gained.now }
    ensures value { IfOk result (λ c. plain_component c ≡
        making.made_main (plain_design design.now) (renumber dones.now) (plain_component part.now)) }
{
    let own = counted(&part.cells, &part.groups)?;
    let ports = shown_ports(alloc, design, gained, part, own)?;
    let count = names_wanted(own, &ports)?;
    let names = free_names(alloc, part, sum(count, 1)?)?;
    main_component(alloc, dones, part, &names, own, &ports)
}

/// A component that another has, with the counts of it and all below it at the ports that show them.
fn instrumented_child(
    alloc: Global,
    design: &Design,
    gained: &[u32],
    dones: &[NewDone],
    part: &Component,
) -> Result<Component, Memory>
    requires there { AreThere (length design.now.components.items) (map plain_cell part.now.cells.items) }
    requires gained { AreGained (plain_design design.now) gained.now }
    ensures value { IfOk result (λ c. plain_component c ≡
        making.made_child (plain_design design.now) (renumber dones.now) (plain_component part.now)) }
{
    let own = counted(&part.cells, &part.groups)?;
    let ports = shown_ports(alloc, design, gained, part, own)?;
    let count = names_wanted(own, &ports)?;
    let names = free_names(alloc, part, count)?;
    child_component(alloc, dones, part, &names, own, &ports)
}

/// A name for each register and adder of so many counters, and one for each port.
fn names_wanted(own: u32, ports: &[PortRef]) -> Result<u32, Memory>
    ensures value { IfOk result (λ count. count ≡ 2 * own + length ports.now) }
{
    let shown = number(ports.len())?;
    sum(sum(own, own)?, shown)
}
