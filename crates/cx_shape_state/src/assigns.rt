//! The rules on assignments of dones and of signature outputs, and on the continuous assignments of static components.

ghost use Rattle.std.specs.Prelude.{◌≡◌, ◌<◌, IfOk, length, true};
ghost use Rattle.std.specs.List.{list_all};
ghost use Rattle.cx_rules.specs.Ports.{component_of};
ghost use Rattle.cx_rules.specs.Items.{sources_of};
ghost use Rattle.cx_design.specs.PlainForms.{plain_assign};
ghost use Rattle.cx_design.specs.PlainDesigns.{plain_design};
ghost use Rattle.cx_design_parts.specs.Breaks.{first_of, plain_spot};
ghost use Rattle.cx_design_parts.specs.Plain.{plain_owned};
ghost use Rattle.cx_shape_state.specs.Resting.{rests_at};
ghost use Rattle.cx_shape_state.specs.Tells.{Tells};
ghost use Rattle.cx_shape_state.specs.StateBreaks as breaks;
ghost use Rattle.cx_shape_state.specs.StateBreaks.{assign_breaks, done_break, kept_breaks, output_break, target_breaks};

use crate::Resting;
use cx_design::{Assign, Design, PlacedPort, PortRef};
use cx_design_parts::{
    Break, FirstBreak, OwnedAssign, Spot, component, group_name, operands, path,
};
use cx_text::{Memory, Name, Rule};
use std::alloc::Global;

/// Looks at one assignment.
#[tactic(auto, using(cx_design_parts::proofs::Lists::first_append))]
pub fn add_assign(
    alloc: Global,
    first: &mut FirstBreak,
    design: &Design,
    resting: &Resting,
    spot: Spot,
    owned: OwnedAssign<'_>,
) -> Result<(), Memory>
    requires within { spot.component < length design.now.components.items }
    requires tells { Tells (component_of (plain_design design.now) spot.component) resting.now }
    ensures value { IfOk result (λ _. first.new ≡
        first_of first.old (assign_breaks (component_of (plain_design design.now) spot.component)
        (plain_spot spot) (plain_owned owned.entry))) }
{
    add_target(alloc, first, design, resting, spot, owned.assign)?;
    add_kept(alloc, first, design, spot, owned)?;
    Ok(())
}

/// Looks at an assignment for its target: a group's done, or a signature output.
fn add_target(
    alloc: Global,
    first: &mut FirstBreak,
    design: &Design,
    resting: &Resting,
    spot: Spot,
    assign: &Assign,
) -> Result<(), Memory>
    requires within { spot.component < length design.now.components.items }
    requires tells { Tells (component_of (plain_design design.now) spot.component) resting.now }
    ensures value { IfOk result (λ _. first.new ≡
        first_of first.old (target_breaks (component_of (plain_design design.now) spot.component)
        (plain_spot spot) (plain_assign assign.now) assign.now.target)) }
{
    match assign.target {
        PortRef::Done(group) => add_done(alloc, first, design, resting, spot, assign, group),
        PortRef::Output(port) => add_output(alloc, first, design, resting, spot, assign, port),
        PortRef::Cell(_, _) | PortRef::Input(_) | PortRef::Literal(_, _) => Ok(()),
    }
}

/// Keeps a break of an assignment of a group's done, where it names what does not rest on state.
fn add_done(
    alloc: Global,
    first: &mut FirstBreak,
    design: &Design,
    resting: &Resting,
    spot: Spot,
    assign: &Assign,
    group: u32,
) -> Result<(), Memory>
    requires within { spot.component < length design.now.components.items }
    requires tells { Tells (component_of (plain_design design.now) spot.component) resting.now }
    ensures value { IfOk result (λ _. first.new ≡
        first_of first.old (done_break (component_of (plain_design design.now) spot.component)
        (plain_spot spot) (plain_assign assign.now) group)) }
{
    let rests = all_rest(alloc, design, spot.component, resting, true, assign)?;
    if !rests && first.is_first(Rule::DoneNotState, spot, assign.place) {
        let name = Name::from_bytes(alloc, group_name(component(design, spot.component), group))?;
        first.keep(Break {
            rule: Rule::DoneNotState,
            spot,
            place: assign.place,
            name,
        });
    }
    Ok(())
}

/// Keeps a break of an assignment of a signature output, where it names what does not rest on state or leads back to a
/// signature input.
fn add_output(
    alloc: Global,
    first: &mut FirstBreak,
    design: &Design,
    resting: &Resting,
    spot: Spot,
    assign: &Assign,
    port: u32,
) -> Result<(), Memory>
    requires within { spot.component < length design.now.components.items }
    requires tells { Tells (component_of (plain_design design.now) spot.component) resting.now }
    ensures value { IfOk result (λ _. first.new ≡
        first_of first.old (output_break (component_of (plain_design design.now) spot.component)
        (plain_spot spot) (plain_assign assign.now) port)) }
{
    let rests = all_rest(alloc, design, spot.component, resting, false, assign)?;
    if !rests && first.is_first(Rule::OutputNotState, spot, assign.place) {
        let name = path(alloc, design, spot.component, PortRef::Output(port))?;
        first.keep(Break {
            rule: Rule::OutputNotState,
            spot,
            place: assign.place,
            name,
        });
    }
    Ok(())
}

/// Keeps a break of a continuous assignment of a static component that names a signature input.
fn add_kept(
    alloc: Global,
    first: &mut FirstBreak,
    design: &Design,
    spot: Spot,
    owned: OwnedAssign<'_>,
) -> Result<(), Memory>
    requires within { spot.component < length design.now.components.items }
    ensures value { IfOk result (λ _. first.new ≡
        first_of first.old (kept_breaks (component_of (plain_design design.now) spot.component)
        (plain_spot spot) (plain_owned owned.entry))) }
{
    let assign = owned.assign;
    let latency = component(design, spot.component).latency;
    let kept = is_kept(alloc, latency, owned.owner, assign)?;
    if !kept && first.is_first(Rule::OutputNotState, spot, assign.place) {
        let name = path(alloc, design, spot.component, assign.target)?;
        first.keep(Break {
            rule: Rule::OutputNotState,
            spot,
            place: assign.place,
            name,
        });
    }
    Ok(())
}

/// Whether an assignment names no signature input, where it is a continuous one of a component with a latency.
fn is_kept(
    alloc: Global,
    latency: Option<u64>,
    owner: Option<usize>,
    assign: &Assign,
) -> Result<bool, Memory>
    ensures value { IfOk result (λ kept. kept ≡ breaks.is_kept latency owner (sources_of (plain_assign assign.now))) }
{
    match (latency, owner) {
        (None, _) => Ok(true),
        (Some(_), None) => names_no_input(alloc, assign),
        (Some(_), Some(_)) => Ok(true),
    }
}

/// Whether an assignment names no signature input.
fn names_no_input(alloc: Global, assign: &Assign) -> Result<bool, Memory>
    ensures value { IfOk result (λ none. none ≡ breaks.none_input (sources_of (plain_assign assign.now))) }
{
    let operands = operands(alloc, &assign.guard)?;
    Ok(!is_input(assign.source.port) && none_input(operands.as_slice()))
}

fn none_input(ports: &[PlacedPort]) -> bool
    ensures value { result ≡ breaks.none_input ports.now }
{
    for port in ports {
        if is_input(port.port) {
            return false;
        }
    }
    true
}

/// Whether a port is a signature input.
fn is_input(port: PortRef) -> bool
    ensures value { result ≡ breaks.is_input port }
{
    match port {
        PortRef::Input(_) => true,
        PortRef::Cell(_, _) | PortRef::Output(_) | PortRef::Done(_) | PortRef::Literal(_, _) => {
            false
        }
    }
}

/// Whether all that an assignment names rests on state, where signature inputs do so or never rest.
pub fn all_rest(
    alloc: Global,
    design: &Design,
    number: usize,
    resting: &Resting,
    inputs: bool,
    assign: &Assign,
) -> Result<bool, Memory>
    requires within { number < length design.now.components.items }
    requires tells { Tells (component_of (plain_design design.now) number) resting.now }
    ensures value { IfOk result (λ all. all ≡
        breaks.all_rest (component_of (plain_design design.now) number) inputs
        (sources_of (plain_assign assign.now))) }
{
    let operands = operands(alloc, &assign.guard)?;
    Ok(
        port_rests(design, number, resting, inputs, assign.source)
            && ports_rest(design, number, resting, inputs, operands.as_slice()),
    )
}

fn ports_rest(
    design: &Design,
    number: usize,
    resting: &Resting,
    inputs: bool,
    ports: &[PlacedPort],
) -> bool
    requires within { number < length design.now.components.items }
    requires tells { Tells (component_of (plain_design design.now) number) resting.now }
    ensures value { result ≡ breaks.all_rest (component_of (plain_design design.now) number) inputs ports.now }
{
    for port in ports {
        if !port_rests(design, number, resting, inputs, *port) {
            return false;
        }
    }
    true
}

fn port_rests(
    design: &Design,
    number: usize,
    resting: &Resting,
    inputs: bool,
    port: PlacedPort,
) -> bool
    requires within { number < length design.now.components.items }
    requires tells { Tells (component_of (plain_design design.now) number) resting.now }
    ensures value { result ≡ rests_at (component_of (plain_design design.now) number) inputs port.port }
{
    if inputs {
        resting.rests(design, number, port.port)
    } else {
        resting.rests_inside(design, number, port.port)
    }
}
