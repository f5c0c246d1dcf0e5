//! The assignments of each port, found without a search.

ghost use Rattle.std.specs.Prelude.{◌≡◌, ◌∷◌, ◌++◌, [], ◌<◌, ℕ, IfOk, OnOk, Some, get_or, length, map, set};
ghost use Rattle.cx_meaning.specs.declared.ports.PortRef.{PortRef};
ghost use Rattle.cx_meaning.specs.Active as active;
ghost use Rattle.cx_meaning.specs.Designs.{PlainDesign, component_at};
ghost use Rattle.cx_rules.specs.Ports.{component_of};
ghost use Rattle.cx_design.specs.PlainDesigns.{plain_design};
ghost use Rattle.cx_design_parts.specs.Plain.{plain_owned};
ghost use Rattle.cx_design_leads.specs.Nodes.{node_of};
ghost use Rattle.cx_eval_drives.specs.Drives.{owned_for};
ghost use Rattle.cx_eval_drives.specs.Drivers.{AreDrivers, ArePartDrivers, assigns_at, lists_of};

use cx_design::Design;
use cx_design_leads::Nodes;
use cx_design_parts::{OwnedAssign, component, source_order};
use cx_text::Memory;
use std::alloc::Global;

/// The assignments of each port of each component, in source order.
#[derive(Drop)]
pub struct Drivers<'a> {
    parts: Vec<Vec<Vec<OwnedAssign<'a>>>>,
}

impl<'a> Drivers<'a> {
    /// Those of all components of a design.
    pub fn new(alloc: Global, design: &'a Design) -> Result<Drivers<'a>, Memory>
        ensures value { IfOk result (AreDrivers (plain_design design.now)) }
    {
        let mut parts = Vec::new(alloc);
        for number in 0..design.components.len() {
            parts.push(part_drivers(alloc, design, number)?)?;
        }
        Ok(Drivers { parts })
    }

    /// The assignments of a component whose target is a port, by its number there, in source order.
    pub fn assigns_of(&self, component: usize, port: usize) -> &[OwnedAssign<'a>]
        ensures value { (d : PlainDesign) (p : PortRef) → AreDrivers d self.now →
            component < length d.components → node_of (component_of d component) p ≡ Some port
            → map plain_owned result.now ≡ owned_for p (active.source_order (component_at d component)) }
    {
        let Some(ports) = self.parts.get(component) else {
            return none();
        };
        assigns_in(ports.as_slice(), port)
    }
}

/// The assignments of a port, where there are so many.
fn assigns_in<'b, 'a>(ports: &'b [Vec<OwnedAssign<'a>>], port: usize) -> &'b [OwnedAssign<'a>]
    ensures value { result.now ≡ assigns_at (lists_of ports.now) port }
{
    let Some(assigns) = ports.get(port) else {
        return none();
    };
    assigns.as_slice()
}

fn none<'b, T>() -> &'b [T]
    ensures value { result.now ≡ [] }
{
    &[]
}

/// The assignments of each port of a component, by its number there.
fn part_drivers<'a>(
    alloc: Global,
    design: &'a Design,
    number: usize,
) -> Result<Vec<Vec<OwnedAssign<'a>>>, Memory>
    requires within { number < length design.now.components.items }
    ensures value { IfOk result (λ ports. ArePartDrivers (component_of (plain_design design.now) number)
        (active.source_order (component_at (plain_design design.now) number)) (lists_of ports.items)) }
{
    let numbers = Nodes::new(alloc, design, number)?;
    let assigns = source_order(alloc, component(design, number))?;
    let mut ports = Vec::new(alloc);
    'ports: for _port in 0..numbers.count() {
        ports.push(Vec::new(alloc))?;
    }
    for owned in &assigns {
        let Some(port) = numbers.node(owned.assign.target) else {
            continue;
        };
        add(&mut ports, port as usize, *owned)?;
    }
    Ok(ports)
}

/// Adds an assignment behind those of a port.
fn add<'a>(
    ports: &mut Vec<Vec<OwnedAssign<'a>>>,
    port: usize,
    owned: OwnedAssign<'a>,
) -> Result<(), Memory>
    requires within { port < length ports.old.items }
    ensures value { OnOk result (lists_of ports.new.items ≡
        set (lists_of ports.old.items) port (assigns_at (lists_of ports.old.items) port ++ owned.entry ∷ [])) }
{
    ports[port].push(owned)?;
    Ok(())
}
