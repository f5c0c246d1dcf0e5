//! Nets without holes.

ghost use Rattle.std.specs.Prelude.{◌≡◌, ◌++◌, IfOk, OnOk, map, replicate};
ghost use Rattle.cx_net.specs.NetFits.{HasTargets, IsFit};
ghost use Rattle.cx_net.specs.NetsAsData.{plain_net};
ghost use Rattle.cx_net.specs.PlainNets.{plain_net_component, plain_net_driver, plain_net_target};
ghost use Rattle.cx_holes.specs.Inlining.{inlined, inlined_component, inlined_driver, inlined_target};
ghost use Rattle.cx_holes.specs.Kept.{DoesWithoutHoles};

use crate::exprs::{hole_wire, without_holes};
use cx_net::{Net, NetComponent, NetDriver, NetTarget};
use cx_text::Memory;
use std::alloc::Global;

/// Replaces each hole by a wire of one bit: hole `h` of a component becomes the wire of that number behind its wires.
pub fn inline(alloc: Global, net: Net) -> Result<Net, Memory>
    ensures value { IfOk result (λ n. plain_net n ≡ inlined (plain_net net)) }

    // What the net does is kept, where it fits and the target of each driver is there.
    ensures meaning { IsFit (plain_net net) → HasTargets (plain_net net) →
        IfOk result (λ n. DoesWithoutHoles (plain_net net) (plain_net n)) }
{
    let main = net.main();
    let components = components_without_holes(alloc, net.into_components())?;
    Ok(Net::new(components, main))
}

/// Components without holes.
fn components_without_holes(
    alloc: Global,
    components: Vec<NetComponent>,
) -> Result<Vec<NetComponent>, Memory>
    ensures value { IfOk result (λ list.
        map plain_net_component list.items ≡ map inlined_component (map plain_net_component components.items)) }
{
    let mut list = Vec::with_capacity(alloc, components.len())?;
    for component in components {
        list.push(component_without_holes(alloc, component)?)?;
    }
    Ok(list)
}

/// A component without holes.
fn component_without_holes(alloc: Global, component: NetComponent) -> Result<NetComponent, Memory>
    ensures value { IfOk result (λ c. plain_net_component c ≡ inlined_component (plain_net_component component)) }
{
    let Ok(first) = u32::try_from(component.wires.len()) else {
        return Err(Memory);
    };
    let drivers = drivers_without_holes(alloc, first, &component.drivers)?;
    let mut component = component;
    add_wires(&mut component.wires, component.holes)?;
    component.drivers = drivers;
    component.holes = 0;
    Ok(component)
}

/// Adds wires of one bit.
fn add_wires(wires: &mut Vec<u8>, count: u32) -> Result<(), Memory>
    ensures value { OnOk result (wires.new.items ≡ wires.old.items ++ replicate count 1) }
{
    for _ in 0..count {
        wires.push(1)?;
    }
    Ok(())
}

/// Drivers with wires from the first on in place of the holes.
fn drivers_without_holes(
    alloc: Global,
    first: u32,
    drivers: &[NetDriver],
) -> Result<Vec<NetDriver>, Memory>
    ensures value { IfOk result (λ list.
        map plain_net_driver list.items ≡ map (inlined_driver first) (map plain_net_driver drivers.now)) }
{
    let mut list = Vec::with_capacity(alloc, drivers.len())?;
    for driver in drivers {
        list.push(driver_without_holes(alloc, first, driver)?)?;
    }
    Ok(list)
}

/// A driver with wires from the first on in place of the holes.
fn driver_without_holes(alloc: Global, first: u32, driver: &NetDriver) -> Result<NetDriver, Memory>
    ensures value { IfOk result (λ d. plain_net_driver d ≡ inlined_driver first (plain_net_driver driver.now)) }
{
    Ok(NetDriver {
        target: target_without_holes(first, driver.target)?,
        guard: without_holes(alloc, first, &driver.guard)?,
        source: without_holes(alloc, first, &driver.source)?,
    })
}

/// A target with a wire in place of a hole.
fn target_without_holes(first: u32, target: NetTarget) -> Result<NetTarget, Memory>
    ensures value { IfOk result (λ t. plain_net_target t ≡ inlined_target first (plain_net_target target)) }
{
    match target {
        NetTarget::Hole(hole) => Ok(NetTarget::Wire(hole_wire(first, hole)?)),
        NetTarget::Port(_) | NetTarget::Register(_) | NetTarget::Wire(_) | NetTarget::Done => {
            Ok(target)
        }
    }
}
