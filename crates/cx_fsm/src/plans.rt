//! Which wires and holes of a component are which.

ghost use Rattle.std.specs.Prelude.{◌≡◌, ◌+◌, ◌<◌, IfOk, length, map};
ghost use Rattle.cx_static.specs.PlainLowered.{plain_island};
ghost use Rattle.cx_wiring.specs.IslandDrivers as wired;
ghost use Rattle.cx_fsm.specs.PlainStands.{HasFirsts, islands_of};

use crate::numbers::{beyond, number_of};
use cx_static::{Island, LoweredComponent};
use cx_text::Memory;
use std::alloc::Global;

/// Which wires and holes of a component are which. The first wires are the offsets of the groups; behind them stand those
/// of the islands, one for each timer, point and occurrence; and then those of control.
#[derive(Drop)]
pub(crate) struct Plan<'a> {
    /// How many groups there are.
    pub groups: u32,
    pub islands: &'a [Island],
    /// The first wire of each island.
    pub firsts: Vec<u32>,
    /// The first wire of control.
    pub control: u32,
}

impl Plan<'_> {
    /// The first wire of an island.
    pub fn first_of(&self, island: u32) -> u32
        requires { HasFirsts self.now }
        ensures value { island < length self.now.islands.now →
            result ≡ wired.first_of_island self.now.groups (islands_of self.now) island }
    {
        match self.firsts.get(island as usize) {
            Some(first) => *first,
            None => 0,
        }
    }
}

/// The plan of a component.
pub(crate) fn plan_of(alloc: Global, component: &LoweredComponent) -> Result<Plan<'_>, Memory>
    ensures groups { IfOk result (λ plan. plan.groups ≡ length component.now.part.groups.items) }
    ensures islands { IfOk result (λ plan. plan.islands.now ≡ component.now.islands.items) }
    ensures firsts { IfOk result HasFirsts }
    ensures control { IfOk result (λ plan. plan.control ≡
        length component.now.part.groups.items
        + wired.island_wires (map plain_island component.now.islands.items)) }
{
    let groups = number_of(component.part.groups.len())?;
    let islands = component.islands.as_slice();
    let mut firsts = Vec::new(alloc);
    let mut control = groups;
    for island in islands {
        firsts.push(control)?;
        control = beyond(control, wires_of(island)?)?;
    }
    Ok(Plan {
        groups,
        islands,
        firsts,
        control,
    })
}

/// How many wires an island has.
fn wires_of(island: &Island) -> Result<u32, Memory>
    ensures value { IfOk result (λ wires. wires ≡ wired.wires_of_island (plain_island island.now)) }
{
    let timers = number_of(island.timers.len())?;
    let timed = beyond(timers, number_of(island.points.len())?)?;
    beyond(timed, number_of(island.occurrences.len())?)
}
