//! Turns of islands.

ghost use Rattle.std.specs.Prelude.{◌≡◌, ◌≤◌, ◌<◌, ◌-◌, ◌^◌, length};
ghost use Rattle.std.specs.Vec.{vec_capacity, vec_len};
ghost use Rattle.cx_meaning.specs.Control.{form_drives};
ghost use Rattle.cx_meaning.specs.Islands as islands;
ghost use Rattle.cx_laws.specs.Samples.{form_ifs};
ghost use Rattle.cx_interp_islands.specs.Rooms.{samples_of};
ghost use Rattle.cx_interp_islands.specs.Sampled.{AreSampled};
ghost use Rattle.cx_eval_cycle.specs.Passes.{IsAscending};
ghost use Rattle.cx_design.specs.PlainForms.{plain_component, plain_form};
ghost use Rattle.cx_turns.specs.Islands.{HasPart, IsIsland, SampledBefore, SamplesTaken};
ghost use Rattle.cx_turns.specs.Machines.{design_of, rows_of, IsPlan, IsAt, IsInstance, FormStands};
ghost use Rattle.cx_weave.specs.Ledger.{HasPlaces, Turned, island_amount};
ghost use Rattle.cx_turns.specs.Groups.{ListDriven};
ghost use Rattle.cx_weave.specs.Strands.{AnIsland, IsShown, IsSampledBefore, IsWithinIsland};
ghost use Rattle.cx_weave.specs.Strides.{HasStepped, IslandTaken};

use crate::resting::rest_listed;
use crate::spares::{Spares, give_island};
use crate::strands::{Island, Strand};
use cx_design::{Component, Form, PortFault};
use cx_interp_islands::{
    accepted_islands_are_short, static_tests_are_conditions, take_samples,
    taken_samples_are_of_a_run,
};
use cx_laws::laws::{
    accepted_has_no_empty_if, samples_are_kept, samples_give_the_cycle,
    timers_give_the_active_groups, timers_give_the_begun_ports,
};
use cx_state::alike_laws::{rows_stand, states_are_seen_alike};
use cx_turns::calls::instance_part;
use cx_turns::machine::{Machine, fault_in};
use cx_turns::plan::Plan;
use cx_turns::rooms::activate;

/// Sees the ports of the static ifs that begin in a cycle of an island: the fault of the first that is no value.
fn sample(
    plan: &Plan<'_>,
    machine: &mut Machine<'_>,
    instance: usize,
    part: &Component,
    form: &Form,
    cycle: u64,
    samples: &mut [bool],
) -> Option<PortFault>
    requires plan { IsPlan plan.now }
    requires machine { IsAt plan.now machine.old }
    requires instance { IsInstance (design_of plan.now) instance }
    requires part { HasPart (design_of plan.now) instance (plain_component part.now) }
    requires form { FormStands (design_of plan.now) instance (plain_form form.now) }
    requires cycle { cycle < 2 ^ 64 - 1 }
    requires samples { form_ifs (plain_form form.now) ≤ length samples.old }
    ensures machine { IsAt plan.now machine.new }
    ensures rows { rows_of machine.new ≡ rows_of machine.old }
    ensures length { length samples.new ≡ length samples.old }
    ensures taken { SamplesTaken (design_of plan.now) (rows_of machine.old) instance
        (plain_component part.now) (plain_form form.now) cycle (samples_of samples.old)
        (samples_of samples.new) result }
{
    rows_stand();
    states_are_seen_alike();
    static_tests_are_conditions();
    let _ = plan;
    machine.sight.instance = instance;
    machine.sight.unclear = None;
    take_samples(part, form, cycle, samples, &mut machine.sight);
    fault_in(instance, machine.sight.unclear)
}

/// Takes a cycle of an island, of which the listed cells are driven.
fn take_cycle(
    plan: &Plan<'_>,
    machine: &mut Machine<'_>,
    instance: usize,
    form: &Form,
    cycle: u64,
    samples: &mut [bool],
    cells: &[u32],
) -> Result<(), PortFault>
    requires plan { IsPlan plan.now }
    requires machine { IsAt plan.now machine.old }
    requires instance { IsInstance (design_of plan.now) instance }
    requires form { FormStands (design_of plan.now) instance (plain_form form.now) }
    requires island { IsIsland (design_of plan.now) instance (plain_form form.now) }
    requires within { IsWithinIsland (design_of plan.now) instance (plain_form form.now) cycle }
    requires sampled { IsSampledBefore (design_of plan.now) instance cycle (plain_form form.now) (samples_of samples.old) }
    requires samples { form_ifs (plain_form form.now) ≤ length samples.old }
    requires driven { ListDriven (design_of plan.now) instance cells.now
        (λ part. form_drives part (plain_form form.now)) }
    requires ascending { IsAscending cells.now }
    ensures machine { IsAt plan.now machine.new }
    ensures length { length samples.new ≡ length samples.old }
    ensures taken { IslandTaken (design_of plan.now) (rows_of machine.old) (rows_of machine.new) instance
        (plain_form form.now) cycle (samples_of samples.old) (samples_of samples.new) result }
{
    accepted_islands_are_short();
    accepted_has_no_empty_if();
    samples_are_kept();
    taken_samples_are_of_a_run();
    samples_give_the_cycle();
    timers_give_the_active_groups();
    timers_give_the_begun_ports();
    let part = instance_part(plan, instance);
    if let Some(fault) = sample(plan, machine, instance, part, form, cycle, samples) {
        return Err(fault);
    }
    activate(part, form, samples, cycle, &mut machine.room.active);
    let sight = &mut machine.sight;
    sight
        .evaluator
        .cycle_of(&mut sight.state, instance, &machine.room.active, cells)
}

/// A turn of an island: its next cycle, or its idle turn.
pub(crate) fn step_island<'a>(
    spares: &mut Spares<'a>,
    plan: &Plan<'_>,
    machine: &mut Machine<'_>,
    instance: usize,
    island: Island<'a>,
    leaf: u32,
) -> Result<Option<Strand<'a>>, PortFault>
    requires plan { IsPlan plan.now }
    requires machine { IsAt plan.now machine.old }
    requires instance { IsInstance (design_of plan.now) instance }
    requires shown { IsShown (design_of plan.now) instance
        (AnIsland
        (plain_form island.form.now) island.cycle island.left island.samples.items island.cells.items) }
    requires places { HasPlaces spares.old
        (λ x. island_amount x (vec_capacity island.cells) (length island.samples.items)) }
    ensures machine { IsAt plan.now machine.new }
    ensures stepped { HasStepped (design_of plan.now) (rows_of machine.old) (rows_of machine.new) instance
        (AnIsland (plain_form island.entry.form.now) island.entry.cycle island.entry.left
        island.entry.samples.items island.entry.cells.items) leaf result }
    ensures ledger { Turned spares.old spares.new
        (λ x. island_amount x (vec_capacity island.entry.cells) (length island.entry.samples.items)) result }
{
    rows_stand();
    accepted_islands_are_short();
    let _ = leaf;
    let Island {
        form,
        cycle,
        left,
        samples,
        cells,
    } = island;
    if left == 0 {
        rest_listed(plan, machine, instance, cells.as_slice());
        give_island(spares, samples, cells);
        return Ok(None);
    }
    let mut samples = samples;
    match take_cycle(plan, machine, instance, form, cycle, &mut samples, &cells) {
        Ok(()) => Ok(Some(Strand::InIsland(Island {
            form,
            cycle: cycle + 1,
            left: left - 1,
            samples,
            cells,
        }))),
        Err(fault) => Err(fault),
    }
}
