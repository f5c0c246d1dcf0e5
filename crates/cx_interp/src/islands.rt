//! Static control: islands, which keep nothing of earlier cycles but the samples of their static ifs.

ghost use Rattle.std.specs.Prelude.{◌≡◌, ◌<◌, ◌-◌, ◌^◌, IfOk};
ghost use Rattle.cx_meaning.specs.Control as control;
ghost use Rattle.cx_meaning.specs.Islands as islands;
ghost use Rattle.cx_design.specs.PlainForms.{plain_component, plain_form};
ghost use Rattle.cx_laws.specs.Samples.{active_by};
ghost use Rattle.cx_interp_islands.specs.Sampled.{AreSampled};
ghost use Rattle.cx_eval_cycle.specs.Passes.{IsAscending};
ghost use Rattle.cx_turns.specs.Groups.{ListDriven};
ghost use Rattle.cx_turns.specs.Islands.{HasPart, IsIsland, SampledBefore, SamplesTaken};
ghost use Rattle.cx_turns.specs.Machines.{design_of, rows_of, IsPlan, IsAt, IsInstance, FormStands};
ghost use Rattle.cx_turns.specs.Rooms.{HasActive};
ghost use Rattle.cx_turns.specs.Turns.{cycle_as};
ghost use Rattle.cx_interp.specs.Counted.{Counted, form_counts, sampled_counts};
ghost use Rattle.cx_interp.specs.Counts.{plain_counts};
ghost use Rattle.cx_interp.specs.Doings.{form_does, form_drives};
ghost use Rattle.cx_interp.specs.Done.{Done};
ghost use Rattle.cx_interp.specs.IslandCycles.{CycleTaken, sampled_does, samples_in};
ghost use Rattle.cx_interp.specs.Pauses.{Paused};

use crate::answers::Answer;
use crate::counts::Counts;
use cx_design::{Component, Form, PortFault};
use cx_design_sizes::form_length;
use cx_frames::apart_laws::{active_groups_within, listed_cells_suffice};
use cx_interp_islands::{
    accepted_islands_are_short, static_tests_are_conditions, take_samples,
    taken_samples_are_of_a_run,
};
use cx_laws::laws::{
    accepted_has_no_empty_if, islands_run_by_samples, samples_give_the_cycle,
    timers_give_the_active_groups,
};
use cx_meaning::laws::{designs_keep_idle, idle_settles};
use cx_profiling::counting_laws::islands_count_by_samples;
use cx_state::alike_laws::{rows_stand, states_are_seen_alike};
use cx_turns::calls::instance_part;
use cx_turns::driven::driven_cells;
use cx_turns::machine::{Machine, fault_in};
use cx_turns::plan::Plan;
use cx_turns::rest::rest_listed;
use cx_turns::rooms::activate;

/// Sees the ports of the static ifs that begin in a cycle of an island: the fault of the first that is no value.
fn sample(
    plan: &Plan<'_>,
    machine: &mut Machine<'_>,
    instance: usize,
    part: &Component,
    form: &Form,
    cycle: u64,
) -> Option<PortFault>
    requires plan { IsPlan plan.now }
    requires machine { IsAt plan.now machine.old }
    requires instance { IsInstance (design_of plan.now) instance }
    requires part { HasPart (design_of plan.now) instance (plain_component part.now) }
    requires form { FormStands (design_of plan.now) instance (plain_form form.now) }
    requires cycle { cycle < 2 ^ 64 - 1 }
    ensures machine { IsAt plan.now machine.new }
    ensures rows { rows_of machine.new ≡ rows_of machine.old }
    ensures cells { machine.new.room.cells ≡ machine.old.room.cells }
    ensures taken { SamplesTaken (design_of plan.now) (rows_of machine.old) instance
        (plain_component part.now) (plain_form form.now) cycle (samples_in machine.old)
        (samples_in machine.new) result }
{
    rows_stand();
    states_are_seen_alike();
    static_tests_are_conditions();
    let _ = plan;
    machine.sight.instance = instance;
    machine.sight.unclear = None;
    take_samples(
        part,
        form,
        cycle,
        &mut machine.room.samples,
        &mut machine.sight,
    );
    fault_in(instance, machine.sight.unclear)
}

/// Takes a cycle of an island, of which the cells in the room are driven, under the groups that run in it.
fn take_cycle(
    plan: &Plan<'_>,
    machine: &mut Machine<'_>,
    instance: usize,
    part: &Component,
    form: &Form,
    cycle: u64,
) -> Result<(), PortFault>
    requires plan { IsPlan plan.now }
    requires machine { IsAt plan.now machine.old }
    requires instance { IsInstance (design_of plan.now) instance }
    requires part { HasPart (design_of plan.now) instance (plain_component part.now) }
    requires form { FormStands (design_of plan.now) instance (plain_form form.now) }
    requires within { cycle < islands.form_length (plain_component part.now) (plain_form form.now) }
    requires cycle { cycle < 2 ^ 64 - 1 }
    requires sampled { SampledBefore (plain_component part.now) cycle (plain_form form.now) (samples_in machine.old) }
    requires driven { ListDriven (design_of plan.now) instance machine.old.room.cells.items
        (λ part. control.form_drives part (plain_form form.now)) }
    requires ascending { IsAscending machine.old.room.cells.items }
    ensures machine { IsAt plan.now machine.new }
    ensures cells { machine.new.room.cells ≡ machine.old.room.cells }
    ensures sampled { AreSampled (plain_component part.now) cycle (plain_form form.now) (samples_in machine.new) }
    ensures taken { CycleTaken (design_of plan.now) (rows_of machine.old) (rows_of machine.new) instance
        (plain_form form.now) (form_drives (plain_form form.now)) cycle (samples_in machine.old)
        (samples_in machine.new) (cycle_as result) }
    ensures active { IfOk result (λ _. HasActive machine.new.room.active
        (active_by (plain_component part.now) (samples_in machine.new) cycle (plain_form form.now))) }
{
    taken_samples_are_of_a_run();
    samples_give_the_cycle();
    timers_give_the_active_groups();
    active_groups_within();
    listed_cells_suffice();
    if let Some(fault) = sample(plan, machine, instance, part, form, cycle) {
        return Err(fault);
    }
    activate(
        part,
        form,
        &machine.room.samples,
        cycle,
        &mut machine.room.active,
    );
    let sight = &mut machine.sight;
    sight.evaluator.cycle_of(
        &mut sight.state,
        instance,
        &machine.room.active,
        machine.room.cells.as_slice(),
    )
}

/// Takes the cycles of an island, of which the cells in the room are driven, and counts them. The idle edges behind them are
/// left to do.
fn take_cycles(
    plan: &Plan<'_>,
    machine: &mut Machine<'_>,
    counts: &mut Counts,
    instance: usize,
    part: &Component,
    form: &Form,
    budget: u64,
) -> Answer
    requires plan { IsPlan plan.now }
    requires machine { IsAt plan.now machine.old }
    requires instance { IsInstance (design_of plan.now) instance }
    requires part { HasPart (design_of plan.now) instance (plain_component part.now) }
    requires form { FormStands (design_of plan.now) instance (plain_form form.now) }
    requires island { IsIsland (design_of plan.now) instance (plain_form form.now) }
    requires driven { ListDriven (design_of plan.now) instance machine.old.room.cells.items
        (λ part. control.form_drives part (plain_form form.now)) }
    requires ascending { IsAscending machine.old.room.cells.items }
    ensures machine { IsAt plan.now machine.new }
    ensures cells { machine.new.room.cells ≡ machine.old.room.cells }
    ensures paused { Paused (design_of plan.now) (rows_of machine.old) (rows_of machine.new) instance
        (form_drives (plain_form form.now))
        (sampled_does (plain_form form.now)
        (islands.form_length (plain_component part.now) (plain_form form.now)) (samples_in machine.old))
        budget result }
    ensures counted { Counted (design_of plan.now) (rows_of machine.old) (plain_counts counts.old)
        (plain_counts counts.new) instance
        (sampled_counts (plain_form form.now)
        (islands.form_length (plain_component part.now) (plain_form form.now)) (samples_in machine.old))
        budget result }
{
    accepted_islands_are_short();
    let length = form_length(part, form);
    for cycle in 0..length.min(budget) {
        if let Err(fault) = take_cycle(plan, machine, instance, part, form, cycle) {
            return Answer::Fault(fault, cycle);
        }
        counts.add_active(instance, &machine.room.active);
    }
    if length < budget {
        Answer::End(length + 1)
    } else {
        Answer::More
    }
}

/// Runs a static statement of dynamic control, or the enable of a static group there.
pub(crate) fn run_island(
    plan: &Plan<'_>,
    machine: &mut Machine<'_>,
    counts: &mut Counts,
    instance: usize,
    form: &Form,
    budget: u64,
) -> Answer
    requires plan { IsPlan plan.now }
    requires machine { IsAt plan.now machine.old }
    requires instance { IsInstance (design_of plan.now) instance }
    requires form { FormStands (design_of plan.now) instance (plain_form form.now) }
    requires island { IsIsland (design_of plan.now) instance (plain_form form.now) }
    ensures machine { IsAt plan.now machine.new }
    ensures done { Done (design_of plan.now) (rows_of machine.old) (rows_of machine.new) instance
        (form_drives (plain_form form.now)) (form_does (plain_form form.now)) budget result }
    ensures counted { Counted (design_of plan.now) (rows_of machine.old) (plain_counts counts.old)
        (plain_counts counts.new) instance (form_counts (plain_form form.now)) budget result }
{
    designs_keep_idle();
    idle_settles();
    accepted_has_no_empty_if();
    islands_run_by_samples();
    islands_count_by_samples();
    let part = instance_part(plan, instance);
    let room = &mut machine.room;
    driven_cells(plan, instance, form, &mut room.marks, &mut room.cells);
    let answer = take_cycles(plan, machine, counts, instance, part, form, budget);
    rest_listed(plan, machine, instance);
    answer
}
