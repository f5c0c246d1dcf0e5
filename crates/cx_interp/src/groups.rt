//! The turns of a group.

ghost use Rattle.std.specs.Prelude.{◌≡◌};
ghost use Rattle.cx_eval_cycle.specs.Passes.{IsAscending};
ghost use Rattle.cx_turns.specs.Groups.{IsGroupOf, ListGroup, ListWithin, group_driving};
ghost use Rattle.cx_turns.specs.Machines.{design_of, rows_of, IsPlan, IsAt, IsInstance};
ghost use Rattle.cx_interp.specs.Counted.{Counted, turns_count_of};
ghost use Rattle.cx_interp.specs.Counts.{plain_counts};
ghost use Rattle.cx_interp.specs.Doings.{turns_do};
ghost use Rattle.cx_interp.specs.Done.{Done};
ghost use Rattle.cx_interp.specs.Pauses.{Paused};

use crate::answers::Answer;
use crate::counts::Counts;
use cx_meaning::laws::{designs_keep_idle, idle_settles};
use cx_turns::machine::Machine;
use cx_turns::plan::Plan;
use cx_turns::rest::rest;
use cx_turns::turns::{Turn, take_turn};

/// Takes the turns of a group, of which the listed cells are driven, until its done hole is 1. The idle edges that end them
/// are left to do.
pub(crate) fn take_turns(
    plan: &Plan<'_>,
    machine: &mut Machine<'_>,
    counts: &mut Counts,
    instance: usize,
    group: u32,
    cells: &[u32],
    budget: u64,
) -> Answer
    requires plan { IsPlan plan.now }
    requires machine { IsAt plan.now machine.old }
    requires instance { IsInstance (design_of plan.now) instance }
    requires group { IsGroupOf (design_of plan.now) instance group }
    requires ascending { IsAscending cells.now }
    requires listed { ListGroup (design_of plan.now) instance group cells.now }
    ensures machine { IsAt plan.now machine.new }
    ensures paused { Paused (design_of plan.now) (rows_of machine.old) (rows_of machine.new) instance
        (group_driving group) (turns_do group) budget result }
    ensures counted { Counted (design_of plan.now) (rows_of machine.old) (plain_counts counts.old)
        (plain_counts counts.new) instance (turns_count_of group) budget result }
{
    for turn in 0..budget {
        match take_turn(plan, machine, instance, group, cells) {
            Turn::Ends => return Answer::End(turn + 1),
            Turn::Goes => counts.add(instance, group),
            Turn::Faults(fault) => return Answer::Fault(fault, turn),
        }
    }
    Answer::More
}

/// Runs a group that calls nothing, of which the listed cells are driven.
pub(crate) fn run_group(
    plan: &Plan<'_>,
    machine: &mut Machine<'_>,
    counts: &mut Counts,
    instance: usize,
    group: u32,
    cells: &[u32],
    budget: u64,
) -> Answer
    requires plan { IsPlan plan.now }
    requires machine { IsAt plan.now machine.old }
    requires instance { IsInstance (design_of plan.now) instance }
    requires group { IsGroupOf (design_of plan.now) instance group }
    requires within { ListWithin (design_of plan.now) instance cells.now }
    requires ascending { IsAscending cells.now }
    requires listed { ListGroup (design_of plan.now) instance group cells.now }
    ensures machine { IsAt plan.now machine.new }
    ensures done { Done (design_of plan.now) (rows_of machine.old) (rows_of machine.new) instance
        (group_driving group) (turns_do group) budget result }
    ensures counted { Counted (design_of plan.now) (rows_of machine.old) (plain_counts counts.old)
        (plain_counts counts.new) instance (turns_count_of group) budget result }
{
    designs_keep_idle();
    idle_settles();
    let answer = take_turns(plan, machine, counts, instance, group, cells, budget);
    rest(plan, machine, instance, cells);
    answer
}
