//! What is behind the child's control in a call: an idle turn, or the capture cycle and an idle turn.

ghost use Rattle.std.specs.Prelude.{◌≡◌, ℕ, List, Some};
ghost use Rattle.cx_state.specs.States.{PlainInstance};
ghost use Rattle.cx_turns.specs.Groups.{IsGroupOf, IsGroupRow, group_driving};
ghost use Rattle.cx_turns.specs.Machines.{design_of, rows_of, IsPlan, IsAt, IsInstance};
ghost use Rattle.cx_interp.specs.Callees as callees;
ghost use Rattle.cx_interp.specs.Callees.{after_does, capture_does};
ghost use Rattle.cx_interp.specs.Doings.{Doing, then_does};
ghost use Rattle.cx_interp.specs.Done.{Done, IsWithin};
ghost use Rattle.cx_interp.specs.Pauses.{Paused};

use crate::answers::{Answer, idle_turn, later};
use cx_design::Active;
use cx_frames::apart_laws::listed_cells_suffice;
use cx_meaning::laws::{designs_keep_idle, idle_settles};
use cx_turns::GroupRow;
use cx_turns::machine::Machine;
use cx_turns::plan::Plan;
use cx_turns::rest::rest;

/// The answer of a turn that goes on, with an idle turn behind it.
fn two_turns(budget: u64) -> Answer
    ensures { result ≡ callees.two_turns budget }
{
    if budget > 1 {
        Answer::End(2)
    } else {
        Answer::More
    }
}

/// Takes the capture cycle of a call, of which the listed cells are driven. The idle edges behind it are left to do.
fn capture_turn(
    plan: &Plan<'_>,
    machine: &mut Machine<'_>,
    instance: usize,
    group: u32,
    row: &GroupRow,
    cell: u32,
    budget: u64,
) -> Answer
    requires plan { IsPlan plan.now }
    requires machine { IsAt plan.now machine.old }
    requires instance { IsInstance (design_of plan.now) instance }
    requires group { IsGroupOf (design_of plan.now) instance group }
    requires row { IsGroupRow (design_of plan.now) instance group row.now }
    requires callee { row.now.callee ≡ Some cell }
    ensures machine { IsAt plan.now machine.new }
    ensures paused { Paused (design_of plan.now) (rows_of machine.old) (rows_of machine.new) instance
        (group_driving group) (capture_does group cell) budget result }
{
    listed_cells_suffice();
    let _ = plan;
    let _ = cell;
    if budget == 0 {
        return Answer::More;
    }
    let active = Active::CallEnd(group);
    let cells = row.cells.as_slice();
    let sight = &mut machine.sight;
    match sight
        .evaluator
        .cycle_of(&mut sight.state, instance, &active, cells)
    {
        Ok(()) => two_turns(budget),
        Err(fault) => Answer::Fault(fault, 0),
    }
}

/// The capture cycle of a call, and an idle turn.
fn capture(
    plan: &Plan<'_>,
    machine: &mut Machine<'_>,
    instance: usize,
    group: u32,
    row: &GroupRow,
    cell: u32,
    budget: u64,
) -> Answer
    requires plan { IsPlan plan.now }
    requires machine { IsAt plan.now machine.old }
    requires instance { IsInstance (design_of plan.now) instance }
    requires group { IsGroupOf (design_of plan.now) instance group }
    requires row { IsGroupRow (design_of plan.now) instance group row.now }
    requires callee { row.now.callee ≡ Some cell }
    ensures machine { IsAt plan.now machine.new }
    ensures done { Done (design_of plan.now) (rows_of machine.old) (rows_of machine.new) instance
        (group_driving group) (capture_does group cell) budget result }
{
    designs_keep_idle();
    idle_settles();
    let answer = capture_turn(plan, machine, instance, group, row, cell, budget);
    rest(plan, machine, instance, row.cells.as_slice());
    answer
}

/// What is behind the child's control.
fn after_child(
    plan: &Plan<'_>,
    machine: &mut Machine<'_>,
    instance: usize,
    group: u32,
    row: &GroupRow,
    cell: u32,
    budget: u64,
) -> Answer
    requires plan { IsPlan plan.now }
    requires machine { IsAt plan.now machine.old }
    requires instance { IsInstance (design_of plan.now) instance }
    requires group { IsGroupOf (design_of plan.now) instance group }
    requires row { IsGroupRow (design_of plan.now) instance group row.now }
    requires callee { row.now.callee ≡ Some cell }
    ensures machine { IsAt plan.now machine.new }
    ensures done { Done (design_of plan.now) (rows_of machine.old) (rows_of machine.new) instance
        (group_driving group) (after_does group cell) budget result }
{
    if row.captures {
        capture(plan, machine, instance, group, row, cell, budget)
    } else {
        idle_turn(budget)
    }
}

/// Ends a call whose child's control has this answer.
pub(crate) fn end_call(
    plan: &Plan<'_>,
    machine: &mut Machine<'_>,
    instance: usize,
    group: u32,
    row: &GroupRow,
    cell: u32,
    budget: u64,
    answer: Answer,
) -> Answer
    requires plan { IsPlan plan.now }
    requires machine { IsAt plan.now machine.old }
    requires instance { IsInstance (design_of plan.now) instance }
    requires group { IsGroupOf (design_of plan.now) instance group }
    requires row { IsGroupRow (design_of plan.now) instance group row.now }
    requires callee { row.now.callee ≡ Some cell }
    requires within { IsWithin budget answer }
    ensures machine { IsAt plan.now machine.new }
    ensures done { (old : List PlainInstance) (first : Doing) →
        Done (design_of plan.now) old (rows_of machine.old) instance (group_driving group) first budget answer
        → Done (design_of plan.now) old (rows_of machine.new) instance (group_driving group)
        (then_does first (after_does group cell)) budget result }
    ensures ends { (turns : ℕ) → result ≡ Answer.End turns → (first : ℕ) × (answer ≡ Answer.End first) }
{
    match answer {
        Answer::End(turns) => later(
            turns,
            after_child(plan, machine, instance, group, row, cell, budget - turns),
        ),
        Answer::Fault(fault, turn) => Answer::Fault(fault, turn),
        Answer::More => Answer::More,
    }
}
