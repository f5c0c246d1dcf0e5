//! A turn of a group.

ghost use Rattle.std.specs.Prelude.{◌≡◌, ◌≢◌, ◌<◌, ◌^◌};
ghost use Rattle.cx_meaning.specs.Truths as truths;
ghost use Rattle.cx_meaning.specs.Truths.{Zero};
ghost use Rattle.cx_eval_cycle.specs.Passes.{IsAscending};
ghost use Rattle.cx_turns.specs.Groups.{IsGroupOf, ListGroup, group_driving};
ghost use Rattle.cx_turns.specs.Machines.{design_of, rows_of, IsPlan, IsAt, IsInstance};
ghost use Rattle.cx_turns.specs.Turns.{HoleTurn, Taken, cycle_as};

use crate::machine::{Machine, port_fault};
use crate::plan::Plan;
use cx_design::{FaultKind, PortFault, PortRef, Seen};
use cx_eval::GroupTurn;
use cx_eval_drives::{Truth, truth_of};
use cx_frames::apart_laws::listed_cells_suffice;

/// What a turn of a group comes to.
#[derive(Clone, Copy, Debug, PartialEq, Eq)]
pub enum Turn {
    /// It is idle, and the last.
    Ends,
    Goes,
    Faults(PortFault),
}

/// The turn of a group whose done hole is seen so, which is not 0.
pub fn hole_turn(instance: usize, group: u32, hole: Seen) -> Turn
    requires instance { instance < 2 ^ 32 }
    requires not_zero { truths.truth_of hole ≢ Zero }
    ensures { HoleTurn instance group (truths.truth_of hole) result }
{
    let done = PortRef::Done(group);
    match truth_of(hole) {
        Truth::One | Truth::Zero => Turn::Ends,
        Truth::Conflict => Turn::Faults(port_fault(FaultKind::Conflict, instance, done)),
        Truth::Undefined => Turn::Faults(port_fault(FaultKind::Undefined, instance, done)),
    }
}

/// The turn of a group in which a cycle ended so.
pub fn cycle_turn(ended: Result<(), PortFault>) -> Turn
    ensures { result ≡ cycle_as ended }
{
    match ended {
        Ok(()) => Turn::Goes,
        Err(fault) => Turn::Faults(fault),
    }
}

/// A turn of a group, of which the listed cells are driven.
pub fn take_turn(
    plan: &Plan<'_>,
    machine: &mut Machine<'_>,
    instance: usize,
    group: u32,
    cells: &[u32],
) -> Turn
    requires plan { IsPlan plan.now }
    requires machine { IsAt plan.now machine.old }
    requires instance { IsInstance (design_of plan.now) instance }
    requires group { IsGroupOf (design_of plan.now) instance group }
    requires ascending { IsAscending cells.now }
    requires listed { ListGroup (design_of plan.now) instance group cells.now }
    ensures evaluator { machine.new.sight.evaluator ≡ machine.old.sight.evaluator }
    ensures room { machine.new.room ≡ machine.old.room }
    ensures taken { Taken (design_of plan.now) (rows_of machine.old) (rows_of machine.new) instance group
        (group_driving group) result }
{
    listed_cells_suffice();
    let _ = plan;
    let sight = &mut machine.sight;
    match sight
        .evaluator
        .group_turn(&mut sight.state, instance, group, cells)
    {
        GroupTurn::Seen(hole) => hole_turn(instance, group, hole),
        GroupTurn::Cycled(ended) => cycle_turn(ended),
    }
}
