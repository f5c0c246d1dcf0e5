//! Turns of leaves, in which only cells that they drive make an edge.

ghost use Rattle.std.specs.Prelude.{◌≡◌, Some};
ghost use Rattle.cx_eval_cycle.specs.Passes.{IsAscending};
ghost use Rattle.cx_turns.specs.Groups.{IsGroupOf, ListGroup};
ghost use Rattle.cx_turns.specs.Machines.{design_of, rows_of, IsPlan, IsAt, IsInstance};
ghost use Rattle.cx_turns.specs.Turns.{cycle_as};
ghost use Rattle.cx_weave.specs.Strands.{CallsCell};
ghost use Rattle.cx_weave.specs.Strides.{TakesTurn};
ghost use Rattle.cx_orders.specs.Leaves.{own_capture, own_turn};

use cx_design::{Active, PortFault};
use cx_eval::GroupTurn;
use cx_turns::machine::Machine;
use cx_turns::plan::Plan;
use cx_turns::turns::{Turn, cycle_turn, hole_turn};

/// Takes a turn of a group, of which the listed cells are driven.
pub(crate) fn take_group(
    plan: &Plan<'_>,
    machine: &mut Machine<'_>,
    instance: usize,
    group: u32,
    cells: &[u32],
) -> Turn
    requires plan { IsPlan plan.now }
    requires machine { IsAt plan.now machine.old }
    requires instance { IsInstance (design_of plan.now) instance }
    requires group { IsGroupOf (design_of plan.now) instance group }
    requires ascending { IsAscending cells.now }
    requires listed { ListGroup (design_of plan.now) instance group cells.now }
    ensures machine { IsAt plan.now machine.new }
    ensures taken { TakesTurn (design_of plan.now) (rows_of machine.old)
        (rows_of machine.new) instance result (λ i held s. own_turn i held group s) }
{
    let _ = plan;
    let sight = &mut machine.sight;
    match sight
        .evaluator
        .group_turn(&mut sight.state, instance, group, cells)
    {
        GroupTurn::Seen(hole) => hole_turn(instance, group, hole),
        GroupTurn::Cycled(ended) => cycle_turn(ended),
    }
}

/// Takes the capture cycle of a call of the child at a cell, of which the listed cells are driven.
pub(crate) fn take_capture(
    plan: &Plan<'_>,
    machine: &mut Machine<'_>,
    instance: usize,
    group: u32,
    cell: u32,
    cells: &[u32],
) -> Result<(), PortFault>
    requires plan { IsPlan plan.now }
    requires machine { IsAt plan.now machine.old }
    requires instance { IsInstance (design_of plan.now) instance }
    requires group { IsGroupOf (design_of plan.now) instance group }
    requires calls { CallsCell (design_of plan.now) instance group cell }
    requires ascending { IsAscending cells.now }
    requires listed { ListGroup (design_of plan.now) instance group cells.now }
    ensures machine { IsAt plan.now machine.new }
    ensures taken { TakesTurn (design_of plan.now) (rows_of machine.old) (rows_of machine.new) instance
        (cycle_as result) (λ i held s. own_capture i held group cell s) }
{
    let _ = plan;
    let _ = cell;
    let active = Active::CallEnd(group);
    let sight = &mut machine.sight;
    sight
        .evaluator
        .cycle_of(&mut sight.state, instance, &active, cells)
}
