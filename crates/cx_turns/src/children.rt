//! The children that an instance calls.

ghost use Rattle.cx_design.specs.PlainForms.{plain_statement};
ghost use Rattle.cx_turns.specs.Children.{HasChild, HasControl, HoldsCall, HoldsInput, IsInputOf, IsPart};
ghost use Rattle.cx_turns.specs.Groups.{IsGroupOf};
ghost use Rattle.cx_turns.specs.Machines.{design_of, rows_of, IsPlan, IsAt, IsInstance};

use crate::calls::instance_part;
use crate::machine::Machine;
use crate::plan::Plan;
use cx_design::{Active, PortRef, Statement};
use cx_design_parts::component;
use cx_rules::laws::accepted_group_is_acyclic;
use cx_state::alike_laws::rows_stand;
use cx_state::width_laws::state_seen_has_width;

/// The number of the instance at a component's cell.
pub fn child_number(plan: &Plan<'_>, instance: usize, cell: u32) -> usize
    requires plan { IsPlan plan.now }
    requires instance { IsInstance (design_of plan.now) instance }
    requires part { IsPart (design_of plan.now) instance cell }
    ensures { HasChild (design_of plan.now) instance cell result }
{
    let first = plan.table.rows[instance].first;
    plan.table.children[first + cell as usize]
}

/// The control of an instance.
pub fn control_of<'p>(plan: &'p Plan<'_>, instance: usize) -> &'p Statement
    requires plan { IsPlan plan.now }
    requires instance { IsInstance (design_of plan.now) instance }
    ensures { HasControl (design_of plan.now) instance (plain_statement result.now) }
{
    let number = plan.table.rows[instance].component as usize;
    &component(plan.design, number).control
}

/// Holds an input of a child as it is seen under the group that calls it.
fn hold_input(
    plan: &Plan<'_>,
    machine: &mut Machine<'_>,
    instance: usize,
    group: u32,
    cell: u32,
    child: usize,
    input: usize,
)
    requires plan { IsPlan plan.now }
    requires machine { IsAt plan.now machine.old }
    requires instance { IsInstance (design_of plan.now) instance }
    requires group { IsGroupOf (design_of plan.now) instance group }
    requires part { IsPart (design_of plan.now) instance cell }
    requires child { HasChild (design_of plan.now) instance cell child }
    requires input { IsInputOf (design_of plan.now) child input }
    ensures machine { IsAt plan.now machine.new }
    ensures held { HoldsInput (design_of plan.now) (rows_of machine.old)
        (rows_of machine.new) instance group cell child input }
{
    accepted_group_is_acyclic();
    rows_stand();
    state_seen_has_width();
    let _ = plan;
    let active = Active::Group(group);
    let port = PortRef::Cell(cell, input as u32 + 1);
    let sight = &mut machine.sight;
    let seen = sight.evaluator.seen(&sight.state, instance, &active, port);
    sight.state.hold(child, input, seen);
}

/// Holds the inputs of a child as they are seen under the group that calls it.
pub fn hold_inputs(
    plan: &Plan<'_>,
    machine: &mut Machine<'_>,
    instance: usize,
    group: u32,
    cell: u32,
    child: usize,
)
    requires plan { IsPlan plan.now }
    requires machine { IsAt plan.now machine.old }
    requires instance { IsInstance (design_of plan.now) instance }
    requires group { IsGroupOf (design_of plan.now) instance group }
    requires part { IsPart (design_of plan.now) instance cell }
    requires child { HasChild (design_of plan.now) instance cell child }
    ensures machine { IsAt plan.now machine.new }
    ensures held { HoldsCall (design_of plan.now) (rows_of machine.old)
        (rows_of machine.new) instance group cell child }
{
    let count = instance_part(plan, child).inputs.len();
    for input in 0..count {
        hold_input(plan, machine, instance, group, cell, child, input);
    }
}
