//! Idle edges of the cells that a leaf drives, and of all that is below the children among them.

ghost use Rattle.std.specs.Prelude.{◌≡◌, false, List};
ghost use Rattle.cx_eval_cycle.specs.Passes.{IsAscending};
ghost use Rattle.cx_meaning.specs.Cycles.{every_cell};
ghost use Rattle.cx_meaning.specs.Designs.{PlainComponent};
ghost use Rattle.cx_meaning.specs.Instances.{Set};
ghost use Rattle.cx_turns.specs.Groups.{ListDriven, ListWithin};
ghost use Rattle.cx_turns.specs.Machines.{design_of, rows_of, IsPlan, IsAt, IsInstance};
ghost use Rattle.cx_state.specs.States.{PlainInstance};
ghost use Rattle.cx_weave.specs.Deep.{IsCellOf, IsDeep, with_one};
ghost use Rattle.cx_weave.specs.Strides.{HasRested};

use cx_design::CellKind;
use cx_turns::calls::instance_part;
use cx_turns::children::child_number;
use cx_turns::machine::Machine;
use cx_turns::plan::Plan;
use cx_turns::rest::{rest, rest_all};

/// Makes the idle edges of all cells of an instance, and of all that is below it.
#[cycle(rest)]
fn rest_instance(plan: &Plan<'_>, machine: &mut Machine<'_>, instance: usize)
    requires plan { IsPlan plan.now }
    requires machine { IsAt plan.now machine.old }
    requires instance { IsInstance (design_of plan.now) instance }
    ensures machine { IsAt plan.now machine.new }
    ensures rested { HasRested (design_of plan.now) (rows_of machine.old) (rows_of machine.new) instance
        (λ part. every_cell) }
{
    rest_all(plan, machine, instance);
    let count = instance_part(plan, instance).cells.len();
    for cell in 0..count {
        rest_below(plan, machine, instance, cell as u32);
    }
}

/// Makes the idle edges of all that is below a cell of an instance, if it is a child.
#[cycle(rest)]
fn rest_below(plan: &Plan<'_>, machine: &mut Machine<'_>, instance: usize, cell: u32)
    requires plan { IsPlan plan.now }
    requires machine { IsAt plan.now machine.old }
    requires instance { IsInstance (design_of plan.now) instance }
    requires cell { IsCellOf (design_of plan.now) instance cell }
    ensures machine { IsAt plan.now machine.new }
    ensures rested { (rows : List PlainInstance) (below top : Set) → below cell ≡ false →
        IsDeep (design_of plan.now) rows (rows_of machine.old) instance below top
        → IsDeep (design_of plan.now) rows (rows_of machine.new) instance (with_one cell below) top }
{
    let own = &instance_part(plan, instance).cells[cell as usize];
    match own.kind {
        CellKind::Part(_) => {
            let child = child_number(plan, instance, cell);
            rest_instance(plan, machine, child);
        }
        CellKind::Prim(_) => {}
    }
}

/// Makes the idle edges of listed cells of an instance, and of all that is below the children among them.
pub(crate) fn rest_listed(
    plan: &Plan<'_>,
    machine: &mut Machine<'_>,
    instance: usize,
    listed: &[u32],
)
    requires plan { IsPlan plan.now }
    requires machine { IsAt plan.now machine.old }
    requires instance { IsInstance (design_of plan.now) instance }
    requires within { ListWithin (design_of plan.now) instance listed.now }
    requires ascending { IsAscending listed.now }
    ensures machine { IsAt plan.now machine.new }
    ensures rested { (driven : PlainComponent → Set) → ListDriven (design_of plan.now) instance listed.now driven
        → HasRested (design_of plan.now) (rows_of machine.old) (rows_of machine.new) instance driven }
{
    rest(plan, machine, instance, listed);
    for cell in listed {
        rest_below(plan, machine, instance, *cell);
    }
}
