//! Calls of components.

ghost use Rattle.std.specs.Prelude.{◌≡◌, ◌≢◌, ◌<◌, ◌≤◌, ◌+◌, ℕ, Option, Some, length, vec_capacity, vec_len};
ghost use Rattle.cx_meaning.specs.Instances.{Path, instance_at, tree_of};
ghost use Rattle.cx_turns.specs.Children.{HasChild, IsPart};
ghost use Rattle.cx_turns.specs.Groups.{IsGroupOf};
ghost use Rattle.cx_turns.specs.Machines.{design_of, rows_of, IsPlan, IsAt, IsInstance};
ghost use Rattle.cx_state.specs.Tables.{IsNumber};
ghost use Rattle.cx_state.specs.States.{inputs_held, instance_state};
ghost use Rattle.cx_orders.specs.Open.{Open};
ghost use Rattle.cx_orders.specs.Steps as steps;
ghost use Rattle.cx_weave.specs.Calls.{HoldsAs, HoldsList};
ghost use Rattle.cx_weave.specs.Ledger.{HasPlaces, Lacks, Ledger, Lengths, box_amount, inputs_amount, left_amount, stock};
ghost use Rattle.cx_weave.specs.Strands.{CallsCell, InputsFit, seen_items};
ghost use Rattle.cx_weave.specs.Strides.{LeftShown, kept_if};
ghost use Rattle.cx_weave.specs.Supplied.{Supplied};
ghost use Rattle.cx_weave.specs.Takes.{call_takes};

use crate::spares::{Spares, give_box, give_inputs, take_inputs};
use crate::strands::Strand;
use cx_meaning::Seen;
use cx_turns::calls::group_row;
use cx_turns::children::hold_inputs;
use cx_turns::machine::Machine;
use cx_turns::plan::Plan;

/// Holds the inputs of a child as they are listed.
fn hold_listed(
    plan: &Plan<'_>,
    machine: &mut Machine<'_>,
    instance: usize,
    cell: u32,
    child: usize,
    inputs: &[Seen],
)
    requires plan { IsPlan plan.now }
    requires machine { IsAt plan.now machine.old }
    requires instance { IsInstance (design_of plan.now) instance }
    requires child { HasChild (design_of plan.now) instance cell child }
    requires inputs { InputsFit (design_of plan.now) instance cell (Some inputs.now) }
    ensures machine { IsAt plan.now machine.new }
    ensures held { HoldsList (design_of plan.now) (rows_of machine.old) (rows_of machine.new) child inputs.now }
{
    let _ = plan;
    let _ = instance;
    let _ = cell;
    for input in 0..inputs.len() {
        machine.sight.state.hold(child, input, inputs[input]);
    }
}

/// What the inputs of an instance are held as.
fn held_inputs(spares: &mut Spares<'_>, machine: &Machine<'_>, instance: usize) -> Vec<Seen>
    requires instance { instance < length (rows_of machine.now) }
    requires some { 0 < vec_len spares.old.inputs }
    requires room { (l : Lengths) ×
        (length (instance_state (rows_of machine.now) instance).held ≤ l.inputs) ×
        (stock (Lacks l) spares.old ≤ 0) }
    ensures held { result.items ≡ (instance_state (rows_of machine.now) instance).held }
    ensures ledger { Ledger spares.old spares.new (λ x. 0)
        (λ x. inputs_amount (λ list. vec_capacity list) x (Some result)) }
{
    let mut inputs = take_inputs(spares);
    for seen in &machine.sight.state.instances[instance].held {
        let _ = inputs.push(*seen);
    }
    inputs
}

/// Holds the inputs of a call, which are seen in its first turn.
pub(crate) fn hold_call(
    spares: &mut Spares<'_>,
    plan: &Plan<'_>,
    machine: &mut Machine<'_>,
    instance: usize,
    group: u32,
    cell: u32,
    child: usize,
    inputs: Option<Vec<Seen>>,
) -> Vec<Seen>
    requires plan { IsPlan plan.now }
    requires machine { IsAt plan.now machine.old }
    requires instance { IsInstance (design_of plan.now) instance }
    requires group { IsGroupOf (design_of plan.now) instance group }
    requires part { IsPart (design_of plan.now) instance cell }
    requires child { HasChild (design_of plan.now) instance cell child }
    requires inputs { InputsFit (design_of plan.now) instance cell (seen_items (λ v. v.items) inputs) }
    requires supplied { Supplied (design_of plan.now) instance spares.old (λ k i. call_takes k)
        (λ x. box_amount x + inputs_amount (λ list. vec_capacity list) x inputs) }
    ensures machine { IsAt plan.now machine.new }
    ensures held { HoldsAs (design_of plan.now) (rows_of machine.old)
        (rows_of machine.new) instance group cell child (seen_items (λ v. v.items) inputs) result.items }
    ensures ledger { Ledger spares.old spares.new
        (λ x. inputs_amount (λ list. vec_capacity list) x inputs)
        (λ x. inputs_amount (λ list. vec_capacity list) x (Some result)) }
    ensures others { (m input : ℕ) → m ≢ child →
        inputs_held (rows_of machine.new) m input ≡ inputs_held (rows_of machine.old) m input }
{
    match inputs {
        Some(inputs) => {
            hold_listed(plan, machine, instance, cell, child, &inputs);
            inputs
        }
        None => {
            hold_inputs(plan, machine, instance, group, cell, child);
            held_inputs(spares, machine, child)
        }
    }
}

/// A call: behind the child come the capture cycle, where registers are captured, and an idle turn.
pub(crate) fn call_left<'a>(
    spares: &mut Spares<'a>,
    plan: &'a Plan<'_>,
    instance: usize,
    group: u32,
    cell: u32,
    inputs: Vec<Seen>,
    child: Box<Strand<'a>>,
    goes: bool,
    number: usize,
) -> Option<Strand<'a>>
    requires plan { IsPlan plan.now }
    requires instance { IsInstance (design_of plan.now) instance }
    requires group { IsGroupOf (design_of plan.now) instance group }
    requires calls { CallsCell (design_of plan.now) instance group cell }
    requires child { HasChild (design_of plan.now) instance cell number }
    requires inputs { InputsFit (design_of plan.now) instance cell (Some inputs.items) }
    requires places { HasPlaces spares.old
        (λ x. box_amount x + inputs_amount (λ list. vec_capacity list) x (Some inputs)
        + left_amount x (kept_if goes child.value)) }
    ensures leaves { (path : Path) (o : Option Open) → IsNumber (design_of plan.now) instance path →
        LeftShown (design_of plan.now) number (kept_if goes child.entry.value) o
        → LeftShown (design_of plan.now) instance result
        (steps.call_left (instance_at (tree_of (design_of plan.now)) path) group cell inputs.items o) }
    ensures ledger { Ledger spares.old spares.new
        (λ x. box_amount x + inputs_amount (λ list. vec_capacity list) x (Some inputs)
        + left_amount x (kept_if goes child.entry.value))
        (λ x. left_amount x result) }
{
    let _ = number;
    if goes {
        let inputs = Some(inputs);
        return Some(Strand::InCall {
            group,
            cell,
            inputs,
            child,
        });
    }
    give_box(spares, child);
    give_inputs(spares, inputs);
    let row = group_row(plan, instance, group);
    if row.captures {
        Some(Strand::Capturing { group, cell })
    } else {
        Some(Strand::Closing(group))
    }
}
