//! A turn of one leaf of what is open.

ghost use Rattle.std.specs.Prelude.{◌<◌, ◌+◌, ℕ, vec_capacity};
ghost use Rattle.cx_turns.specs.Machines.{design_of, rows_of, IsPlan, IsAt, IsInstance};
ghost use Rattle.cx_weave.specs.Ledger.{ArmsTurned, HasPlaces, Turned, amount, arms_amount, arms_box_amount, box_amount, inputs_amount};
ghost use Rattle.cx_weave.specs.Strands.{ACall, AreHalved, AreShown, HasNoPart, IsShown, arms_leaves, both_arms, plain_arms, plain_strand, seen_items, strand_leaves};
ghost use Rattle.cx_weave.specs.Strides.{HasStepped, HaveStepped, left_by, some_left};
ghost use Rattle.cx_weave.specs.Supplied.{MayTurn, MayTurnAll};

use crate::calls::{call_left, hold_call};
use crate::islands::step_island;
use crate::leaf_turns::{step_capture, step_choice, step_closing, step_group, step_test};
use crate::leaves::count_arms;
use crate::parts::{back_left, front_left, loop_ended, par_ended, put, repeat_ended, seq_ended};
use crate::spares::Spares;
use crate::strands::{Arms, Strand};
use cx_design::PortFault;
use cx_meaning::Seen;
use cx_turns::children::child_number;
use cx_turns::machine::Machine;
use cx_turns::plan::Plan;
use std::mem::replace;

/// Takes a turn of a leaf of a strand of an instance, by its number, in place: whether anything is left of the strand. What
/// lies above the leaf is not moved.
#[cycle(step)]
pub(crate) fn step<'a>(
    spares: &mut Spares<'a>,
    plan: &'a Plan<'_>,
    machine: &mut Machine<'_>,
    instance: usize,
    strand: &mut Strand<'a>,
    leaf: u32,
) -> Result<bool, PortFault>
    requires plan { IsPlan plan.now }
    requires machine { IsAt plan.now machine.old }
    requires instance { IsInstance (design_of plan.now) instance }
    requires shown { IsShown (design_of plan.now) instance (plain_strand strand.old) }
    requires leaf { leaf < strand_leaves (plain_strand strand.old) }
    requires supplied { MayTurn (design_of plan.now) instance spares.old (plain_strand strand.old)
        (λ x. amount x strand.old) }
    ensures machine { IsAt plan.now machine.new }
    ensures stepped { HasStepped (design_of plan.now) (rows_of machine.old) (rows_of machine.new) instance
        (plain_strand strand.old) leaf (left_by result strand.new) }
    ensures ledger { Turned spares.old spares.new (λ x. amount x strand.old) (left_by result strand.new) }
{
    match strand {
        Strand::InSeq { first, .. } => match step(spares, plan, machine, instance, first, leaf) {
            Ok(true) => Ok(true),
            Ok(false) => Ok(seq_ended(spares, plan, instance, strand)),
            Err(fault) => Err(fault),
        },
        Strand::InPar(arms) => match step_arms(spares, plan, machine, instance, arms, leaf) {
            Ok(true) => Ok(true),
            Ok(false) => {
                par_ended(spares, strand);
                Ok(false)
            }
            Err(fault) => Err(fault),
        },
        Strand::InLoop { run, .. } => match step(spares, plan, machine, instance, run, leaf) {
            Ok(true) => Ok(true),
            Ok(false) => {
                loop_ended(spares, strand);
                Ok(true)
            }
            Err(fault) => Err(fault),
        },
        Strand::InRepeat { run, .. } => match step(spares, plan, machine, instance, run, leaf) {
            Ok(true) => Ok(true),
            Ok(false) => Ok(repeat_ended(spares, plan, instance, strand)),
            Err(fault) => Err(fault),
        },
        Strand::InGroup(group) => step_group(plan, machine, instance, *group, leaf),
        _ => step_whole(spares, plan, machine, instance, strand, leaf),
    }
}

/// That of a leaf that is no group, or of a call, which is taken out of its place.
#[cycle(step)]
fn step_whole<'a>(
    spares: &mut Spares<'a>,
    plan: &'a Plan<'_>,
    machine: &mut Machine<'_>,
    instance: usize,
    strand: &mut Strand<'a>,
    leaf: u32,
) -> Result<bool, PortFault>
    requires plan { IsPlan plan.now }
    requires machine { IsAt plan.now machine.old }
    requires instance { IsInstance (design_of plan.now) instance }
    requires whole { HasNoPart strand.old }
    requires shown { IsShown (design_of plan.now) instance (plain_strand strand.old) }
    requires leaf { leaf < strand_leaves (plain_strand strand.old) }
    requires supplied { MayTurn (design_of plan.now) instance spares.old (plain_strand strand.old)
        (λ x. amount x strand.old) }
    ensures machine { IsAt plan.now machine.new }
    ensures stepped { HasStepped (design_of plan.now) (rows_of machine.old) (rows_of machine.new) instance
        (plain_strand strand.old) leaf (left_by result strand.new) }
    ensures ledger { Turned spares.old spares.new (λ x. amount x strand.old) (left_by result strand.new) }
{
    let whole = replace(strand, Strand::Waiting);
    match step_out(spares, plan, machine, instance, whole, leaf) {
        Ok(left) => Ok(put(strand, left)),
        Err(fault) => Err(fault),
    }
}

/// What is left of a strand of which no part is open, behind a turn of its leaf.
#[cycle(step)]
fn step_out<'a>(
    spares: &mut Spares<'a>,
    plan: &'a Plan<'_>,
    machine: &mut Machine<'_>,
    instance: usize,
    strand: Strand<'a>,
    leaf: u32,
) -> Result<Option<Strand<'a>>, PortFault>
    requires plan { IsPlan plan.now }
    requires machine { IsAt plan.now machine.old }
    requires instance { IsInstance (design_of plan.now) instance }
    requires whole { HasNoPart strand }
    requires shown { IsShown (design_of plan.now) instance (plain_strand strand) }
    requires leaf { leaf < strand_leaves (plain_strand strand) }
    requires supplied { MayTurn (design_of plan.now) instance spares.old (plain_strand strand) (λ x. amount x strand) }
    ensures machine { IsAt plan.now machine.new }
    ensures stepped { HasStepped (design_of plan.now) (rows_of machine.old) (rows_of machine.new) instance
        (plain_strand strand.entry) leaf result }
    ensures ledger { Turned spares.old spares.new (λ x. amount x strand.entry) result }
{
    match strand {
        Strand::Idling => Ok(None),
        Strand::Choosing {
            port,
            comb,
            first,
            second,
        } => step_choice(
            spares, plan, machine, instance, port, comb, first, second, leaf,
        ),
        Strand::Testing { port, comb, body } => {
            step_test(spares, plan, machine, instance, port, comb, body, leaf)
        }
        Strand::InIsland(island) => step_island(spares, plan, machine, instance, island, leaf),
        Strand::Capturing { group, cell } => {
            step_capture(plan, machine, instance, group, cell, leaf)
        }
        Strand::Closing(group) => step_closing(plan, machine, instance, group, leaf),
        Strand::Waiting => Ok(Some(Strand::Waiting)),
        Strand::InCall {
            group,
            cell,
            inputs,
            child,
        } => {
            step_call(
                spares, plan, machine, instance, group, cell, inputs, child, leaf,
            )
        }
        Strand::InGroup(_) => unreachable!(),
        Strand::InSeq { .. } => unreachable!(),
        Strand::InPar(_) => unreachable!(),
        Strand::InLoop { .. } => unreachable!(),
        Strand::InRepeat { .. } => unreachable!(),
    }
}

/// That of arms: of the half in which the leaf is.
#[cycle(step)]
fn step_arms<'a>(
    spares: &mut Spares<'a>,
    plan: &'a Plan<'_>,
    machine: &mut Machine<'_>,
    instance: usize,
    arms: &mut Arms<'a>,
    leaf: u32,
) -> Result<bool, PortFault>
    requires plan { IsPlan plan.now }
    requires machine { IsAt plan.now machine.old }
    requires instance { IsInstance (design_of plan.now) instance }
    requires shown { AreShown (design_of plan.now) instance (plain_arms arms.old) }
    requires leaf { leaf < arms_leaves (plain_arms arms.old) }
    requires supplied { MayTurnAll (design_of plan.now) instance spares.old (plain_arms arms.old)
        (λ x. arms_amount x arms.old) }
    ensures machine { IsAt plan.now machine.new }
    ensures stepped { HaveStepped (design_of plan.now) (rows_of machine.old)
        (rows_of machine.new) instance (plain_arms arms.old) leaf (left_by result arms.new) }
    ensures ledger { ArmsTurned spares.old spares.new (λ x. arms_amount x arms.old) (left_by result arms.new) }
{
    match arms {
        Arms::One(arm) => step(spares, plan, machine, instance, arm, leaf),
        Arms::Both { .. } => {
            let both = replace(arms, Arms::One(Strand::Waiting));
            match step_both(spares, plan, machine, instance, both, leaf) {
                Ok(left) => {
                    *arms = left;
                    Ok(true)
                }
                Err(fault) => Err(fault),
            }
        }
    }
}

/// That of two halves.
#[cycle(step)]
fn step_both<'a>(
    spares: &mut Spares<'a>,
    plan: &'a Plan<'_>,
    machine: &mut Machine<'_>,
    instance: usize,
    arms: Arms<'a>,
    leaf: u32,
) -> Result<Arms<'a>, PortFault>
    requires plan { IsPlan plan.now }
    requires machine { IsAt plan.now machine.old }
    requires instance { IsInstance (design_of plan.now) instance }
    requires halved { AreHalved arms }
    requires shown { AreShown (design_of plan.now) instance (plain_arms arms) }
    requires leaf { leaf < arms_leaves (plain_arms arms) }
    requires supplied { MayTurnAll (design_of plan.now) instance spares.old (plain_arms arms) (λ x. arms_amount x arms) }
    ensures machine { IsAt plan.now machine.new }
    ensures stepped { HaveStepped (design_of plan.now) (rows_of machine.old)
        (rows_of machine.new) instance (plain_arms arms.entry) leaf (some_left result) }
    ensures ledger { ArmsTurned spares.old spares.new (λ x. arms_amount x arms.entry) (some_left result) }
{
    match arms {
        Arms::One(_) => unreachable!(),
        Arms::Both { one, other, .. } => {
            let leaves = count_arms(&one);
            if u64::from(leaf) < leaves {
                step_front(spares, plan, machine, instance, one, other, leaf)
            } else {
                let leaf = leaf - leaves as u32;
                step_back(spares, plan, machine, instance, one, other, leaf)
            }
        }
    }
}

/// That of the first half of some arms.
#[cycle(step)]
fn step_front<'a>(
    spares: &mut Spares<'a>,
    plan: &'a Plan<'_>,
    machine: &mut Machine<'_>,
    instance: usize,
    one: Box<Arms<'a>>,
    other: Box<Arms<'a>>,
    leaf: u32,
) -> Result<Arms<'a>, PortFault>
    requires plan { IsPlan plan.now }
    requires machine { IsAt plan.now machine.old }
    requires instance { IsInstance (design_of plan.now) instance }
    requires shown { AreShown (design_of plan.now) instance (plain_arms one.value) }
    requires leaf { leaf < arms_leaves (plain_arms one.value) }
    requires supplied { MayTurnAll (design_of plan.now) instance spares.old (plain_arms one.value)
        (λ x. arms_amount x one.value) }
    requires places { HasPlaces spares.old (λ x.
        (arms_box_amount x + arms_amount x one.value) + (arms_box_amount x + arms_amount x other.value)) }
    ensures machine { IsAt plan.now machine.new }
    ensures stepped { (leaves : ℕ) → HaveStepped (design_of plan.now) (rows_of machine.old)
        (rows_of machine.new) instance
        (both_arms leaves (plain_arms one.entry.value) (plain_arms other.entry.value)) leaf (some_left result) }
    ensures ledger { ArmsTurned spares.old spares.new
        (λ x. (arms_box_amount x + arms_amount x one.entry.value)
        + (arms_box_amount x + arms_amount x other.entry.value)) (some_left result) }
{
    let mut one = one;
    let goes = step_arms(spares, plan, machine, instance, &mut one, leaf)?;
    Ok(front_left(spares, one, goes, other))
}

/// That of the second half, by the number of the leaf in it.
#[cycle(step)]
fn step_back<'a>(
    spares: &mut Spares<'a>,
    plan: &'a Plan<'_>,
    machine: &mut Machine<'_>,
    instance: usize,
    one: Box<Arms<'a>>,
    other: Box<Arms<'a>>,
    leaf: u32,
) -> Result<Arms<'a>, PortFault>
    requires plan { IsPlan plan.now }
    requires machine { IsAt plan.now machine.old }
    requires instance { IsInstance (design_of plan.now) instance }
    requires shown { AreShown (design_of plan.now) instance (plain_arms other.value) }
    requires leaf { leaf < arms_leaves (plain_arms other.value) }
    requires supplied { MayTurnAll (design_of plan.now) instance spares.old (plain_arms other.value)
        (λ x. arms_amount x other.value) }
    requires places { HasPlaces spares.old (λ x.
        (arms_box_amount x + arms_amount x one.value) + (arms_box_amount x + arms_amount x other.value)) }
    ensures machine { IsAt plan.now machine.new }
    ensures stepped { (leaves : ℕ) → HaveStepped (design_of plan.now) (rows_of machine.old)
        (rows_of machine.new) instance
        (both_arms leaves (plain_arms one.entry.value) (plain_arms other.entry.value))
        (arms_leaves (plain_arms one.entry.value) + leaf) (some_left result) }
    ensures ledger { ArmsTurned spares.old spares.new
        (λ x. (arms_box_amount x + arms_amount x one.entry.value)
        + (arms_box_amount x + arms_amount x other.entry.value)) (some_left result) }
{
    let mut other = other;
    let goes = step_arms(spares, plan, machine, instance, &mut other, leaf)?;
    Ok(back_left(spares, one, other, goes))
}

/// That of a call: of the child's control, with the inputs of the call held.
#[cycle(step)]
fn step_call<'a>(
    spares: &mut Spares<'a>,
    plan: &'a Plan<'_>,
    machine: &mut Machine<'_>,
    instance: usize,
    group: u32,
    cell: u32,
    inputs: Option<Vec<Seen>>,
    child: Box<Strand<'a>>,
    leaf: u32,
) -> Result<Option<Strand<'a>>, PortFault>
    requires plan { IsPlan plan.now }
    requires machine { IsAt plan.now machine.old }
    requires instance { IsInstance (design_of plan.now) instance }
    requires shown { IsShown (design_of plan.now) instance
        (ACall group cell (seen_items (λ v. v.items) inputs) (plain_strand child.value)) }
    requires leaf { leaf < strand_leaves (plain_strand child.value) }
    requires supplied { MayTurn (design_of plan.now) instance spares.old
        (ACall group cell (seen_items (λ v. v.items) inputs) (plain_strand child.value))
        (λ x. box_amount x + inputs_amount (λ list. vec_capacity list) x inputs + amount x child.value) }
    ensures machine { IsAt plan.now machine.new }
    ensures stepped { HasStepped (design_of plan.now) (rows_of machine.old) (rows_of machine.new) instance
        (ACall group cell (seen_items (λ v. v.items) inputs) (plain_strand child.entry.value)) leaf result }
    ensures ledger { Turned spares.old spares.new
        (λ x. box_amount x + inputs_amount (λ list. vec_capacity list) x inputs + amount x child.entry.value) result }
{
    let number = child_number(plan, instance, cell);
    let inputs = hold_call(spares, plan, machine, instance, group, cell, number, inputs);
    let mut child = child;
    let goes = step(spares, plan, machine, number, &mut child, leaf)?;
    Ok(call_left(
        spares, plan, instance, group, cell, inputs, child, goes, number,
    ))
}
