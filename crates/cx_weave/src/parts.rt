//! What is left of a statement behind a turn of its part.

ghost use Rattle.std.specs.Prelude.{◌≡◌, ◌+◌, None};
ghost use Rattle.cx_meaning.specs.Designs as plain;
ghost use Rattle.cx_meaning.specs.Designs.{While};
ghost use Rattle.cx_design.specs.PlainForms.{plain_statement, plain_statements};
ghost use Rattle.cx_turns.specs.Machines.{design_of, IsPlan, IsInstance, FormStands, StandsIn, StandIn};
ghost use Rattle.cx_meaning.specs.Instances.{Path, instance_at, tree_of};
ghost use Rattle.cx_state.specs.Tables.{IsNumber};
ghost use Rattle.cx_weave.specs.Ledger.{HasPlaces, Kind, Ledger, Opened, amount, arms_amount, arms_box_amount, arms_left_amount, box_amount, left_amount};
ghost use Rattle.cx_orders.specs.Open.{InLoop, open_statement};
ghost use Rattle.cx_orders.specs.Steps as steps;
ghost use Rattle.cx_weave.specs.Strands.{IsLoop, IsPar, IsRepeat, IsSeq, body_of, later_of, plain_arms, plain_strand, rounds_of, test_of, Shows};
ghost use Rattle.cx_weave.specs.Strides.{IsBehind, IsInFront, LeavesAs, kept_if};
ghost use Rattle.cx_weave.specs.Supplied.{Supplied};
ghost use Rattle.cx_weave.specs.Takes.{box_takes, need, needs};

use crate::leaves::both;
use crate::opening::open_statement;
use crate::spares::{Spares, give_arms, give_box, refilled, take_box};
use crate::strands::{Arms, Strand};
use cx_design::Statement;
use cx_meaning::PlacedPort;
use cx_turns::plan::Plan;
use std::mem::replace;

/// Puts what is left in the place of a strand: whether anything is.
pub(crate) fn put<'a>(strand: &mut Strand<'a>, left: Option<Strand<'a>>) -> bool
    ensures { kept_if result strand.new ≡ left.entry }
{
    match left {
        Some(left) => {
            *strand = left;
            true
        }
        None => false,
    }
}

/// A seq: behind a part that has ended comes the next one.
pub(crate) fn seq_ended<'a>(
    spares: &mut Spares<'a>,
    plan: &'a Plan<'_>,
    instance: usize,
    strand: &mut Strand<'a>,
) -> bool
    requires plan { IsPlan plan.now }
    requires instance { IsInstance (design_of plan.now) instance }
    requires seq { IsSeq strand.old }
    requires later { StandIn (design_of plan.now) instance (later_of (plain_strand strand.old)) }
    requires supplied { Supplied (design_of plan.now) instance spares.old
        (λ k i. box_takes k + needs k i (later_of (plain_strand strand.old))) box_amount }
    ensures leaves { LeavesAs (design_of plan.now) instance None (kept_if result strand.new)
        (λ i. steps.seq_left i (later_of (plain_strand strand.old))) }
    ensures ledger { Ledger spares.old spares.new box_amount (λ x. left_amount x (kept_if result strand.new)) }
{
    match replace(strand, Strand::Waiting) {
        Strand::InSeq { first, later } => {
            let left = next_part(spares, plan, instance, first, later);
            put(strand, left)
        }
        _ => unreachable!(),
    }
}

fn next_part<'a>(
    spares: &mut Spares<'a>,
    plan: &'a Plan<'_>,
    instance: usize,
    room: Box<Strand<'a>>,
    later: &'a [Statement],
) -> Option<Strand<'a>>
    requires plan { IsPlan plan.now }
    requires instance { IsInstance (design_of plan.now) instance }
    requires later { StandIn (design_of plan.now) instance (plain_statements later.now) }
    requires supplied { Supplied (design_of plan.now) instance spares.old
        (λ k i. box_takes k + needs k i (plain_statements later.now)) box_amount }
    ensures leaves { LeavesAs (design_of plan.now) instance None result
        (λ i. steps.seq_left i (plain_statements later.now)) }
    ensures ledger { Ledger spares.old spares.new box_amount (λ x. left_amount x result) }
{
    match later.split_first() {
        None => {
            give_box(spares, room);
            None
        }
        Some((part, later)) => {
            let run = open_statement(spares, plan, instance, part);
            let first = refilled(room, run);
            Some(Strand::InSeq { first, later })
        }
    }
}

/// A while: behind its body comes its test.
pub(crate) fn loop_ended<'a>(spares: &mut Spares<'a>, strand: &mut Strand<'a>)
    requires loops { IsLoop strand.old }
    requires places { HasPlaces spares.old box_amount }
    ensures tests { plain_strand strand.new ≡ test_of (plain_strand strand.old) }
    ensures ledger { Ledger spares.old spares.new box_amount (λ x. amount x strand.new) }
{
    match replace(strand, Strand::Waiting) {
        Strand::InLoop {
            run,
            port,
            comb,
            body,
        } => {
            give_box(spares, run);
            *strand = Strand::Testing { port, comb, body };
        }
        _ => unreachable!(),
    }
}

/// A repeat: behind a round comes the next one.
pub(crate) fn repeat_ended<'a>(
    spares: &mut Spares<'a>,
    plan: &'a Plan<'_>,
    instance: usize,
    strand: &mut Strand<'a>,
) -> bool
    requires plan { IsPlan plan.now }
    requires instance { IsInstance (design_of plan.now) instance }
    requires repeats { IsRepeat strand.old }
    requires body { StandsIn (design_of plan.now) instance (body_of (plain_strand strand.old)) }
    requires supplied { Supplied (design_of plan.now) instance spares.old
        (λ k i. box_takes k + need k i (body_of (plain_strand strand.old))) box_amount }
    ensures leaves { LeavesAs (design_of plan.now) instance None (kept_if result strand.new)
        (λ i. steps.repeat_left i (rounds_of (plain_strand strand.old)) (body_of (plain_strand strand.old))) }
    ensures ledger { Ledger spares.old spares.new box_amount (λ x. left_amount x (kept_if result strand.new)) }
{
    match replace(strand, Strand::Waiting) {
        Strand::InRepeat { run, left, body } => {
            let left = next_round(spares, plan, instance, run, left, body);
            put(strand, left)
        }
        _ => unreachable!(),
    }
}

fn next_round<'a>(
    spares: &mut Spares<'a>,
    plan: &'a Plan<'_>,
    instance: usize,
    room: Box<Strand<'a>>,
    rounds: u64,
    body: &'a Statement,
) -> Option<Strand<'a>>
    requires plan { IsPlan plan.now }
    requires instance { IsInstance (design_of plan.now) instance }
    requires body { StandsIn (design_of plan.now) instance (plain_statement body.now) }
    requires supplied { Supplied (design_of plan.now) instance spares.old
        (λ k i. box_takes k + need k i (plain_statement body.now)) box_amount }
    ensures leaves { LeavesAs (design_of plan.now) instance None result
        (λ i. steps.repeat_left i rounds (plain_statement body.now)) }
    ensures ledger { Ledger spares.old spares.new box_amount (λ x. left_amount x result) }
{
    if rounds == 0 {
        give_box(spares, room);
        return None;
    }
    let run = open_statement(spares, plan, instance, body);
    let run = refilled(room, run);
    let left = rounds - 1;
    Some(Strand::InRepeat { run, left, body })
}

/// The body of a while as it is opened.
pub(crate) fn open_loop<'a>(
    spares: &mut Spares<'a>,
    plan: &'a Plan<'_>,
    instance: usize,
    port: PlacedPort,
    comb: Option<u32>,
    body: &'a Statement,
) -> Strand<'a>
    requires plan { IsPlan plan.now }
    requires instance { IsInstance (design_of plan.now) instance }
    requires stands { FormStands (design_of plan.now) instance (While port comb (plain_statement body.now)) }
    requires supplied { Supplied (design_of plan.now) instance spares.old
        (λ k i. box_takes k + need k i (plain_statement body.now)) (λ x. 0) }
    ensures opens { (path : Path) → IsNumber (design_of plan.now) instance path
        → Shows (design_of plan.now) instance (plain_strand result)
        (InLoop (open_statement (instance_at (tree_of (design_of plan.now)) path)
        (plain_statement body.now)) port.port comb (plain_statement body.now)) }
    ensures ledger { Opened spares.old spares.new result }
{
    let run = open_statement(spares, plan, instance, body);
    let run = take_box(spares, run);
    Strand::InLoop {
        run,
        port,
        comb,
        body,
    }
}

/// A par ends with its last arm.
pub(crate) fn par_ended<'a>(spares: &mut Spares<'a>, strand: &mut Strand<'a>)
    requires par { IsPar strand.old }
    requires places { HasPlaces spares.old arms_box_amount }
    ensures ledger { Ledger spares.old spares.new arms_box_amount (λ x. 0) }
{
    match replace(strand, Strand::Waiting) {
        Strand::InPar(arms) => give_arms(spares, arms),
        _ => unreachable!(),
    }
}

/// The first half of some arms behind a turn: where it has ended, the other alone is open.
pub(crate) fn front_left<'a>(
    spares: &mut Spares<'a>,
    one: Box<Arms<'a>>,
    goes: bool,
    other: Box<Arms<'a>>,
) -> Arms<'a>
    requires places { HasPlaces spares.old (λ x. (arms_box_amount x + arms_left_amount x (kept_if goes one.value))
        + (arms_box_amount x + arms_amount x other.value)) }
    ensures front { IsInFront (kept_if goes one.entry.value) (plain_arms other.entry.value) (plain_arms result) }
    ensures ledger { Ledger spares.old spares.new
        (λ x. (arms_box_amount x + arms_left_amount x (kept_if goes one.entry.value))
        + (arms_box_amount x + arms_amount x other.entry.value)) (λ x. arms_amount x result) }
{
    if goes {
        return both(one, other);
    }
    give_arms(spares, one);
    only(spares, other)
}

/// The second half of some arms behind a turn: where it has ended, the first alone is open.
pub(crate) fn back_left<'a>(
    spares: &mut Spares<'a>,
    one: Box<Arms<'a>>,
    other: Box<Arms<'a>>,
    goes: bool,
) -> Arms<'a>
    requires places { HasPlaces spares.old (λ x. (arms_box_amount x + arms_amount x one.value)
        + (arms_box_amount x + arms_left_amount x (kept_if goes other.value))) }
    ensures behind { IsBehind (kept_if goes other.entry.value) (plain_arms one.entry.value) (plain_arms result) }
    ensures ledger { Ledger spares.old spares.new
        (λ x. (arms_box_amount x + arms_amount x one.entry.value)
        + (arms_box_amount x + arms_left_amount x (kept_if goes other.entry.value))) (λ x. arms_amount x result) }
{
    if goes {
        return both(one, other);
    }
    give_arms(spares, other);
    only(spares, one)
}

/// The half that alone is open.
fn only<'a>(spares: &mut Spares<'a>, half: Box<Arms<'a>>) -> Arms<'a>
    requires places { HasPlaces spares.old arms_box_amount }
    ensures value { result ≡ half.entry.value }
    ensures ledger { Ledger spares.old spares.new arms_box_amount (λ x. 0) }
{
    let mut half = half;
    let arms = replace(&mut *half, Arms::One(Strand::Waiting));
    give_arms(spares, half);
    arms
}
