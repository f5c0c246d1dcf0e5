//! Strands of statements as they are opened.

ghost use Rattle.std.specs.Prelude.{◌≡◌, ◌<◌, None, length};
ghost use Rattle.cx_meaning.specs.Designs as plain;
ghost use Rattle.cx_meaning.specs.Designs.{Placed, no_place};
ghost use Rattle.cx_design.specs.PlainForms.{plain_form, plain_statement, plain_statements};
ghost use Rattle.cx_turns.specs.Children.{IsPart};
ghost use Rattle.cx_turns.specs.Groups.{HasLength, IsGroupOf};
ghost use Rattle.cx_turns.specs.Islands.{IsIsland};
ghost use Rattle.cx_turns.specs.Machines.{design_of, IsPlan, IsInstance, FormStands, StandsIn, StandIn};
ghost use Rattle.cx_weave.specs.Ledger.{ArmsOpened, Opened};
ghost use Rattle.cx_weave.specs.Strands.{CallsCell};
ghost use Rattle.cx_weave.specs.Strides.{OpenAs, OpensAs};
ghost use Rattle.cx_weave.specs.Supplied.{MayOpen, MayOpenAll};

use crate::leaves::both;
use crate::spares::{Spares, take_arms, take_box};
use crate::static_control::open_island;
use crate::strands::{Arms, Strand};
use cx_design::{Form, Statement};
use cx_turns::calls::{group_length, group_row};
use cx_turns::children::{child_number, control_of};
use cx_turns::plan::Plan;

/// A statement of an instance as it is opened.
#[cycle(opened)]
pub(crate) fn open_statement<'a>(
    spares: &mut Spares<'a>,
    plan: &'a Plan<'_>,
    instance: usize,
    statement: &'a Statement,
) -> Strand<'a>
    requires plan { IsPlan plan.now }
    requires instance { IsInstance (design_of plan.now) instance }
    requires statement { StandsIn (design_of plan.now) instance (plain_statement statement.now) }
    requires supplied { MayOpen (design_of plan.now) instance spares.old (plain_statement statement.now) }
    ensures opens { OpensAs (design_of plan.now) instance (plain_statement statement.now) result }
    ensures ledger { Opened spares.old spares.new result }
{
    open_form(spares, plan, instance, &statement.form)
}

#[cycle(opened)]
fn open_form<'a>(
    spares: &mut Spares<'a>,
    plan: &'a Plan<'_>,
    instance: usize,
    form: &'a Form,
) -> Strand<'a>
    requires plan { IsPlan plan.now }
    requires instance { IsInstance (design_of plan.now) instance }
    requires form { FormStands (design_of plan.now) instance (plain_form form.now) }
    requires supplied { MayOpen (design_of plan.now) instance spares.old (Placed (plain_form form.now) no_place) }
    ensures opens { OpensAs (design_of plan.now) instance (Placed (plain_form form.now) no_place) result }
    ensures ledger { Opened spares.old spares.new result }
{
    match form {
        Form::Empty => Strand::Idling,
        Form::Enable(group) => open_enable(spares, plan, instance, form, *group),
        Form::Seq(parts) => open_seq(spares, plan, instance, parts),
        Form::Par(arms) => open_par(spares, plan, instance, arms),
        Form::If {
            test,
            comb,
            yes,
            no,
        } => Strand::Choosing {
            port: *test,
            comb: *comb,
            first: yes,
            second: no,
        },
        Form::While { test, comb, body } => Strand::Testing {
            port: *test,
            comb: *comb,
            body,
        },
        Form::Repeat { count, body } => open_repeat(spares, plan, instance, *count, body),
        Form::StaticSeq { .. } => open_island(spares, plan, instance, form),
        Form::StaticPar { .. } => open_island(spares, plan, instance, form),
        Form::StaticIf { .. } => open_island(spares, plan, instance, form),
        Form::StaticRepeat { .. } => open_island(spares, plan, instance, form),
        Form::StaticInvoke(_) => Strand::Waiting,
        Form::Timed(_) => Strand::Waiting,
    }
}

/// A seq: its first part is open.
#[cycle(opened)]
fn open_seq<'a>(
    spares: &mut Spares<'a>,
    plan: &'a Plan<'_>,
    instance: usize,
    parts: &'a [Statement],
) -> Strand<'a>
    requires plan { IsPlan plan.now }
    requires instance { IsInstance (design_of plan.now) instance }
    requires parts { StandIn (design_of plan.now) instance (plain_statements parts.now) }
    requires supplied { MayOpen (design_of plan.now) instance spares.old
        (Placed (plain.Seq (plain_statements parts.now)) no_place) }
    ensures opens { OpensAs (design_of plan.now) instance
        (Placed (plain.Seq (plain_statements parts.now)) no_place) result }
    ensures ledger { Opened spares.old spares.new result }
{
    match parts.split_first() {
        None => Strand::Idling,
        Some((part, later)) => {
            let run = open_statement(spares, plan, instance, part);
            let first = take_box(spares, run);
            Strand::InSeq { first, later }
        }
    }
}

/// A par: all its arms are open.
#[cycle(opened)]
fn open_par<'a>(
    spares: &mut Spares<'a>,
    plan: &'a Plan<'_>,
    instance: usize,
    arms: &'a [Statement],
) -> Strand<'a>
    requires plan { IsPlan plan.now }
    requires instance { IsInstance (design_of plan.now) instance }
    requires arms { StandIn (design_of plan.now) instance (plain_statements arms.now) }
    requires supplied { MayOpen (design_of plan.now) instance spares.old
        (Placed (plain.Par (plain_statements arms.now)) no_place) }
    ensures opens { OpensAs (design_of plan.now) instance
        (Placed (plain.Par (plain_statements arms.now)) no_place) result }
    ensures ledger { Opened spares.old spares.new result }
{
    if arms.is_empty() {
        return Strand::Idling;
    }
    let opened = open_arms(spares, plan, instance, arms);
    let room = take_arms(spares, opened);
    Strand::InPar(room)
}

/// Some arms of a par as they are opened, half by half.
#[cycle(opened)]
fn open_arms<'a>(
    spares: &mut Spares<'a>,
    plan: &'a Plan<'_>,
    instance: usize,
    arms: &'a [Statement],
) -> Arms<'a>
    requires plan { IsPlan plan.now }
    requires instance { IsInstance (design_of plan.now) instance }
    requires arms { StandIn (design_of plan.now) instance (plain_statements arms.now) }
    requires some { 0 < length arms.now }
    requires supplied { MayOpenAll (design_of plan.now) instance spares.old (plain_statements arms.now) }
    ensures opens { OpenAs (design_of plan.now) instance (plain_statements arms.now) result }
    ensures ledger { ArmsOpened spares.old spares.new result }
{
    if arms.len() == 1 {
        let strand = open_statement(spares, plan, instance, &arms[0]);
        return Arms::One(strand);
    }
    let (front, back) = arms.split_at(arms.len() / 2);
    let first = open_arms(spares, plan, instance, front);
    let second = open_arms(spares, plan, instance, back);
    let one = take_arms(spares, first);
    let other = take_arms(spares, second);
    both(one, other)
}

/// A repeat: its body is open, for the first round.
#[cycle(opened)]
fn open_repeat<'a>(
    spares: &mut Spares<'a>,
    plan: &'a Plan<'_>,
    instance: usize,
    count: u64,
    body: &'a Statement,
) -> Strand<'a>
    requires plan { IsPlan plan.now }
    requires instance { IsInstance (design_of plan.now) instance }
    requires body { StandsIn (design_of plan.now) instance (plain_statement body.now) }
    requires supplied { MayOpen (design_of plan.now) instance spares.old
        (Placed (plain.Repeat count (plain_statement body.now)) no_place) }
    ensures opens { OpensAs (design_of plan.now) instance
        (Placed (plain.Repeat count (plain_statement body.now)) no_place) result }
    ensures ledger { Opened spares.old spares.new result }
{
    if count == 0 {
        return Strand::Idling;
    }
    let run = open_statement(spares, plan, instance, body);
    let run = take_box(spares, run);
    let left = count - 1;
    Strand::InRepeat { run, left, body }
}

/// The enable of a group: a static group is an island.
#[cycle(opened)]
fn open_enable<'a>(
    spares: &mut Spares<'a>,
    plan: &'a Plan<'_>,
    instance: usize,
    form: &'a Form,
    group: u32,
) -> Strand<'a>
    requires plan { IsPlan plan.now }
    requires instance { IsInstance (design_of plan.now) instance }
    requires form { FormStands (design_of plan.now) instance (plain_form form.now) }
    requires enable { plain_form form.now ≡ plain.Enable group }
    requires group { IsGroupOf (design_of plan.now) instance group }
    requires supplied { MayOpen (design_of plan.now) instance spares.old (Placed (plain.Enable group) no_place) }
    ensures opens { OpensAs (design_of plan.now) instance (Placed (plain.Enable group) no_place) result }
    ensures ledger { Opened spares.old spares.new result }
{
    match group_length(plan, instance, group) {
        Some(_) => open_island(spares, plan, instance, form),
        None => open_dynamic(spares, plan, instance, group),
    }
}

/// Another group, which may call a child.
#[cycle(opened)]
fn open_dynamic<'a>(
    spares: &mut Spares<'a>,
    plan: &'a Plan<'_>,
    instance: usize,
    group: u32,
) -> Strand<'a>
    requires plan { IsPlan plan.now }
    requires instance { IsInstance (design_of plan.now) instance }
    requires group { IsGroupOf (design_of plan.now) instance group }
    requires dynamic { HasLength (design_of plan.now) instance group None }
    requires supplied { MayOpen (design_of plan.now) instance spares.old (Placed (plain.Enable group) no_place) }
    ensures opens { OpensAs (design_of plan.now) instance (Placed (plain.Enable group) no_place) result }
    ensures ledger { Opened spares.old spares.new result }
{
    let row = group_row(plan, instance, group);
    match row.callee {
        Some(cell) => open_call(spares, plan, instance, group, cell),
        None => Strand::InGroup(group),
    }
}

/// A call: the control of the child is open.
#[cycle(opened)]
fn open_call<'a>(
    spares: &mut Spares<'a>,
    plan: &'a Plan<'_>,
    instance: usize,
    group: u32,
    cell: u32,
) -> Strand<'a>
    requires plan { IsPlan plan.now }
    requires instance { IsInstance (design_of plan.now) instance }
    requires group { IsGroupOf (design_of plan.now) instance group }
    requires dynamic { HasLength (design_of plan.now) instance group None }
    requires part { IsPart (design_of plan.now) instance cell }
    requires calls { CallsCell (design_of plan.now) instance group cell }
    requires supplied { MayOpen (design_of plan.now) instance spares.old (Placed (plain.Enable group) no_place) }
    ensures opens { OpensAs (design_of plan.now) instance (Placed (plain.Enable group) no_place) result }
    ensures ledger { Opened spares.old spares.new result }
{
    let number = child_number(plan, instance, cell);
    let control = control_of(plan, number);
    let run = open_statement(spares, plan, number, control);
    let child = take_box(spares, run);
    let inputs = None;
    Strand::InCall {
        group,
        cell,
        inputs,
        child,
    }
}
