//! The run of a statement, within a budget of turns. The arms of a par run one after the other on the one state.

ghost use Rattle.std.specs.Prelude.{◌≡◌, Some, None};
ghost use Rattle.cx_meaning.specs.Designs as plain;
ghost use Rattle.cx_design.specs.PlainForms.{plain_form, plain_statement, plain_statements};
ghost use Rattle.cx_turns.specs.Groups.{HasLength, IsGroupOf, IsGroupRow};
ghost use Rattle.cx_turns.specs.Machines.{design_of, rows_of, IsPlan, IsAt, IsInstance, FormStands, StandsIn, StandIn};
ghost use Rattle.cx_interp.specs.Counted.{Counted, form_counts, statement_counts};
ghost use Rattle.cx_interp.specs.Counts.{plain_counts};
ghost use Rattle.cx_interp.specs.Doings.{form_does, form_drives, statement_does, statement_drives};
ghost use Rattle.cx_interp.specs.Done.{Done};

use crate::answers::{Answer, idle_turn, join, later, limit};
use crate::captures::end_call;
use crate::counts::Counts;
use crate::groups::run_group;
use crate::islands::run_island;
use cx_design::{Form, PlacedPort, Statement};
use cx_frames::arm_laws::{next_arm, own_inputs_suffice, whole_par};
use cx_profiling::counting_laws::{arms_add_up, own_inputs_suffice_for_counts};
use cx_turns::GroupRow;
use cx_turns::calls::{group_length, group_row};
use cx_turns::children::{child_number, control_of, hold_inputs};
use cx_turns::machine::{Machine, test};
use cx_turns::plan::Plan;

/// Runs a statement in an instance.
#[cycle(control)]
pub(crate) fn run_statement(
    plan: &Plan<'_>,
    machine: &mut Machine<'_>,
    counts: &mut Counts,
    instance: usize,
    statement: &Statement,
    budget: u64,
) -> Answer
    requires plan { IsPlan plan.now }
    requires machine { IsAt plan.now machine.old }
    requires instance { IsInstance (design_of plan.now) instance }
    requires statement { StandsIn (design_of plan.now) instance (plain_statement statement.now) }
    ensures machine { IsAt plan.now machine.new }
    ensures done { Done (design_of plan.now) (rows_of machine.old) (rows_of machine.new) instance
        (statement_drives (plain_statement statement.now))
        (statement_does (plain_statement statement.now)) budget result }
    ensures counted { Counted (design_of plan.now) (rows_of machine.old) (plain_counts counts.old)
        (plain_counts counts.new) instance (statement_counts (plain_statement statement.now)) budget result }
{
    run_form(plan, machine, counts, instance, &statement.form, budget)
}

/// Runs what a form says.
#[cycle(control)]
fn run_form(
    plan: &Plan<'_>,
    machine: &mut Machine<'_>,
    counts: &mut Counts,
    instance: usize,
    form: &Form,
    budget: u64,
) -> Answer
    requires plan { IsPlan plan.now }
    requires machine { IsAt plan.now machine.old }
    requires instance { IsInstance (design_of plan.now) instance }
    requires form { FormStands (design_of plan.now) instance (plain_form form.now) }
    ensures machine { IsAt plan.now machine.new }
    ensures done { Done (design_of plan.now) (rows_of machine.old) (rows_of machine.new) instance
        (form_drives (plain_form form.now)) (form_does (plain_form form.now)) budget result }
    ensures counted { Counted (design_of plan.now) (rows_of machine.old) (plain_counts counts.old)
        (plain_counts counts.new) instance (form_counts (plain_form form.now)) budget result }
{
    match form {
        Form::Empty => idle_turn(budget),
        Form::Enable(group) => run_enable(plan, machine, counts, instance, form, *group, budget),
        Form::Seq(parts) => run_seq(plan, machine, counts, instance, parts, budget),
        Form::Par(arms) => run_par(plan, machine, counts, instance, arms, budget),
        Form::If {
            test,
            comb,
            yes,
            no,
        } => run_if(
            plan, machine, counts, instance, *test, *comb, yes, no, budget,
        ),
        Form::While { test, comb, body } => {
            run_while(plan, machine, counts, instance, *test, *comb, body, budget)
        }
        Form::Repeat { count, body } => run_repeat(
            plan, machine, counts, instance, *count, body, budget,
        ),
        Form::StaticSeq { .. } => run_island(plan, machine, counts, instance, form, budget),
        Form::StaticPar { .. } => run_island(plan, machine, counts, instance, form, budget),
        Form::StaticIf { .. } => run_island(plan, machine, counts, instance, form, budget),
        Form::StaticRepeat { .. } => run_island(plan, machine, counts, instance, form, budget),
        Form::StaticInvoke(_) => Answer::More,
        Form::Timed(_) => Answer::More,
    }
}

/// Runs the parts of a seq, one after the other.
#[cycle(control)]
fn run_seq(
    plan: &Plan<'_>,
    machine: &mut Machine<'_>,
    counts: &mut Counts,
    instance: usize,
    parts: &[Statement],
    budget: u64,
) -> Answer
    requires plan { IsPlan plan.now }
    requires machine { IsAt plan.now machine.old }
    requires instance { IsInstance (design_of plan.now) instance }
    requires parts { StandIn (design_of plan.now) instance (plain_statements parts.now) }
    ensures machine { IsAt plan.now machine.new }
    ensures done { Done (design_of plan.now) (rows_of machine.old) (rows_of machine.new) instance
        (form_drives (plain.Seq (plain_statements parts.now)))
        (form_does (plain.Seq (plain_statements parts.now))) budget result }
    ensures counted { Counted (design_of plan.now) (rows_of machine.old) (plain_counts counts.old)
        (plain_counts counts.new) instance
        (form_counts (plain.Seq (plain_statements parts.now))) budget result }
{
    if parts.is_empty() {
        return idle_turn(budget);
    }
    let mut spent = 0;
    for part in parts {
        match run_statement(plan, machine, counts, instance, part, budget - spent) {
            Answer::End(turns) => spent += turns,
            Answer::Fault(fault, turn) => return Answer::Fault(fault, spent + turn),
            Answer::More => return Answer::More,
        }
    }
    Answer::End(spent)
}

/// Runs the arms of a par, one after the other on the one state. After a fault only what comes before it matters.
#[cycle(control)]
fn run_par(
    plan: &Plan<'_>,
    machine: &mut Machine<'_>,
    counts: &mut Counts,
    instance: usize,
    arms: &[Statement],
    budget: u64,
) -> Answer
    requires plan { IsPlan plan.now }
    requires machine { IsAt plan.now machine.old }
    requires instance { IsInstance (design_of plan.now) instance }
    requires form { FormStands (design_of plan.now) instance (plain.Par (plain_statements arms.now)) }
    ensures machine { IsAt plan.now machine.new }
    ensures done { Done (design_of plan.now) (rows_of machine.old) (rows_of machine.new) instance
        (form_drives (plain.Par (plain_statements arms.now)))
        (form_does (plain.Par (plain_statements arms.now))) budget result }
    ensures counted { Counted (design_of plan.now) (rows_of machine.old) (plain_counts counts.old)
        (plain_counts counts.new) instance
        (form_counts (plain.Par (plain_statements arms.now))) budget result }
{
    next_arm();
    arms_add_up();
    whole_par();
    if arms.is_empty() {
        return idle_turn(budget);
    }
    let mut joined = Answer::End(0);
    for arm in arms {
        let turns = limit(budget, joined);
        let answer = run_statement(plan, machine, counts, instance, arm, turns);
        joined = join(joined, answer);
    }
    joined
}

/// Runs a test, and then one of two statements.
#[cycle(control)]
fn run_if(
    plan: &Plan<'_>,
    machine: &mut Machine<'_>,
    counts: &mut Counts,
    instance: usize,
    port: PlacedPort,
    comb: Option<u32>,
    yes: &Statement,
    no: &Statement,
    budget: u64,
) -> Answer
    requires plan { IsPlan plan.now }
    requires machine { IsAt plan.now machine.old }
    requires instance { IsInstance (design_of plan.now) instance }
    requires form { FormStands (design_of plan.now) instance
        (plain.If port comb (plain_statement yes.now) (plain_statement no.now)) }
    ensures machine { IsAt plan.now machine.new }
    ensures done { Done (design_of plan.now) (rows_of machine.old) (rows_of machine.new) instance
        (form_drives (plain.If port comb (plain_statement yes.now) (plain_statement no.now)))
        (form_does (plain.If port comb (plain_statement yes.now) (plain_statement no.now))) budget result }
    ensures counted { Counted (design_of plan.now) (rows_of machine.old) (plain_counts counts.old)
        (plain_counts counts.new) instance
        (form_counts (plain.If port comb (plain_statement yes.now) (plain_statement no.now))) budget result }
{
    if budget == 0 {
        return Answer::More;
    }
    match test(plan, machine, instance, port.port, comb) {
        Ok(true) => later(
            1,
            run_statement(plan, machine, counts, instance, yes, budget - 1),
        ),
        Ok(false) => later(
            1,
            run_statement(plan, machine, counts, instance, no, budget - 1),
        ),
        Err(fault) => Answer::Fault(fault, 0),
    }
}

/// Runs tests, each with the body after it, until one fails.
#[cycle(control)]
fn run_while(
    plan: &Plan<'_>,
    machine: &mut Machine<'_>,
    counts: &mut Counts,
    instance: usize,
    port: PlacedPort,
    comb: Option<u32>,
    body: &Statement,
    budget: u64,
) -> Answer
    requires plan { IsPlan plan.now }
    requires machine { IsAt plan.now machine.old }
    requires instance { IsInstance (design_of plan.now) instance }
    requires form { FormStands (design_of plan.now) instance (plain.While port comb (plain_statement body.now)) }
    ensures machine { IsAt plan.now machine.new }
    ensures done { Done (design_of plan.now) (rows_of machine.old) (rows_of machine.new) instance
        (form_drives (plain.While port comb (plain_statement body.now)))
        (form_does (plain.While port comb (plain_statement body.now))) budget result }
    ensures counted { Counted (design_of plan.now) (rows_of machine.old) (plain_counts counts.old)
        (plain_counts counts.new) instance
        (form_counts (plain.While port comb (plain_statement body.now))) budget result }
{
    let mut spent = 0;
    while spent < budget {
        match test(plan, machine, instance, port.port, comb) {
            Ok(true) => {}
            Ok(false) => return Answer::End(spent + 1),
            Err(fault) => return Answer::Fault(fault, spent),
        }
        spent += 1;
        match run_statement(plan, machine, counts, instance, body, budget - spent) {
            Answer::End(turns) => spent += turns,
            Answer::Fault(fault, turn) => return Answer::Fault(fault, spent + turn),
            Answer::More => return Answer::More,
        }
    }
    Answer::More
}

/// Runs a statement so many times.
#[cycle(control)]
fn run_repeat(
    plan: &Plan<'_>,
    machine: &mut Machine<'_>,
    counts: &mut Counts,
    instance: usize,
    count: u64,
    body: &Statement,
    budget: u64,
) -> Answer
    requires plan { IsPlan plan.now }
    requires machine { IsAt plan.now machine.old }
    requires instance { IsInstance (design_of plan.now) instance }
    requires body { StandsIn (design_of plan.now) instance (plain_statement body.now) }
    ensures machine { IsAt plan.now machine.new }
    ensures done { Done (design_of plan.now) (rows_of machine.old) (rows_of machine.new) instance
        (form_drives (plain.Repeat count (plain_statement body.now)))
        (form_does (plain.Repeat count (plain_statement body.now))) budget result }
    ensures counted { Counted (design_of plan.now) (rows_of machine.old) (plain_counts counts.old)
        (plain_counts counts.new) instance
        (form_counts (plain.Repeat count (plain_statement body.now))) budget result }
{
    if count == 0 {
        return idle_turn(budget);
    }
    let mut spent = 0;
    for _round in 0..count {
        match run_statement(plan, machine, counts, instance, body, budget - spent) {
            Answer::End(turns) => spent += turns,
            Answer::Fault(fault, turn) => return Answer::Fault(fault, spent + turn),
            Answer::More => return Answer::More,
        }
    }
    Answer::End(spent)
}

/// Runs the enable of a group.
#[cycle(control)]
fn run_enable(
    plan: &Plan<'_>,
    machine: &mut Machine<'_>,
    counts: &mut Counts,
    instance: usize,
    form: &Form,
    group: u32,
    budget: u64,
) -> Answer
    requires plan { IsPlan plan.now }
    requires machine { IsAt plan.now machine.old }
    requires instance { IsInstance (design_of plan.now) instance }
    requires form { FormStands (design_of plan.now) instance (plain_form form.now) }
    requires enable { plain_form form.now ≡ plain.Enable group }
    requires group { IsGroupOf (design_of plan.now) instance group }
    ensures machine { IsAt plan.now machine.new }
    ensures done { Done (design_of plan.now) (rows_of machine.old) (rows_of machine.new) instance
        (form_drives (plain_form form.now)) (form_does (plain_form form.now)) budget result }
    ensures counted { Counted (design_of plan.now) (rows_of machine.old) (plain_counts counts.old)
        (plain_counts counts.new) instance (form_counts (plain_form form.now)) budget result }
{
    match group_length(plan, instance, group) {
        Some(_) => run_island(plan, machine, counts, instance, form, budget),
        None => run_dynamic(plan, machine, counts, instance, group, budget),
    }
}

/// Runs a group that is not static: a call, or turns of its own.
#[cycle(control)]
fn run_dynamic(
    plan: &Plan<'_>,
    machine: &mut Machine<'_>,
    counts: &mut Counts,
    instance: usize,
    group: u32,
    budget: u64,
) -> Answer
    requires plan { IsPlan plan.now }
    requires machine { IsAt plan.now machine.old }
    requires instance { IsInstance (design_of plan.now) instance }
    requires group { IsGroupOf (design_of plan.now) instance group }
    requires dynamic { HasLength (design_of plan.now) instance group None }
    ensures machine { IsAt plan.now machine.new }
    ensures done { Done (design_of plan.now) (rows_of machine.old) (rows_of machine.new) instance
        (form_drives (plain.Enable group)) (form_does (plain.Enable group)) budget result }
    ensures counted { Counted (design_of plan.now) (rows_of machine.old) (plain_counts counts.old)
        (plain_counts counts.new) instance (form_counts (plain.Enable group)) budget result }
{
    let row = group_row(plan, instance, group);
    match row.callee {
        Some(cell) => run_call(plan, machine, counts, instance, group, row, cell, budget),
        None => run_group(
            plan,
            machine,
            counts,
            instance,
            group,
            row.cells.as_slice(),
            budget,
        ),
    }
}

/// Runs a call: the control of the child at the group's cell, with its inputs held.
#[cycle(control)]
fn run_call(
    plan: &Plan<'_>,
    machine: &mut Machine<'_>,
    counts: &mut Counts,
    instance: usize,
    group: u32,
    row: &GroupRow,
    cell: u32,
    budget: u64,
) -> Answer
    requires plan { IsPlan plan.now }
    requires machine { IsAt plan.now machine.old }
    requires instance { IsInstance (design_of plan.now) instance }
    requires group { IsGroupOf (design_of plan.now) instance group }
    requires row { IsGroupRow (design_of plan.now) instance group row.now }
    requires dynamic { HasLength (design_of plan.now) instance group None }
    requires callee { row.now.callee ≡ Some cell }
    ensures machine { IsAt plan.now machine.new }
    ensures done { Done (design_of plan.now) (rows_of machine.old) (rows_of machine.new) instance
        (form_drives (plain.Enable group)) (form_does (plain.Enable group)) budget result }
    ensures counted { Counted (design_of plan.now) (rows_of machine.old) (plain_counts counts.old)
        (plain_counts counts.new) instance (form_counts (plain.Enable group)) budget result }
{
    own_inputs_suffice();
    own_inputs_suffice_for_counts();
    let child = child_number(plan, instance, cell);
    hold_inputs(plan, machine, instance, group, cell, child);
    let control = control_of(plan, child);
    let answer = run_statement(plan, machine, counts, child, control, budget);
    end_call(plan, machine, instance, group, row, cell, budget, answer)
}
