//! The samples of an island.

ghost use Rattle.std.specs.Prelude.{◌≡◌, ◌≤◌, ◌<◌, ◌+◌, ◌-◌, ◌^◌, length};
ghost use Rattle.cx_design.specs.PlainForms.{plain_component, plain_form, plain_statement, plain_statements};
ghost use Rattle.cx_meaning.specs.Islands.{first_unclear};
ghost use Rattle.cx_laws.specs.Positions.{port_at};
ghost use Rattle.cx_laws.specs.Samples.{says, form_ifs, ifs_of, ifs_in, begin, begun_by, samples_after, form_after, statement_after, while_after, parts_after, arms_after};
ghost use Rattle.cx_interp_islands.specs.Asked.{AllPorts, AreStill, form_tests, tests_of, tests_in, earlier_fault, form_asked, statement_asked, while_asked, parts_asked, arms_asked};
ghost use Rattle.cx_interp_islands.specs.Rooms.{samples_of};

use crate::counts::sample_count;
use crate::offsets::{is_running, round_offset};
use crate::sampler::Sampler;
use cx_design::{Component, Form, Statement};
use cx_design_sizes::length_of;
use cx_meaning::PortRef;

/// Takes the samples of the static ifs that begin in a cycle of an island. It asks their ports in source order, and no others.
pub fn take_samples<S: Sampler>(
    part: &Component,
    form: &Form,
    cycle: u64,
    samples: &mut [bool],
    sampler: &mut S,
)
    requires cycle { cycle < 2 ^ 64 - 1 }
    requires samples { form_ifs (plain_form form.now) ≤ length samples.old }
    requires ports { AllPorts (S.answers sampler.old) (form_tests (plain_form form.now)) }
    ensures value { samples_of samples.new ≡
        samples_after (plain_component part.now) (says (S.look sampler.old)) cycle (plain_form form.now)
        (samples_of samples.old) }
    ensures length { length samples.new ≡ length samples.old }
    ensures look { S.look sampler.new ≡ S.look sampler.old }
    ensures kept { S.kept sampler.new ≡ S.kept sampler.old }
    ensures answers { AreStill (S.answers sampler.old) (S.answers sampler.new) }
    ensures fault { S.fault sampler.new ≡ earlier_fault (S.fault sampler.old)
        (first_unclear (S.look sampler.old)
        (begun_by (plain_component part.now) (samples_of samples.new) cycle (plain_form form.now))) }
{
    take_form(part, 0, cycle, form, samples, sampler);
}

/// Those of a form at an offset, whose first static if has this number.
#[cycle(take)]
fn take_form<S: Sampler>(
    part: &Component,
    number: usize,
    offset: u64,
    form: &Form,
    samples: &mut [bool],
    sampler: &mut S,
)
    requires offset { offset < 2 ^ 64 - 1 }
    requires samples { number + form_ifs (plain_form form.now) ≤ length samples.old }
    requires ports { AllPorts (S.answers sampler.old) (form_tests (plain_form form.now)) }
    ensures value { samples_of samples.new ≡
        form_after (plain_component part.now) (says (S.look sampler.old)) (plain_form form.now) number offset
        (samples_of samples.old) }
    ensures length { length samples.new ≡ length samples.old }
    ensures look { S.look sampler.new ≡ S.look sampler.old }
    ensures kept { S.kept sampler.new ≡ S.kept sampler.old }
    ensures answers { AreStill (S.answers sampler.old) (S.answers sampler.new) }
    ensures fault { S.fault sampler.new ≡ earlier_fault (S.fault sampler.old)
        (first_unclear (S.look sampler.old) (form_asked (plain_component part.now) (says (S.look sampler.old))
        (plain_form form.now) number offset (samples_of samples.old))) }
{
    match form {
        Form::StaticSeq { parts, .. } => take_parts(part, number, offset, parts, samples, sampler),
        Form::StaticPar { parts, .. } => take_arms(part, number, offset, parts, samples, sampler),
        Form::StaticIf { test, yes, no, .. } => {
            take_sample(number, offset, test.port, samples, sampler);
            if samples[number] {
                take_while(part, number + 1, offset, yes, samples, sampler);
            } else {
                let first = number + 1 + sample_count(yes);
                take_while(part, first, offset, no, samples, sampler);
            }
        }
        Form::StaticRepeat { body, .. } => {
            let offset = round_offset(part, body, offset);
            take_statement(part, number, offset, body, samples, sampler);
        }
        Form::Empty
        | Form::Enable(_)
        | Form::Seq(_)
        | Form::Par(_)
        | Form::If { .. }
        | Form::While { .. }
        | Form::Repeat { .. }
        | Form::StaticInvoke(_)
        | Form::Timed(_) => {}
    }
}

/// That of a static if, where it begins.
fn take_sample<S: Sampler>(
    number: usize,
    offset: u64,
    port: PortRef,
    samples: &mut [bool],
    sampler: &mut S,
)
    requires number { number < length samples.old }
    requires port { S.answers sampler.old port }
    ensures value { samples_of samples.new ≡
        begin number offset (says (S.look sampler.old) port) (samples_of samples.old) }
    ensures length { length samples.new ≡ length samples.old }
    ensures look { S.look sampler.new ≡ S.look sampler.old }
    ensures kept { S.kept sampler.new ≡ S.kept sampler.old }
    ensures answers { AreStill (S.answers sampler.old) (S.answers sampler.new) }
    ensures fault { S.fault sampler.new ≡
        earlier_fault (S.fault sampler.old) (first_unclear (S.look sampler.old) (port_at port offset)) }
{
    if offset == 0 {
        samples[number] = sampler.says(port);
    }
}

#[cycle(take)]
fn take_statement<S: Sampler>(
    part: &Component,
    number: usize,
    offset: u64,
    statement: &Statement,
    samples: &mut [bool],
    sampler: &mut S,
)
    requires offset { offset < 2 ^ 64 - 1 }
    requires samples { number + ifs_of (plain_statement statement.now) ≤ length samples.old }
    requires ports { AllPorts (S.answers sampler.old) (tests_of (plain_statement statement.now)) }
    ensures value { samples_of samples.new ≡
        statement_after (plain_component part.now) (says (S.look sampler.old))
        (plain_statement statement.now) number offset (samples_of samples.old) }
    ensures length { length samples.new ≡ length samples.old }
    ensures look { S.look sampler.new ≡ S.look sampler.old }
    ensures kept { S.kept sampler.new ≡ S.kept sampler.old }
    ensures answers { AreStill (S.answers sampler.old) (S.answers sampler.new) }
    ensures fault { S.fault sampler.new ≡ earlier_fault (S.fault sampler.old)
        (first_unclear (S.look sampler.old) (statement_asked (plain_component part.now)
        (says (S.look sampler.old)) (plain_statement statement.now) number offset (samples_of samples.old))) }
{
    take_form(part, number, offset, &statement.form, samples, sampler);
}

/// Those of a branch or an arm, which may be over.
#[cycle(take)]
fn take_while<S: Sampler>(
    part: &Component,
    number: usize,
    offset: u64,
    statement: &Statement,
    samples: &mut [bool],
    sampler: &mut S,
)
    requires offset { offset < 2 ^ 64 - 1 }
    requires samples { number + ifs_of (plain_statement statement.now) ≤ length samples.old }
    requires ports { AllPorts (S.answers sampler.old) (tests_of (plain_statement statement.now)) }
    ensures value { samples_of samples.new ≡
        while_after (plain_component part.now) (says (S.look sampler.old))
        (plain_statement statement.now) number offset (samples_of samples.old) }
    ensures length { length samples.new ≡ length samples.old }
    ensures look { S.look sampler.new ≡ S.look sampler.old }
    ensures kept { S.kept sampler.new ≡ S.kept sampler.old }
    ensures answers { AreStill (S.answers sampler.old) (S.answers sampler.new) }
    ensures fault { S.fault sampler.new ≡ earlier_fault (S.fault sampler.old)
        (first_unclear (S.look sampler.old) (while_asked (plain_component part.now)
        (says (S.look sampler.old)) (plain_statement statement.now) number offset (samples_of samples.old))) }
{
    if is_running(part, statement, offset) {
        take_statement(part, number, offset, statement, samples, sampler);
    }
}

/// Those of the part of a seq that runs.
#[cycle(take)]
fn take_parts<S: Sampler>(
    part: &Component,
    number: usize,
    offset: u64,
    parts: &[Statement],
    samples: &mut [bool],
    sampler: &mut S,
)
    requires offset { offset < 2 ^ 64 - 1 }
    requires samples { number + ifs_in (plain_statements parts.now) ≤ length samples.old }
    requires ports { AllPorts (S.answers sampler.old) (tests_in (plain_statements parts.now)) }
    ensures value { samples_of samples.new ≡
        parts_after (plain_component part.now) (says (S.look sampler.old))
        (plain_statements parts.now) number offset (samples_of samples.old) }
    ensures length { length samples.new ≡ length samples.old }
    ensures look { S.look sampler.new ≡ S.look sampler.old }
    ensures kept { S.kept sampler.new ≡ S.kept sampler.old }
    ensures answers { AreStill (S.answers sampler.old) (S.answers sampler.new) }
    ensures fault { S.fault sampler.new ≡ earlier_fault (S.fault sampler.old)
        (first_unclear (S.look sampler.old) (parts_asked (plain_component part.now)
        (says (S.look sampler.old)) (plain_statements parts.now) number offset (samples_of samples.old))) }
{
    let mut number = number;
    let mut offset = offset;
    for statement in parts {
        if is_running(part, statement, offset) {
            return take_statement(part, number, offset, statement, samples, sampler);
        }
        number += sample_count(statement);
        offset -= length_of(part, statement);
    }
}

/// Those of all arms.
#[cycle(take)]
fn take_arms<S: Sampler>(
    part: &Component,
    number: usize,
    offset: u64,
    arms: &[Statement],
    samples: &mut [bool],
    sampler: &mut S,
)
    requires offset { offset < 2 ^ 64 - 1 }
    requires samples { number + ifs_in (plain_statements arms.now) ≤ length samples.old }
    requires ports { AllPorts (S.answers sampler.old) (tests_in (plain_statements arms.now)) }
    ensures value { samples_of samples.new ≡
        arms_after (plain_component part.now) (says (S.look sampler.old))
        (plain_statements arms.now) number offset (samples_of samples.old) }
    ensures length { length samples.new ≡ length samples.old }
    ensures look { S.look sampler.new ≡ S.look sampler.old }
    ensures kept { S.kept sampler.new ≡ S.kept sampler.old }
    ensures answers { AreStill (S.answers sampler.old) (S.answers sampler.new) }
    ensures fault { S.fault sampler.new ≡ earlier_fault (S.fault sampler.old)
        (first_unclear (S.look sampler.old) (arms_asked (plain_component part.now) (says (S.look sampler.old))
        (plain_statements arms.now) number offset (samples_of samples.old))) }
{
    let mut number = number;
    for statement in arms {
        take_while(part, number, offset, statement, samples, sampler);
        number += sample_count(statement);
    }
}
