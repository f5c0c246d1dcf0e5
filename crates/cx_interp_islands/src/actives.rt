//! The groups that are active in a cycle of an island.

ghost use Rattle.std.specs.Prelude.{◌≡◌, ◌≤◌, ◌<◌, ◌+◌, ◌-◌, ◌^◌, ◌++◌, IfOk, length, map};
ghost use Rattle.std.specs.Vec.{vec_len, vec_capacity};
ghost use Rattle.cx_design.specs.PlainActives.{plain_entry};
ghost use Rattle.cx_design.specs.PlainForms.{plain_component, plain_form, plain_statement, plain_statements};
ghost use Rattle.cx_laws.specs.Positions.{entry_at, no_entry};
ghost use Rattle.cx_laws.specs.Samples.{active_by, form_by, statement_by, while_by, parts_by, arms_by, form_ifs, ifs_of, ifs_in};
ghost use Rattle.cx_interp_islands.specs.Rooms as rooms;
ghost use Rattle.cx_interp_islands.specs.Rooms.{samples_of};

use crate::counts::{group_count, sample_count};
use crate::offsets::{is_running, round_offset};
use cx_design::{ActiveEntry, Component, Form, Statement};
use cx_design_sizes::length_of;
use cx_text::Memory;

/// Makes room for the active groups of any one cycle.
pub fn reserve_entries(form: &Form, into: &mut Vec<ActiveEntry>) -> Result<(), Memory>
    ensures items { into.new.items ≡ into.old.items }
    ensures room { IfOk result
        (λ _. vec_len into.new + rooms.form_groups (plain_form form.now) ≤ vec_capacity into.new) }
    ensures grows { vec_capacity into.old ≤ vec_capacity into.new }
{
    into.reserve(group_count(form))?;
    Ok(())
}

/// Adds the groups that are active in a cycle of an island, each with its offset, in source order. It takes no memory.
pub fn active_entries(
    part: &Component,
    form: &Form,
    samples: &[bool],
    cycle: u64,
    into: &mut Vec<ActiveEntry>,
)
    requires cycle { cycle < 2 ^ 64 - 1 }
    requires samples { form_ifs (plain_form form.now) ≤ length samples.now }
    requires room { vec_len into.old + rooms.form_groups (plain_form form.now) ≤ vec_capacity into.old }
    ensures value { map plain_entry into.new.items ≡
        map plain_entry into.old.items
        ++ active_by (plain_component part.now) (samples_of samples.now) cycle (plain_form form.now) }
    ensures capacity { vec_capacity into.new ≡ vec_capacity into.old }
{
    add_form(part, samples, 0, cycle, form, into);
}

/// Those of a form at an offset, whose first static if has this number.
#[cycle(active)]
fn add_form(
    part: &Component,
    samples: &[bool],
    number: usize,
    offset: u64,
    form: &Form,
    into: &mut Vec<ActiveEntry>,
)
    requires offset { offset < 2 ^ 64 - 1 }
    requires samples { number + form_ifs (plain_form form.now) ≤ length samples.now }
    requires room { vec_len into.old + rooms.form_groups (plain_form form.now) ≤ vec_capacity into.old }
    ensures value { map plain_entry into.new.items ≡
        map plain_entry into.old.items ++ form_by (plain_component part.now)
        (samples_of samples.now) entry_at no_entry (plain_form form.now) number offset }
    ensures count { vec_len into.new ≤ vec_len into.old + rooms.form_groups (plain_form form.now) }
    ensures capacity { vec_capacity into.new ≡ vec_capacity into.old }
{
    match form {
        Form::Enable(group) => into.push_reserved(ActiveEntry {
            group: *group,
            offset,
        }),
        Form::StaticSeq { parts, .. } => add_parts(part, samples, number, offset, parts, into),
        Form::StaticPar { parts, .. } => add_arms(part, samples, number, offset, parts, into),
        Form::StaticIf { yes, no, .. } => {
            if samples[number] {
                add_while(part, samples, number + 1, offset, yes, into);
            } else {
                let first = number + 1 + sample_count(yes);
                add_while(part, samples, first, offset, no, into);
            }
        }
        Form::StaticRepeat { body, .. } => {
            let offset = round_offset(part, body, offset);
            add_statement(part, samples, number, offset, body, into);
        }
        Form::Empty
        | Form::Seq(_)
        | Form::Par(_)
        | Form::If { .. }
        | Form::While { .. }
        | Form::Repeat { .. }
        | Form::StaticInvoke(_)
        | Form::Timed(_) => {}
    }
}

#[cycle(active)]
fn add_statement(
    part: &Component,
    samples: &[bool],
    number: usize,
    offset: u64,
    statement: &Statement,
    into: &mut Vec<ActiveEntry>,
)
    requires offset { offset < 2 ^ 64 - 1 }
    requires samples { number + ifs_of (plain_statement statement.now) ≤ length samples.now }
    requires room { vec_len into.old + rooms.groups_of (plain_statement statement.now) ≤ vec_capacity into.old }
    ensures value { map plain_entry into.new.items ≡
        map plain_entry into.old.items ++ statement_by (plain_component part.now)
        (samples_of samples.now) entry_at no_entry (plain_statement statement.now) number offset }
    ensures count { vec_len into.new ≤ vec_len into.old + rooms.groups_of (plain_statement statement.now) }
    ensures capacity { vec_capacity into.new ≡ vec_capacity into.old }
{
    add_form(part, samples, number, offset, &statement.form, into);
}

/// Those of a branch or an arm, which may be over.
#[cycle(active)]
fn add_while(
    part: &Component,
    samples: &[bool],
    number: usize,
    offset: u64,
    statement: &Statement,
    into: &mut Vec<ActiveEntry>,
)
    requires offset { offset < 2 ^ 64 - 1 }
    requires samples { number + ifs_of (plain_statement statement.now) ≤ length samples.now }
    requires room { vec_len into.old + rooms.groups_of (plain_statement statement.now) ≤ vec_capacity into.old }
    ensures value { map plain_entry into.new.items ≡
        map plain_entry into.old.items ++ while_by (plain_component part.now)
        (samples_of samples.now) entry_at no_entry (plain_statement statement.now) number offset }
    ensures count { vec_len into.new ≤ vec_len into.old + rooms.groups_of (plain_statement statement.now) }
    ensures capacity { vec_capacity into.new ≡ vec_capacity into.old }
{
    if is_running(part, statement, offset) {
        add_statement(part, samples, number, offset, statement, into);
    }
}

/// Those of the part of a seq that runs.
#[cycle(active)]
fn add_parts(
    part: &Component,
    samples: &[bool],
    number: usize,
    offset: u64,
    parts: &[Statement],
    into: &mut Vec<ActiveEntry>,
)
    requires offset { offset < 2 ^ 64 - 1 }
    requires samples { number + ifs_in (plain_statements parts.now) ≤ length samples.now }
    requires room { vec_len into.old + rooms.groups_in (plain_statements parts.now) ≤ vec_capacity into.old }
    ensures value { map plain_entry into.new.items ≡
        map plain_entry into.old.items ++ parts_by (plain_component part.now)
        (samples_of samples.now) entry_at no_entry (plain_statements parts.now) number offset }
    ensures count { vec_len into.new ≤ vec_len into.old + rooms.groups_in (plain_statements parts.now) }
    ensures capacity { vec_capacity into.new ≡ vec_capacity into.old }
{
    let mut number = number;
    let mut offset = offset;
    for statement in parts {
        if is_running(part, statement, offset) {
            return add_statement(part, samples, number, offset, statement, into);
        }
        number += sample_count(statement);
        offset -= length_of(part, statement);
    }
}

/// Those of all arms.
#[cycle(active)]
fn add_arms(
    part: &Component,
    samples: &[bool],
    number: usize,
    offset: u64,
    arms: &[Statement],
    into: &mut Vec<ActiveEntry>,
)
    requires offset { offset < 2 ^ 64 - 1 }
    requires samples { number + ifs_in (plain_statements arms.now) ≤ length samples.now }
    requires room { vec_len into.old + rooms.groups_in (plain_statements arms.now) ≤ vec_capacity into.old }
    ensures value { map plain_entry into.new.items ≡
        map plain_entry into.old.items ++ arms_by (plain_component part.now)
        (samples_of samples.now) entry_at no_entry (plain_statements arms.now) number offset }
    ensures count { vec_len into.new ≤ vec_len into.old + rooms.groups_in (plain_statements arms.now) }
    ensures capacity { vec_capacity into.new ≡ vec_capacity into.old }
{
    let mut number = number;
    for statement in arms {
        add_while(part, samples, number, offset, statement, into);
        number += sample_count(statement);
    }
}
