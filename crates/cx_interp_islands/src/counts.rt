//! Static ifs and groups of a static statement.

ghost use Rattle.std.specs.Prelude.{◌≡◌, ◌≤◌, ◌-◌, ◌^◌};
ghost use Rattle.cx_design.specs.PlainForms.{plain_form, plain_statement, plain_statements};
ghost use Rattle.cx_laws.specs.Samples as samples;
ghost use Rattle.cx_design_sizes.specs.Capped.{capped};
ghost use Rattle.cx_interp_islands.specs.Rooms as rooms;

use cx_design::{Form, Statement};

/// The static ifs of a static statement, each of which has a sample; 2^64 - 1 where there are more.
#[cycle(ifs)]
pub fn if_count(form: &Form) -> usize
    ensures value { result ≡ capped (samples.form_ifs (plain_form form.now)) }
{
    match form {
        Form::StaticSeq { parts, .. } | Form::StaticPar { parts, .. } => ifs_in(parts),
        Form::StaticIf { yes, no, .. } => ifs_of(yes).saturating_add(ifs_of(no)).saturating_add(1),
        Form::StaticRepeat { body, .. } => ifs_of(body),
        Form::Empty
        | Form::Enable(_)
        | Form::Seq(_)
        | Form::Par(_)
        | Form::If { .. }
        | Form::While { .. }
        | Form::Repeat { .. }
        | Form::StaticInvoke(_)
        | Form::Timed(_) => 0,
    }
}

#[cycle(ifs)]
fn ifs_of(statement: &Statement) -> usize
    ensures { result ≡ capped (samples.ifs_of (plain_statement statement.now)) }
{
    if_count(&statement.form)
}

#[cycle(ifs)]
fn ifs_in(parts: &[Statement]) -> usize
    ensures { result ≡ capped (samples.ifs_in (plain_statements parts.now)) }
{
    let mut count = 0usize;
    for statement in parts {
        count = count.saturating_add(ifs_of(statement));
    }
    count
}

/// The samples of a statement, where they can be counted.
pub fn sample_count(statement: &Statement) -> usize
    requires fits { samples.ifs_of (plain_statement statement.now) ≤ 2 ^ 64 - 1 }
    ensures value { result ≡ samples.ifs_of (plain_statement statement.now) }
{
    ifs_of(statement)
}

/// The enables of groups in a static statement; 2^64 - 1 where there are more.
#[cycle(groups)]
pub fn group_count(form: &Form) -> usize
    ensures value { result ≡ capped (rooms.form_groups (plain_form form.now)) }
{
    match form {
        Form::Enable(_) => 1,
        Form::StaticSeq { parts, .. } | Form::StaticPar { parts, .. } => groups_in(parts),
        Form::StaticIf { yes, no, .. } => groups_of(yes).saturating_add(groups_of(no)),
        Form::StaticRepeat { body, .. } => groups_of(body),
        Form::Empty
        | Form::Seq(_)
        | Form::Par(_)
        | Form::If { .. }
        | Form::While { .. }
        | Form::Repeat { .. }
        | Form::StaticInvoke(_)
        | Form::Timed(_) => 0,
    }
}

#[cycle(groups)]
fn groups_of(statement: &Statement) -> usize
    ensures { result ≡ capped (rooms.groups_of (plain_statement statement.now)) }
{
    group_count(&statement.form)
}

#[cycle(groups)]
fn groups_in(parts: &[Statement]) -> usize
    ensures { result ≡ capped (rooms.groups_in (plain_statements parts.now)) }
{
    let mut count = 0usize;
    for statement in parts {
        count = count.saturating_add(groups_of(statement));
    }
    count
}
