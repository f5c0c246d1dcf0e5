//! Lengths and occurrences in static control.

ghost use Rattle.std.specs.Prelude.{◌≡◌};
ghost use Rattle.cx_design.specs.PlainForms.{plain_component, plain_form, plain_statement, plain_statements};
ghost use Rattle.cx_meaning.specs.Islands as plain;
ghost use Rattle.cx_rules.specs.StaticControl as control;
ghost use Rattle.cx_design_sizes.specs.Capped.{capped};

use cx_design::{Component, Form, GroupKind, Statement};

/// The length of a static group, in cycles; None for another group.
pub fn group_length(part: &Component, group: u32) -> Option<u64>
    ensures { result ≡ plain.group_length (plain_component part.now) group }
{
    let group = part.groups.get(group as usize)?;
    match group.kind {
        GroupKind::Timed(length) => Some(length),
        GroupKind::Plain | GroupKind::Comb => None,
    }
}

/// The length of a form in static control, in cycles; 2^64 - 1 where it is longer.
#[cycle(length)]
pub fn form_length(part: &Component, form: &Form) -> u64
    ensures { result ≡ capped (plain.form_length (plain_component part.now) (plain_form form.now)) }
{
    match form {
        Form::Enable(group) => group_length(part, *group).unwrap_or(0),
        Form::StaticSeq { parts, .. } => sum_length(part, parts),
        Form::StaticPar { parts, .. } => max_length(part, parts),
        Form::StaticIf { yes, no, .. } => length_of(part, yes).max(length_of(part, no)),
        Form::StaticRepeat { count, body, .. } => count.saturating_mul(length_of(part, body)),
        Form::Empty
        | Form::Seq(_)
        | Form::Par(_)
        | Form::If { .. }
        | Form::While { .. }
        | Form::Repeat { .. }
        | Form::StaticInvoke(_)
        | Form::Timed(_) => 0,
    }
}

/// The length of a statement in static control, in cycles; 2^64 - 1 where it is longer.
#[cycle(length)]
pub fn length_of(part: &Component, statement: &Statement) -> u64
    ensures { result ≡ capped (plain.length_of (plain_component part.now) (plain_statement statement.now)) }
{
    form_length(part, &statement.form)
}

/// The length of statements one after the other.
#[cycle(length)]
fn sum_length(part: &Component, parts: &[Statement]) -> u64
    ensures { result ≡ capped (plain.sum_length (plain_component part.now) (plain_statements parts.now)) }
{
    let mut length = 0u64;
    for statement in parts {
        length = length.saturating_add(length_of(part, statement));
    }
    length
}

/// The length of statements side by side.
#[cycle(length)]
fn max_length(part: &Component, arms: &[Statement]) -> u64
    ensures { result ≡ capped (plain.max_length (plain_component part.now) (plain_statements arms.now)) }
{
    let mut length = 0u64;
    for statement in arms {
        length = length.max(length_of(part, statement));
    }
    length
}

/// The occurrences of static groups in a form, before repetition.
#[cycle(occurrences)]
pub fn form_occurrences(part: &Component, form: &Form) -> u64
    ensures { result ≡ capped (control.form_occurrences (plain_component part.now) (plain_form form.now)) }
{
    match form {
        Form::Enable(group) => u64::from(group_length(part, *group).is_some()),
        Form::StaticSeq { parts, .. } | Form::StaticPar { parts, .. } => {
            occurrences_in(part, parts)
        }
        Form::StaticIf { yes, no, .. } => {
            occurrences(part, yes).saturating_add(occurrences(part, no))
        }
        Form::StaticRepeat { body, .. } => occurrences(part, body),
        Form::Empty
        | Form::Seq(_)
        | Form::Par(_)
        | Form::If { .. }
        | Form::While { .. }
        | Form::Repeat { .. }
        | Form::StaticInvoke(_)
        | Form::Timed(_) => 0,
    }
}

/// The occurrences of static groups in a statement, before repetition.
#[cycle(occurrences)]
fn occurrences(part: &Component, statement: &Statement) -> u64
    ensures { result ≡ capped (control.occurrences (plain_component part.now) (plain_statement statement.now)) }
{
    form_occurrences(part, &statement.form)
}

/// The occurrences in statements together.
#[cycle(occurrences)]
fn occurrences_in(part: &Component, parts: &[Statement]) -> u64
    ensures { result ≡ capped (control.occurrences_in (plain_component part.now) (plain_statements parts.now)) }
{
    let mut count = 0u64;
    for statement in parts {
        count = count.saturating_add(occurrences(part, statement));
    }
    count
}

/// Whether a form is an island where it stands in dynamic control.
pub fn is_island_form(part: &Component, form: &Form) -> bool
    ensures { result ≡ control.is_island_form (plain_component part.now) (plain_form form.now) }
{
    match form {
        Form::Enable(group) => group_length(part, *group).is_some(),
        Form::StaticSeq { .. }
        | Form::StaticPar { .. }
        | Form::StaticIf { .. }
        | Form::StaticRepeat { .. } => true,
        Form::Empty
        | Form::Seq(_)
        | Form::Par(_)
        | Form::If { .. }
        | Form::While { .. }
        | Form::Repeat { .. }
        | Form::StaticInvoke(_)
        | Form::Timed(_) => false,
    }
}
