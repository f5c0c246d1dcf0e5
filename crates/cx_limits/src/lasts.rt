//! Lengths of static control with static invokes.

ghost use Rattle.std.specs.Prelude.{◌≡◌};
ghost use Rattle.cx_design.specs.PlainForms.{plain_component, plain_form, plain_statement, plain_statements};
ghost use Rattle.cx_rules.specs.Invokes as invokes;
ghost use Rattle.cx_rules.specs.Invokes.{invoke_at};
ghost use Rattle.cx_design_sizes.specs.Capped.{capped};

use cx_design::{Component, Form, Statement, StaticInvoke};
use cx_design_sizes::group_length;

/// The cycles of a static invoke, where its cell has a latency; 2^64 - 1 where they are more.
fn cycles_of(invoke: &StaticInvoke) -> u64
    ensures { result ≡ capped (invokes.cycles_of invoke.now.latency invoke.now.captures) }
{
    match invoke.latency {
        Some(latency) => latency.saturating_add(u64::from(invoke.captures.is_some())),
        None => 0,
    }
}

/// The cycles of the static invoke of a number; 0 where there is none.
fn invoke_length(part: &Component, number: u32) -> u64
    ensures { result ≡ capped (invokes.invoke_length (invoke_at (plain_component part.now) number)) }
{
    match part.invokes.get(number as usize) {
        Some(invoke) => cycles_of(invoke),
        None => 0,
    }
}

/// The length of a form in static control, in cycles; 2^64 - 1 where it is longer.
#[cycle(length)]
pub fn form_lasts(part: &Component, form: &Form) -> u64
    ensures { result ≡ capped (invokes.form_lasts (plain_component part.now) (plain_form form.now)) }
{
    match form {
        Form::Enable(group) => group_length(part, *group).unwrap_or(0),
        Form::StaticSeq { parts, .. } => sum_lasts(part, parts),
        Form::StaticPar { parts, .. } => max_lasts(part, parts),
        Form::StaticIf { yes, no, .. } => lasts(part, yes).max(lasts(part, no)),
        Form::StaticRepeat { count, body, .. } => count.saturating_mul(lasts(part, body)),
        Form::StaticInvoke(number) => invoke_length(part, *number),
        Form::Timed(number) => invoke_length(part, *number),
        Form::Empty
        | Form::Seq(_)
        | Form::Par(_)
        | Form::If { .. }
        | Form::While { .. }
        | Form::Repeat { .. } => 0,
    }
}

/// The length of a statement in static control, in cycles; 2^64 - 1 where it is longer.
#[cycle(length)]
fn lasts(part: &Component, statement: &Statement) -> u64
    ensures { result ≡ capped (invokes.lasts (plain_component part.now) (plain_statement statement.now)) }
{
    form_lasts(part, &statement.form)
}

/// The length of statements one after the other.
#[cycle(length)]
fn sum_lasts(part: &Component, parts: &[Statement]) -> u64
    ensures { result ≡ capped (invokes.sum_lasts (plain_component part.now) (plain_statements parts.now)) }
{
    let mut length = 0u64;
    for statement in parts {
        length = length.saturating_add(lasts(part, statement));
    }
    length
}

/// The length of statements side by side.
#[cycle(length)]
fn max_lasts(part: &Component, arms: &[Statement]) -> u64
    ensures { result ≡ capped (invokes.max_lasts (plain_component part.now) (plain_statements arms.now)) }
{
    let mut length = 0u64;
    for statement in arms {
        length = length.max(lasts(part, statement));
    }
    length
}
