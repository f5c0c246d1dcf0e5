//! The limits at statements.

ghost use Rattle.std.specs.Prelude.{◌≡◌, option_map};
ghost use Rattle.cx_meaning.specs.Designs.{form_of, place_of};
ghost use Rattle.cx_design.specs.PlainForms.{plain_component, plain_form, plain_statement, plain_statements};
ghost use Rattle.cx_rules.specs.Items.{visit, visit_parts, visit_all, statements_in};
ghost use Rattle.cx_rules.specs.LimitRule as rule;
ghost use Rattle.cx_design_sizes.specs.StatementSizes.{context_of};
ghost use Rattle.cx_limits.specs.Inners.{limit_at};
ghost use Rattle.cx_limits.specs.Rows.{plain_inners};
ghost use Rattle.cx_limits.specs.Scan.{told, past_statements};

use crate::counting::{form_counted, is_any_island};
use crate::found::{FoundBreak, Limited, noted};
use crate::inners::Inner;
use crate::lasts::form_lasts;
use cx_design::{Component, Form, Statement};
use cx_design_sizes::{LimitContext, below_dynamic};
use cx_text::{OCCURRENCES, REPETITIONS};

/// The count of a repeat or a static repeat.
fn count_in(form: &Form) -> Option<u64>
    ensures { result ≡ rule.count_in (plain_form form.now) }
{
    match form {
        Form::Repeat { count, .. } | Form::StaticRepeat { count, .. } => Some(*count),
        Form::Empty
        | Form::Enable(_)
        | Form::Seq(_)
        | Form::Par(_)
        | Form::If { .. }
        | Form::While { .. }
        | Form::StaticSeq { .. }
        | Form::StaticPar { .. }
        | Form::StaticIf { .. }
        | Form::StaticInvoke(_)
        | Form::Timed(_) => None,
    }
}

fn is_too_many(count: Option<u64>) -> bool
    ensures { result ≡ rule.is_too_many count }
{
    match count {
        None => false,
        Some(count) => REPETITIONS <= count,
    }
}

/// The first limit that a statement exceeds.
fn statement_limit(
    part: &Component,
    below: &[Option<Inner>],
    context: LimitContext,
    statement: &Statement,
) -> Option<Limited>
    ensures { result ≡ option_map told (limit_at (plain_component part.now) (plain_inners below.now)
        (record {
          context = context_of context;
          form = form_of (plain_statement statement.now);
          place = place_of (plain_statement statement.now);
        })) }
{
    if is_too_many(count_in(&statement.form)) {
        return Some(Limited::Repeat);
    }
    if !is_any_island(part, context, statement) {
        return None;
    }
    if form_counted(part, below, &statement.form) > OCCURRENCES {
        return Some(Limited::Occurrences);
    }
    if form_lasts(part, &statement.form) >= REPETITIONS {
        return Some(Limited::Latency);
    }
    None
}

/// The first so far, past a statement with all in it.
#[cycle(statement)]
fn past(
    part: &Component,
    below: &[Option<Inner>],
    best: Option<FoundBreak>,
    context: LimitContext,
    statement: &Statement,
) -> Option<FoundBreak>
    ensures { result ≡ past_statements (plain_component part.now) (plain_inners below.now) best
        (visit (context_of context) (plain_statement statement.now)) }
{
    let limited = statement_limit(part, below, context, statement);
    past_parts(
        part,
        below,
        noted(best, statement.place, limited),
        context,
        &statement.form,
    )
}

/// The first so far, past what is in a form that stands so.
#[cycle(statement)]
fn past_parts(
    part: &Component,
    below: &[Option<Inner>],
    best: Option<FoundBreak>,
    context: LimitContext,
    form: &Form,
) -> Option<FoundBreak>
    ensures { result ≡ past_statements (plain_component part.now) (plain_inners below.now) best
        (visit_parts (context_of context) (plain_form form.now)) }
{
    match form {
        Form::Empty | Form::Enable(_) | Form::StaticInvoke(_) | Form::Timed(_) => best,
        Form::Seq(parts) | Form::Par(parts) => {
            past_all(part, below, best, below_dynamic(context), parts)
        }
        Form::StaticSeq { parts, .. } | Form::StaticPar { parts, .. } => {
            past_all(part, below, best, LimitContext::InStatic, parts)
        }
        Form::If { yes, no, .. } => {
            let best = past(part, below, best, below_dynamic(context), yes);
            past(part, below, best, below_dynamic(context), no)
        }
        Form::StaticIf { yes, no, .. } => {
            let best = past(part, below, best, LimitContext::Branch, yes);
            past(part, below, best, LimitContext::Branch, no)
        }
        Form::While { body, .. } | Form::Repeat { body, .. } => {
            past(part, below, best, below_dynamic(context), body)
        }
        Form::StaticRepeat { body, .. } => past(part, below, best, LimitContext::InStatic, body),
    }
}

/// The first so far, past statements with all in them.
#[cycle(statement)]
fn past_all(
    part: &Component,
    below: &[Option<Inner>],
    best: Option<FoundBreak>,
    context: LimitContext,
    statements: &[Statement],
) -> Option<FoundBreak>
    ensures { result ≡ past_statements (plain_component part.now) (plain_inners below.now) best
        (visit_all (context_of context) (plain_statements statements.now)) }
{
    let mut best = best;
    for statement in statements {
        best = past(part, below, best, context, statement);
    }
    best
}

/// The first so far, past all statements of a component.
pub fn past_control(
    part: &Component,
    below: &[Option<Inner>],
    best: Option<FoundBreak>,
) -> Option<FoundBreak>
    ensures { result ≡ past_statements (plain_component part.now) (plain_inners below.now) best
        (statements_in (plain_component part.now)) }
{
    past(part, below, best, LimitContext::Dynamic, &part.control)
}
