//! The statements and the occurrences in control, with those of the static components that it invokes.

ghost use Rattle.std.specs.Prelude.{◌≡◌, ◌+◌, is_some};
ghost use Rattle.cx_design.specs.PlainForms.{plain_component, plain_form, plain_statement, plain_statements};
ghost use Rattle.cx_meaning.specs.Designs.{form_of, place_of};
ghost use Rattle.cx_rules.specs.Items.{statements_in, visit, visit_all, visit_parts};
ghost use Rattle.cx_rules.specs.Invokes.{invoke_at, invoke_in};
ghost use Rattle.cx_rules.specs.Counts as counts;
ghost use Rattle.cx_design_sizes.specs.Capped.{capped};
ghost use Rattle.cx_design_sizes.specs.StatementSizes.{context_of};
ghost use Rattle.cx_limits.specs.Rows.{IsCounted, plain_inners};

use crate::inners::{Inner, captures_in, inner_for};
use cx_design::{Component, Form, Statement};
use cx_design_sizes::{LimitContext, below_dynamic, group_length, is_island_form};

/// The statements of control, and the occurrences in its islands. Both stop at 2^64 - 1.
#[derive(Clone, Copy)]
pub struct ControlCounts {
    pub statements: u64,
    pub occurrences: u64,
}

/// Counts together.
fn together(one: ControlCounts, other: ControlCounts) -> ControlCounts
    ensures statements { result.statements ≡ capped (one.statements + other.statements) }
    ensures occurrences { result.occurrences ≡ capped (one.occurrences + other.occurrences) }
{
    ControlCounts {
        statements: one.statements.saturating_add(other.statements),
        occurrences: one.occurrences.saturating_add(other.occurrences),
    }
}

/// The statements of a static invoke.
fn invoke_statements(part: &Component, below: &[Option<Inner>], number: u32) -> u64
    ensures { result ≡ capped (counts.statement_count_of
        (counts.inner_for (plain_inners below.now) (invoke_at (plain_component part.now) number))
        (counts.captures_in (invoke_at (plain_component part.now) number))) }
{
    let captures = captures_in(part, number);
    match inner_for(part, below, number) {
        Some(inner) => inner
            .statements
            .saturating_add(captures.saturating_add(captures)),
        None => 1,
    }
}

/// The statements that a statement counts for itself.
fn own_statements(part: &Component, below: &[Option<Inner>], form: &Form) -> u64
    ensures { result ≡ capped (counts.statements_for (plain_component part.now) (plain_inners below.now)
        (invoke_in (plain_form form.now))) }
{
    match form {
        Form::StaticInvoke(number) => invoke_statements(part, below, *number),
        Form::Timed(number) => invoke_statements(part, below, *number),
        Form::Empty
        | Form::Enable(_)
        | Form::Seq(_)
        | Form::Par(_)
        | Form::If { .. }
        | Form::While { .. }
        | Form::Repeat { .. }
        | Form::StaticSeq { .. }
        | Form::StaticPar { .. }
        | Form::StaticIf { .. }
        | Form::StaticRepeat { .. } => 1,
    }
}

/// The occurrences of a static invoke.
fn invoke_occurrences(part: &Component, below: &[Option<Inner>], number: u32) -> u64
    ensures { result ≡ capped (counts.occurrence_count_of
        (counts.inner_for (plain_inners below.now) (invoke_at (plain_component part.now) number))
        (counts.captures_in (invoke_at (plain_component part.now) number))) }
{
    match inner_for(part, below, number) {
        Some(inner) => inner.occurrences.saturating_add(captures_in(part, number)),
        None => 0,
    }
}

/// The occurrences of static groups in a form, before repetition, with those of static components.
#[cycle(occurrences)]
pub fn form_counted(part: &Component, below: &[Option<Inner>], form: &Form) -> u64
    ensures { result ≡ capped
        (counts.form_counted (plain_component part.now) (plain_inners below.now) (plain_form form.now)) }
{
    match form {
        Form::Enable(group) => u64::from(group_length(part, *group).is_some()),
        Form::StaticSeq { parts, .. } | Form::StaticPar { parts, .. } => {
            counted_in(part, below, parts)
        }
        Form::StaticIf { yes, no, .. } => {
            counted(part, below, yes).saturating_add(counted(part, below, no))
        }
        Form::StaticRepeat { body, .. } => counted(part, below, body),
        Form::StaticInvoke(number) => invoke_occurrences(part, below, *number),
        Form::Timed(number) => invoke_occurrences(part, below, *number),
        Form::Empty
        | Form::Seq(_)
        | Form::Par(_)
        | Form::If { .. }
        | Form::While { .. }
        | Form::Repeat { .. } => 0,
    }
}

/// The occurrences in a statement.
#[cycle(occurrences)]
fn counted(part: &Component, below: &[Option<Inner>], statement: &Statement) -> u64
    ensures { result ≡ capped
        (counts.counted (plain_component part.now) (plain_inners below.now) (plain_statement statement.now)) }
{
    form_counted(part, below, &statement.form)
}

/// The occurrences in statements together.
#[cycle(occurrences)]
fn counted_in(part: &Component, below: &[Option<Inner>], parts: &[Statement]) -> u64
    ensures { result ≡ capped
        (counts.counted_in (plain_component part.now) (plain_inners below.now) (plain_statements parts.now)) }
{
    let mut count = 0u64;
    for statement in parts {
        count = count.saturating_add(counted(part, below, statement));
    }
    count
}

/// Whether the component has a static invoke of the number.
fn has_invoke(part: &Component, number: u32) -> bool
    ensures { result ≡ is_some (invoke_at (plain_component part.now) number) }
{
    match part.invokes.get(number as usize) {
        Some(_) => true,
        None => false,
    }
}

/// Whether a form is a static invoke that the component has.
fn is_invoke(part: &Component, form: &Form) -> bool
    ensures { result ≡ counts.has_invoke (plain_component part.now) (invoke_in (plain_form form.now)) }
{
    match form {
        Form::StaticInvoke(number) => has_invoke(part, *number),
        Form::Timed(number) => has_invoke(part, *number),
        Form::Empty
        | Form::Enable(_)
        | Form::Seq(_)
        | Form::Par(_)
        | Form::If { .. }
        | Form::While { .. }
        | Form::Repeat { .. }
        | Form::StaticSeq { .. }
        | Form::StaticPar { .. }
        | Form::StaticIf { .. }
        | Form::StaticRepeat { .. } => false,
    }
}

/// Whether a statement that stands so is an island, or a static invoke in dynamic control.
pub fn is_any_island(part: &Component, context: LimitContext, statement: &Statement) -> bool
    ensures { result ≡ counts.is_any_island (plain_component part.now)
        (record {
          context = context_of context;
          form = form_of (plain_statement statement.now);
          place = place_of (plain_statement statement.now);
        }) }
{
    context == LimitContext::Dynamic
        && (is_island_form(part, &statement.form) || is_invoke(part, &statement.form))
}

/// What a statement counts for itself.
fn own_counts(
    part: &Component,
    below: &[Option<Inner>],
    context: LimitContext,
    statement: &Statement,
) -> ControlCounts
    ensures statements { result.statements ≡
        capped (counts.statements_for (plain_component part.now) (plain_inners below.now)
        (invoke_in (form_of (plain_statement statement.now)))) }
    ensures occurrences { result.occurrences ≡
        capped (counts.island_counted (plain_component part.now) (plain_inners below.now)
        (counts.is_any_island (plain_component part.now)
        (record {
          context = context_of context;
          form = form_of (plain_statement statement.now);
          place = place_of (plain_statement statement.now);
        })) (form_of (plain_statement statement.now))) }
{
    let occurrences = if is_any_island(part, context, statement) {
        form_counted(part, below, &statement.form)
    } else {
        0
    };
    ControlCounts {
        statements: own_statements(part, below, &statement.form),
        occurrences,
    }
}

/// A statement with all in it.
#[cycle(control)]
fn statement_counts(
    part: &Component,
    below: &[Option<Inner>],
    context: LimitContext,
    statement: &Statement,
) -> ControlCounts
    ensures { IsCounted (plain_component part.now) (plain_inners below.now)
        (visit (context_of context) (plain_statement statement.now)) result }
{
    together(
        own_counts(part, below, context, statement),
        parts_counts(part, below, context, &statement.form),
    )
}

/// What is in a form that stands so.
#[cycle(control)]
fn parts_counts(
    part: &Component,
    below: &[Option<Inner>],
    context: LimitContext,
    form: &Form,
) -> ControlCounts
    ensures { IsCounted (plain_component part.now) (plain_inners below.now)
        (visit_parts (context_of context) (plain_form form.now)) result }
{
    match form {
        Form::Empty | Form::Enable(_) | Form::StaticInvoke(_) | Form::Timed(_) => ControlCounts {
            statements: 0,
            occurrences: 0,
        },
        Form::Seq(parts) | Form::Par(parts) => {
            all_counts(part, below, below_dynamic(context), parts)
        }
        Form::StaticSeq { parts, .. } | Form::StaticPar { parts, .. } => {
            all_counts(part, below, LimitContext::InStatic, parts)
        }
        Form::If { yes, no, .. } => together(
            statement_counts(part, below, below_dynamic(context), yes),
            statement_counts(part, below, below_dynamic(context), no),
        ),
        Form::StaticIf { yes, no, .. } => together(
            statement_counts(part, below, LimitContext::Branch, yes),
            statement_counts(part, below, LimitContext::Branch, no),
        ),
        Form::While { body, .. } | Form::Repeat { body, .. } => {
            statement_counts(part, below, below_dynamic(context), body)
        }
        Form::StaticRepeat { body, .. } => {
            statement_counts(part, below, LimitContext::InStatic, body)
        }
    }
}

/// Statements with all in them.
#[cycle(control)]
fn all_counts(
    part: &Component,
    below: &[Option<Inner>],
    context: LimitContext,
    statements: &[Statement],
) -> ControlCounts
    ensures { IsCounted (plain_component part.now) (plain_inners below.now)
        (visit_all (context_of context) (plain_statements statements.now)) result }
{
    let mut counts = ControlCounts {
        statements: 0,
        occurrences: 0,
    };
    for statement in statements {
        counts = together(counts, statement_counts(part, below, context, statement));
    }
    counts
}

/// The statements of a component's control, and the occurrences in its islands.
pub fn control_counts(part: &Component, below: &[Option<Inner>]) -> ControlCounts
    ensures { IsCounted (plain_component part.now) (plain_inners below.now)
        (statements_in (plain_component part.now)) result }
{
    statement_counts(part, below, LimitContext::Dynamic, &part.control)
}
