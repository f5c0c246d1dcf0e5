//! The rules on statements of static control.

ghost use Rattle.std.specs.Prelude.{◌≡◌, ℕ, IfOk};
ghost use Rattle.cx_rules.specs.ShapeRules as rules;
ghost use Rattle.cx_rules.specs.StaticControl as control;
ghost use Rattle.cx_rules.specs.Invokes.{invoke_at};
ghost use Rattle.cx_design.specs.PlainForms.{plain_component, plain_form};
ghost use Rattle.cx_design_parts.specs.Items.{plain_context, plain_visited};
ghost use Rattle.cx_design_parts.specs.Breaks.{first_of, plain_spot};
ghost use Rattle.cx_shape_rules.specs.Measures.{capped, measure_of};
ghost use Rattle.cx_shape_rules.specs.ShapeBreaks as breaks;
ghost use Rattle.cx_shape_rules.specs.ShapeBreaks.{statement_breaks};

use crate::invokes::{invoke_length, invoke_of, is_timed, is_written};
use crate::measures::{Measure, is_branch};
use crate::owners::group_length;
use crate::telling::add_named;
use cx_design::{Component, Form};
use cx_design_parts::{Context, FirstBreak, Spot, Visited, group_name};
use cx_text::{Memory, Rule};
use std::alloc::Global;

/// Looks at one statement, of which the measure is known.
#[tactic(auto, using(cx_design_parts::proofs::Lists::first_append))]
pub fn add_statement(
    alloc: Global,
    first: &mut FirstBreak,
    part: &Component,
    spot: Spot,
    visited: Visited<'_>,
    measure: Measure,
) -> Result<(), Memory>
    requires measured { measure ≡ measure_of (plain_component part.now) (plain_visited visited) }
    ensures value { IfOk result (λ _. first.new ≡
        first_of first.old
        (statement_breaks (plain_component part.now) (plain_spot spot) (plain_visited visited.entry))) }
{
    let amiss = is_amiss(part, visited);
    let name = enabled_name(part, visited.form);
    add_named(
        alloc,
        first,
        amiss,
        Rule::StaticShape,
        spot,
        visited.place,
        name,
    )?;
    let wrong = has_wrong_length(part, visited, measure);
    add_named(
        alloc,
        first,
        wrong,
        Rule::StaticShape,
        spot,
        visited.place,
        b"".as_slice(),
    )?;
    let wrong = has_wrong_invoke(part, visited.form);
    add_named(
        alloc,
        first,
        wrong,
        Rule::StaticShape,
        spot,
        visited.place,
        b"".as_slice(),
    )
}

/// Whether a statement stands in static control, where it may not.
fn is_amiss(part: &Component, visited: Visited<'_>) -> bool
    ensures value { result ≡ breaks.is_amiss (plain_component part.now) (plain_visited visited.entry) }
{
    is_in_static(visited.context) && !may_stand(part, visited.context, visited.form)
}

fn is_in_static(context: Context) -> bool
    ensures value { result ≡ control.is_in_static (plain_context context) }
{
    match context {
        Context::InStatic | Context::Branch => true,
        Context::Dynamic | Context::Amiss => false,
    }
}

/// Whether a form may stand in static control.
pub fn may_stand(part: &Component, context: Context, form: &Form) -> bool
    ensures value { result ≡
        control.may_stand (plain_component part.now) (plain_context context) (plain_form form.now) }
{
    match form {
        Form::Empty => is_branch(context),
        Form::Enable(group) => group_length(part, *group as usize).is_some(),
        Form::StaticSeq { .. }
        | Form::StaticPar { .. }
        | Form::StaticIf { .. }
        | Form::StaticRepeat { .. } => true,
        Form::Seq(_) | Form::Par(_) | Form::If { .. } | Form::While { .. } | Form::Repeat { .. } =>
            false,
        Form::StaticInvoke(number) => is_written(part, *number as usize),
        Form::Timed(number) => is_written(part, *number as usize),
    }
}

/// The name of the group that a form enables, or none.
fn enabled_name<'a>(part: &'a Component, form: &Form) -> &'a [u8]
    ensures value { result.now ≡ rules.enabled_name (plain_component part.now) (plain_form form.now) }
{
    match form {
        Form::Enable(group) => group_name(part, *group),
        Form::Empty
        | Form::Seq(_)
        | Form::Par(_)
        | Form::If { .. }
        | Form::While { .. }
        | Form::Repeat { .. }
        | Form::StaticSeq { .. }
        | Form::StaticPar { .. }
        | Form::StaticIf { .. }
        | Form::StaticRepeat { .. }
        | Form::StaticInvoke(_)
        | Form::Timed(_) => &[],
    }
}

/// Whether a static statement that has a length is of no cycles, or of others than are written.
fn has_wrong_length(part: &Component, visited: Visited<'_>, measure: Measure) -> bool
    requires measured { measure ≡ measure_of (plain_component part.now) (plain_visited visited) }
    ensures value { result ≡ breaks.has_wrong_length (plain_component part.now) (plain_visited visited.entry) }
{
    is_static(visited.form)
        && measure.has_length
        && is_wrong(written_length(visited.form), measure.cycles)
}

/// Whether a form is static.
fn is_static(form: &Form) -> bool
    ensures value { result ≡ control.is_static (plain_form form.now) }
{
    match form {
        Form::StaticSeq { .. }
        | Form::StaticPar { .. }
        | Form::StaticIf { .. }
        | Form::StaticRepeat { .. } => true,
        Form::Empty
        | Form::Enable(_)
        | Form::Seq(_)
        | Form::Par(_)
        | Form::If { .. }
        | Form::While { .. }
        | Form::Repeat { .. }
        | Form::StaticInvoke(_)
        | Form::Timed(_) => false,
    }
}

/// The length that is written.
fn written_length(form: &Form) -> Option<u64>
    ensures value { result ≡ control.written_length (plain_form form.now) }
{
    match form {
        Form::StaticSeq { length, .. }
        | Form::StaticPar { length, .. }
        | Form::StaticIf { length, .. }
        | Form::StaticRepeat { length, .. } => *length,
        Form::Empty
        | Form::Enable(_)
        | Form::Seq(_)
        | Form::Par(_)
        | Form::If { .. }
        | Form::While { .. }
        | Form::Repeat { .. }
        | Form::StaticInvoke(_)
        | Form::Timed(_) => None,
    }
}

/// Whether a static invoke that has a length is of no cycles, or of others than are written.
fn has_wrong_invoke(part: &Component, form: &Form) -> bool
    ensures value { result ≡ breaks.has_wrong_invoke (plain_component part.now) (plain_form form.now) }
{
    match form {
        Form::StaticInvoke(number) => is_wrong_invoke(part, *number as usize),
        Form::Timed(number) => is_wrong_invoke(part, *number as usize),
        Form::Empty
        | Form::Enable(_)
        | Form::Seq(_)
        | Form::Par(_)
        | Form::If { .. }
        | Form::While { .. }
        | Form::Repeat { .. }
        | Form::StaticSeq { .. }
        | Form::StaticPar { .. }
        | Form::StaticIf { .. }
        | Form::StaticRepeat { .. } => false,
    }
}

fn is_wrong_invoke(part: &Component, number: usize) -> bool
    ensures value { result ≡ breaks.is_wrong_invoke (invoke_at (plain_component part.now) number) }
{
    match invoke_of(part, number) {
        Some(invoke) => is_timed(invoke) && is_wrong(invoke.length, invoke_length(invoke)),
        None => false,
    }
}

/// Whether a length is 0, or is not the written one. The cycles stop where no written length reaches.
fn is_wrong(written: Option<u64>, cycles: u128) -> bool
    ensures value { (length : ℕ) → cycles ≡ capped length → result ≡ breaks.is_wrong written length }
{
    match written {
        Some(written) => written as u128 != cycles || cycles == 0,
        None => cycles == 0,
    }
}
