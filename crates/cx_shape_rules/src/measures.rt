//! Lengths of statements: each is worked out once, from those of its parts.

ghost use Rattle.std.specs.Prelude.{◌≡◌, ◌++◌, IfOk, false, map};
ghost use Rattle.cx_rules.specs.Items as items;
ghost use Rattle.cx_rules.specs.Items.{InStatic, visit, visit_parts, below_dynamic, statements_in};
ghost use Rattle.cx_rules.specs.StaticControl as control;
ghost use Rattle.cx_meaning.specs.Designs as designs;
ghost use Rattle.cx_meaning.specs.Designs.{form_of};
ghost use Rattle.cx_design.specs.PlainForms.{plain_component, plain_form, plain_statement, plain_statements};
ghost use Rattle.cx_design_parts.specs.Items.{plain_context};
ghost use Rattle.cx_shape_rules.specs.Measures.{measure_in, measure_of, totals_of};

use crate::invokes::{invoke_length, invoke_of, is_timed};
use crate::owners::group_length;
use cx_design::{Component, Form, Statement};
use cx_design_parts::Context;
use cx_text::Memory;
use std::alloc::Global;

/// Whether a statement has a length, and how many cycles. They stop at 2^128 - 1, which no written length reaches.
#[derive(Clone, Copy, Debug, PartialEq, Eq)]
pub struct Measure {
    pub has_length: bool,
    pub cycles: u128,
}

/// The lengths of statements together: one after the other, and side by side.
#[derive(Clone, Copy, Debug, PartialEq, Eq)]
pub struct Totals {
    pub all_have_length: bool,
    pub sum: u128,
    pub longest: u128,
}

/// The measures of the statements of a component, in pre-order.
pub fn measures(alloc: Global, part: &Component) -> Result<Vec<Measure>, Memory>
    ensures value { IfOk result (λ list.
        list.items ≡ map (measure_of (plain_component part.now)) (statements_in (plain_component part.now))) }
{
    let mut list = Vec::new(alloc);
    add_statement(&mut list, part, Context::Dynamic, &part.control)?;
    Ok(list)
}

/// The measure of the control of a component, as it stands in static control.
pub fn control_measure(alloc: Global, part: &Component) -> Result<Measure, Memory>
    ensures value { IfOk result (λ measure.
        measure ≡ measure_in (plain_component part.now) InStatic (form_of (plain_component part.now).control)) }
{
    let mut list = Vec::new(alloc);
    add_statement(&mut list, part, Context::InStatic, &part.control)
}

/// What has no length.
fn none() -> Measure
    ensures value { result ≡ record { has_length = false; cycles = 0 } }
{
    Measure {
        has_length: false,
        cycles: 0,
    }
}

/// The measure of the enable of a group.
fn enable(part: &Component, context: Context, group: u32) -> Measure
    ensures value { result ≡ measure_in (plain_component part.now) (plain_context context) (designs.Enable group) }
{
    match group_length(part, group as usize) {
        Some(length) => Measure {
            has_length: true,
            cycles: length as u128,
        },
        None => none(),
    }
}

/// The measure of a static invoke.
fn invoke(part: &Component, context: Context, number: u32) -> Measure
    ensures value { result ≡ measure_in (plain_component part.now) (plain_context context) (designs.Timed number) }
{
    match invoke_of(part, number as usize) {
        Some(invoke) => Measure {
            has_length: is_timed(invoke),
            cycles: invoke_length(invoke),
        },
        None => none(),
    }
}

/// Whether the empty statement may stand here.
pub fn is_branch(context: Context) -> bool
    ensures value { result ≡ control.is_branch (plain_context context) }
{
    match context {
        Context::Branch => true,
        Context::Dynamic | Context::InStatic | Context::Amiss => false,
    }
}

/// Where the parts of a dynamic statement stand.
fn below(context: Context) -> Context
    ensures value { plain_context result ≡ below_dynamic (plain_context context) }
{
    match context {
        Context::Dynamic => Context::Dynamic,
        Context::InStatic | Context::Branch | Context::Amiss => Context::Amiss,
    }
}

/// Adds the measures of a statement and of all in it, and tells its own.
#[cycle(measure)]
fn add_statement(
    list: &mut Vec<Measure>,
    part: &Component,
    context: Context,
    statement: &Statement,
) -> Result<Measure, Memory>
    ensures list { IfOk result (λ _. list.new.items ≡
        list.old.items ++ map (measure_of (plain_component part.now))
        (visit (plain_context context) (plain_statement statement.now))) }
    ensures value { IfOk result (λ measure.
        measure ≡ measure_in (plain_component part.now) (plain_context context)
        (form_of (plain_statement statement.now))) }
{
    let place = list.len();
    list.push(none())?;
    let measure = add_form(list, part, context, &statement.form)?;
    list[place] = measure;
    Ok(measure)
}

/// Adds the measures of what is in a form, and tells that of the form.
#[cycle(measure)]
#[tactic(auto, using(crate::proofs::LengthLemmas::capped_product))]
fn add_form(
    list: &mut Vec<Measure>,
    part: &Component,
    context: Context,
    form: &Form,
) -> Result<Measure, Memory>
    ensures list { IfOk result (λ _. list.new.items ≡
        list.old.items ++ map (measure_of (plain_component part.now))
        (visit_parts (plain_context context) (plain_form form.now))) }
    ensures value { IfOk result (λ measure.
        measure ≡ measure_in (plain_component part.now) (plain_context context) (plain_form form.now)) }
{
    match form {
        Form::Empty => Ok(Measure {
            has_length: is_branch(context),
            cycles: 0,
        }),
        Form::Enable(group) => Ok(enable(part, context, *group)),
        Form::StaticSeq { parts, .. } => {
            let totals = add_static(list, part, parts.as_slice())?;
            Ok(Measure {
                has_length: totals.all_have_length,
                cycles: totals.sum,
            })
        }
        Form::StaticPar { parts, .. } => {
            let totals = add_static(list, part, parts.as_slice())?;
            Ok(Measure {
                has_length: totals.all_have_length,
                cycles: totals.longest,
            })
        }
        Form::StaticIf { yes, no, .. } => {
            let yes = add_statement(list, part, Context::Branch, yes)?;
            let no = add_statement(list, part, Context::Branch, no)?;
            Ok(Measure {
                has_length: yes.has_length && no.has_length,
                cycles: yes.cycles.max(no.cycles),
            })
        }
        Form::StaticRepeat { count, body, .. } => {
            let body = add_statement(list, part, Context::InStatic, body)?;
            Ok(Measure {
                has_length: body.has_length,
                cycles: (*count as u128).saturating_mul(body.cycles),
            })
        }
        Form::Seq(parts) | Form::Par(parts) => {
            add_all(list, part, below(context), parts.as_slice())?;
            Ok(none())
        }
        Form::If { yes, no, .. } => {
            let context = below(context);
            add_statement(list, part, context, yes)?;
            add_statement(list, part, context, no)?;
            Ok(none())
        }
        Form::While { body, .. } | Form::Repeat { body, .. } => {
            add_statement(list, part, below(context), body)?;
            Ok(none())
        }
        Form::StaticInvoke(number) => Ok(invoke(part, context, *number)),
        Form::Timed(number) => Ok(invoke(part, context, *number)),
    }
}

/// Adds the measures of the parts of a static statement and of all in them, and tells theirs together.
#[cycle(measure)]
fn add_static(
    list: &mut Vec<Measure>,
    part: &Component,
    parts: &[Statement],
) -> Result<Totals, Memory>
    ensures list { IfOk result (λ _. list.new.items ≡
        list.old.items ++ map (measure_of (plain_component part.now))
        (items.visit_all InStatic (plain_statements parts.now))) }
    ensures value { IfOk result (λ totals. totals ≡ totals_of (plain_component part.now) (plain_statements parts.now)) }
{
    let mut all_have_length = true;
    let mut sum = 0u128;
    let mut longest = 0u128;
    for statement in parts {
        let measure = add_statement(list, part, Context::InStatic, statement)?;
        all_have_length = all_have_length && measure.has_length;
        sum = sum.saturating_add(measure.cycles);
        longest = longest.max(measure.cycles);
    }
    Ok(Totals {
        all_have_length,
        sum,
        longest,
    })
}

/// Adds the measures of the parts of a dynamic statement and of all in them.
#[cycle(measure)]
fn add_all(
    list: &mut Vec<Measure>,
    part: &Component,
    context: Context,
    parts: &[Statement],
) -> Result<(), Memory>
    ensures list { IfOk result (λ _. list.new.items ≡
        list.old.items ++ map (measure_of (plain_component part.now))
        (items.visit_all (plain_context context) (plain_statements parts.now))) }
{
    for statement in parts {
        add_statement(list, part, context, statement)?;
    }
    Ok(())
}
