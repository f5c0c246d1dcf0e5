//! Control whose islands become timed statements.

ghost use Rattle.std.specs.Prelude.{◌≡◌, OnOk, IfOk};
ghost use Rattle.cx_design.specs.PlainForms.{plain_component, plain_form, plain_statement, plain_statements};
ghost use Rattle.cx_static.specs.Lowering.{timed, with_island, form_after, after, parts_after, lowered_form, lowered, lowered_parts};
ghost use Rattle.cx_static.specs.PlainLowered.{plain_lowering};

use crate::islands::Island;
use crate::lists::gather_island;
use crate::lowering::Lowering;
use crate::numbers::{number, static_length};
use cx_design::{Component, Form, Statement};
use cx_design_sizes::group_length;
use cx_text::Memory;
use std::alloc::Global;
use std::mem::replace;

/// Lowers a statement.
#[cycle(control)]
pub(crate) fn lower_statement(
    alloc: Global,
    part: &Component,
    statement: &Statement,
    lowering: &mut Lowering,
) -> Result<Statement, Memory>
    ensures value { IfOk result (λ s. plain_statement s ≡
        lowered (plain_component part.now) (plain_statement statement.now) (plain_lowering lowering.old)) }
    ensures after { OnOk result (plain_lowering lowering.new ≡
        after (plain_component part.now) (plain_statement statement.now) (plain_lowering lowering.old)) }
{
    let form = lower_form(alloc, part, &statement.form, lowering)?;
    let place = statement.place;
    Ok(Statement { form, place })
}

/// Lowers a form.
#[cycle(control)]
fn lower_form(
    alloc: Global,
    part: &Component,
    form: &Form,
    lowering: &mut Lowering,
) -> Result<Form, Memory>
    ensures value { IfOk result (λ f. plain_form f ≡
        lowered_form (plain_component part.now) (plain_form form.now) (plain_lowering lowering.old)) }
    ensures after { OnOk result (plain_lowering lowering.new ≡
        form_after (plain_component part.now) (plain_form form.now) (plain_lowering lowering.old)) }
{
    match form {
        Form::Empty => Ok(Form::Empty),
        Form::Enable(group) => match group_length(part, *group) {
            None => Ok(Form::Enable(*group)),
            Some(_) => add_island(alloc, part, form, lowering),
        },
        Form::Seq(parts) => Ok(Form::Seq(lower_parts(alloc, part, parts, lowering)?)),
        Form::Par(arms) => Ok(Form::Par(lower_parts(alloc, part, arms, lowering)?)),
        Form::If {
            test,
            comb,
            yes,
            no,
        } => {
            let yes = lower_boxed(alloc, part, yes, lowering)?;
            let no = lower_boxed(alloc, part, no, lowering)?;
            Ok(Form::If {
                test: *test,
                comb: *comb,
                yes,
                no,
            })
        }
        Form::While { test, comb, body } => {
            let body = lower_boxed(alloc, part, body, lowering)?;
            Ok(Form::While {
                test: *test,
                comb: *comb,
                body,
            })
        }
        Form::Repeat { count, body } => {
            let body = lower_boxed(alloc, part, body, lowering)?;
            Ok(Form::Repeat {
                count: *count,
                body,
            })
        }
        Form::StaticSeq { .. }
        | Form::StaticPar { .. }
        | Form::StaticIf { .. }
        | Form::StaticRepeat { .. } => add_island(alloc, part, form, lowering),
        Form::StaticInvoke(island) | Form::Timed(island) => Ok(Form::Timed(*island)),
    }
}

/// Adds an island, and gives the timed statement in its place.
fn add_island(
    alloc: Global,
    part: &Component,
    form: &Form,
    lowering: &mut Lowering,
) -> Result<Form, Memory>
    ensures value { IfOk result (λ f. plain_form f ≡ timed (plain_lowering lowering.old)) }
    ensures after { OnOk result (plain_lowering lowering.new ≡
        with_island (plain_component part.now) (plain_form form.now) (plain_lowering lowering.old)) }
{
    let island = number(lowering.islands.len())?;
    let length = static_length(part, form)?;
    let cells = replace(&mut lowering.cells, Vec::new(alloc));
    let lists = gather_island(alloc, part, form, length, cells)?;
    lowering.cells = lists.cells;
    lowering.islands.push(Island {
        length,
        timers: lists.timers,
        points: lists.points,
        occurrences: lists.occurrences,
    })?;
    Ok(Form::Timed(island))
}

/// Lowers a statement into a box.
#[cycle(control)]
fn lower_boxed(
    alloc: Global,
    part: &Component,
    statement: &Statement,
    lowering: &mut Lowering,
) -> Result<Box<Statement>, Memory>
    ensures value { IfOk result (λ s. plain_statement s.value ≡
        lowered (plain_component part.now) (plain_statement statement.now) (plain_lowering lowering.old)) }
    ensures after { OnOk result (plain_lowering lowering.new ≡
        after (plain_component part.now) (plain_statement statement.now) (plain_lowering lowering.old)) }
{
    let statement = lower_statement(alloc, part, statement, lowering)?;
    Ok(Box::new(alloc, statement)?)
}

/// Lowers statements, in order.
#[cycle(control)]
fn lower_parts(
    alloc: Global,
    part: &Component,
    parts: &[Statement],
    lowering: &mut Lowering,
) -> Result<Vec<Statement>, Memory>
    ensures value { IfOk result (λ all. plain_statements all.items ≡
        lowered_parts (plain_component part.now) (plain_statements parts.now) (plain_lowering lowering.old)) }
    ensures after { OnOk result (plain_lowering lowering.new ≡
        parts_after (plain_component part.now) (plain_statements parts.now) (plain_lowering lowering.old)) }
{
    let mut all = Vec::with_capacity(alloc, parts.len())?;
    for statement in parts {
        all.push(lower_statement(alloc, part, statement, lowering)?)?;
    }
    Ok(all)
}
