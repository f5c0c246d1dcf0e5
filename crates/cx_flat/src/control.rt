//! The control of a flat component.

ghost use Rattle.std.specs.Prelude.{◌≡◌, IfOk};
ghost use Rattle.cx_design.specs.PlainForms.{plain_form, plain_statement, plain_statements};
ghost use Rattle.cx_flat.specs.Callers.{AreFirsts, IsCaller, kids_in, part_of};
ghost use Rattle.cx_flat.specs.Controls.{form_by, inlined_at, statement_by, statements_by};
ghost use Rattle.cx_flat.specs.Stands.{own_by};

use crate::callers::Caller;
use crate::invokes::inlined_form;
use crate::ports::PortMap;
use cx_design::{Form, Statement};
use cx_design_copies::moved_placed;
use cx_text::Memory;
use std::alloc::Global;

/// The flat form of the statement.
#[cycle(statement)]
pub(crate) fn flat_statement_again(
    alloc: Global,
    caller: Caller<'_>,
    firsts: &[u32],
    statement: &Statement,
) -> Result<Statement, Memory>
    requires caller { IsCaller caller }
    requires firsts { AreFirsts caller firsts.now }
    ensures value { IfOk result (λ s. plain_statement s ≡
        statement_by (own_by caller.entry.stands.now)
        (inlined_at (kids_in caller.entry) (part_of caller.entry)) (plain_statement statement.now)) }
{
    let form = flat_form_again(alloc, caller, firsts, &statement.form)?;
    let place = statement.place;
    Ok(Statement { form, place })
}

/// The flat form.
#[cycle(statement)]
fn flat_form_again(
    alloc: Global,
    caller: Caller<'_>,
    firsts: &[u32],
    form: &Form,
) -> Result<Form, Memory>
    requires caller { IsCaller caller }
    requires firsts { AreFirsts caller firsts.now }
    ensures value { IfOk result (λ f. plain_form f ≡
        form_by (own_by caller.entry.stands.now) (inlined_at (kids_in caller.entry) (part_of caller.entry))
        (plain_form form.now)) }
{
    match form {
        Form::Empty => Ok(Form::Empty),
        Form::Enable(group) => Ok(Form::Enable(*group)),
        Form::Seq(parts) => Ok(Form::Seq(flat_parts_again(alloc, caller, firsts, parts)?)),
        Form::Par(arms) => Ok(Form::Par(flat_parts_again(alloc, caller, firsts, arms)?)),
        Form::If {
            test,
            comb,
            yes,
            no,
        } => Ok(Form::If {
            test: moved_placed(&PortMap::Own(caller.stands), *test)?,
            comb: *comb,
            yes: flat_box_again(alloc, caller, firsts, yes)?,
            no: flat_box_again(alloc, caller, firsts, no)?,
        }),
        Form::While { test, comb, body } => Ok(Form::While {
            test: moved_placed(&PortMap::Own(caller.stands), *test)?,
            comb: *comb,
            body: flat_box_again(alloc, caller, firsts, body)?,
        }),
        Form::Repeat { count, body } => Ok(Form::Repeat {
            count: *count,
            body: flat_box_again(alloc, caller, firsts, body)?,
        }),
        Form::StaticSeq { length, parts } => Ok(Form::StaticSeq {
            length: *length,
            parts: flat_parts_again(alloc, caller, firsts, parts)?,
        }),
        Form::StaticPar { length, parts } => Ok(Form::StaticPar {
            length: *length,
            parts: flat_parts_again(alloc, caller, firsts, parts)?,
        }),
        Form::StaticIf {
            length,
            test,
            yes,
            no,
        } => Ok(Form::StaticIf {
            length: *length,
            test: moved_placed(&PortMap::Own(caller.stands), *test)?,
            yes: flat_box_again(alloc, caller, firsts, yes)?,
            no: flat_box_again(alloc, caller, firsts, no)?,
        }),
        Form::StaticRepeat {
            length,
            count,
            body,
        } => Ok(Form::StaticRepeat {
            length: *length,
            count: *count,
            body: flat_box_again(alloc, caller, firsts, body)?,
        }),
        Form::StaticInvoke(invoke) | Form::Timed(invoke) => {
            inlined_form(alloc, caller, firsts, *invoke)
        }
    }
}

/// The flat form of the statement, in a box.
#[cycle(statement)]
fn flat_box_again(
    alloc: Global,
    caller: Caller<'_>,
    firsts: &[u32],
    statement: &Statement,
) -> Result<Box<Statement>, Memory>
    requires caller { IsCaller caller }
    requires firsts { AreFirsts caller firsts.now }
    ensures value { IfOk result (λ s. plain_statement s.value ≡
        statement_by (own_by caller.entry.stands.now)
        (inlined_at (kids_in caller.entry) (part_of caller.entry)) (plain_statement statement.now)) }
{
    let statement = flat_statement_again(alloc, caller, firsts, statement)?;
    Ok(Box::new(alloc, statement)?)
}

/// The flat forms of the statements, in order.
#[cycle(statement)]
fn flat_parts_again(
    alloc: Global,
    caller: Caller<'_>,
    firsts: &[u32],
    parts: &[Statement],
) -> Result<Vec<Statement>, Memory>
    requires caller { IsCaller caller }
    requires firsts { AreFirsts caller firsts.now }
    ensures value { IfOk result (λ all. plain_statements all.items ≡
        statements_by (own_by caller.entry.stands.now)
        (inlined_at (kids_in caller.entry) (part_of caller.entry)) (plain_statements parts.now)) }
{
    let mut all = Vec::with_capacity(alloc, parts.len())?;
    for statement in parts {
        all.push(flat_statement_again(alloc, caller, firsts, statement)?)?;
    }
    Ok(all)
}
