//! The statements of a component in pre-order.

ghost use Rattle.std.specs.Prelude.{◌≡◌, ◌++◌, IfOk, map};
ghost use Rattle.cx_rules.specs.Items as items;
ghost use Rattle.cx_rules.specs.Items.{visit, visit_parts, below_dynamic, test_in, statements_in};
ghost use Rattle.cx_design.specs.PlainForms.{plain_component, plain_form, plain_statement, plain_statements};
ghost use Rattle.cx_design_parts.specs.Items.{plain_context, plain_visited};

use cx_design::{Component, Form, PlacedPort, Statement};
use cx_text::{Memory, Place};
use std::alloc::Global;

/// Where a statement stands: in dynamic control, in static control, as the branch of a static if, or below a dynamic
/// statement inside static control, where none may stand.
#[derive(Clone, Copy, Debug, PartialEq, Eq)]
pub enum Context {
    Dynamic,
    InStatic,
    Branch,
    Amiss,
}

/// A statement, and where it stands.
#[derive(Clone, Copy)]
pub struct Visited<'a> {
    pub context: Context,
    pub form: &'a Form,
    pub place: Place,
}

/// The statements of a component in pre-order.
pub fn statements(alloc: Global, component: &Component) -> Result<Vec<Visited<'_>>, Memory>
    ensures value { IfOk result (λ list. map plain_visited list.items ≡ statements_in (plain_component component.now)) }
{
    let mut list = Vec::new(alloc);
    add_statement(&mut list, Context::Dynamic, &component.control)?;
    Ok(list)
}

/// The condition of an if, a while or a static if.
pub fn test(form: &Form) -> Option<PlacedPort>
    ensures value { result ≡ test_in (plain_form form.now) }
{
    match form {
        Form::If { test, .. } | Form::While { test, .. } | Form::StaticIf { test, .. } => Some(
            *test,
        ),
        Form::Empty
        | Form::Enable(_)
        | Form::Seq(_)
        | Form::Par(_)
        | Form::Repeat { .. }
        | Form::StaticSeq { .. }
        | Form::StaticPar { .. }
        | Form::StaticRepeat { .. }
        | Form::StaticInvoke(_)
        | Form::Timed(_) => None,
    }
}

/// Where the parts of a dynamic statement stand.
fn below(context: Context) -> Context
    ensures value { plain_context result ≡ below_dynamic (plain_context context) }
{
    match context {
        Context::Dynamic => Context::Dynamic,
        Context::InStatic | Context::Branch | Context::Amiss => Context::Amiss,
    }
}

#[cycle(visit)]
fn add_statement<'a>(
    list: &mut Vec<Visited<'a>>,
    context: Context,
    statement: &'a Statement,
) -> Result<(), Memory>
    ensures value { IfOk result (λ _. map plain_visited list.new.items ≡
        map plain_visited list.old.items ++ visit (plain_context context) (plain_statement statement.now)) }
{
    list.push(Visited {
        context,
        form: &statement.form,
        place: statement.place,
    })?;
    add_parts(list, context, &statement.form)
}

#[cycle(visit)]
fn add_parts<'a>(
    list: &mut Vec<Visited<'a>>,
    context: Context,
    form: &'a Form,
) -> Result<(), Memory>
    ensures value { IfOk result (λ _. map plain_visited list.new.items ≡
        map plain_visited list.old.items ++ visit_parts (plain_context context) (plain_form form.now)) }
{
    match form {
        Form::Empty | Form::Enable(_) | Form::StaticInvoke(_) | Form::Timed(_) => Ok(()),
        Form::Seq(parts) | Form::Par(parts) => add_all(list, below(context), parts.as_slice()),
        Form::If { yes, no, .. } => {
            add_statement(list, below(context), yes)?;
            add_statement(list, below(context), no)
        }
        Form::While { body, .. } | Form::Repeat { body, .. } => {
            add_statement(list, below(context), body)
        }
        Form::StaticSeq { parts, .. } | Form::StaticPar { parts, .. } => {
            add_all(list, Context::InStatic, parts.as_slice())
        }
        Form::StaticIf { yes, no, .. } => {
            add_statement(list, Context::Branch, yes)?;
            add_statement(list, Context::Branch, no)
        }
        Form::StaticRepeat { body, .. } => add_statement(list, Context::InStatic, body),
    }
}

#[cycle(visit)]
fn add_all<'a>(
    list: &mut Vec<Visited<'a>>,
    context: Context,
    parts: &'a [Statement],
) -> Result<(), Memory>
    ensures value { IfOk result (λ _. map plain_visited list.new.items ≡
        map plain_visited list.old.items
        ++ items.visit_all (plain_context context) (plain_statements parts.now)) }
{
    for part in parts {
        add_statement(list, context, part)?;
    }
    Ok(())
}
