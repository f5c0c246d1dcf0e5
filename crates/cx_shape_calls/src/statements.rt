//! Whether a statement breaks the rule.

ghost use Rattle.std.specs.Prelude.{◌≡◌, IfOk, slice_get};
ghost use Rattle.cx_rules.specs.Items.{option_list};
ghost use Rattle.cx_rules.specs.Invokes.{invoke_at};
ghost use Rattle.cx_rules.specs.Invokes as rules;
ghost use Rattle.cx_design.specs.PlainForms.{plain_component, plain_form};
ghost use Rattle.cx_design_parts.specs.Breaks.{first_of, plain_spot};
ghost use Rattle.cx_shape_calls.specs.StaticInvokes as invokes;

use cx_design::{Component, Form};
use cx_design_parts::{Break, FirstBreak, Spot, Visited, cell_name};
use cx_text::{Memory, Name, Rule};
use std::alloc::Global;

/// Looks at one statement: keeps a break where it is a static invoke that is marked.
pub fn add_statement(
    alloc: Global,
    first: &mut FirstBreak,
    part: &Component,
    marks: &[bool],
    spot: Spot,
    visited: Visited<'_>,
) -> Result<(), Memory>
    ensures value { IfOk result (λ _. first.new ≡
        first_of first.old (invokes.invoke_breaks (plain_component part.now) marks.now
        (plain_spot spot) visited.entry.place (rules.invoke_in (plain_form visited.entry.form.now)))) }
{
    let Some(number) = invoke_in(visited.form) else {
        return Ok(());
    };
    if is_marked(marks, number) && first.is_first(Rule::CallShape, spot, visited.place) {
        let name = Name::from_bytes(alloc, invoked_name(part, number))?;
        first.keep(Break {
            rule: Rule::CallShape,
            spot,
            place: visited.place,
            name,
        });
    }
    Ok(())
}

/// Whether the static invoke of a number is marked.
fn is_marked(marks: &[bool], number: u32) -> bool
    ensures value { result ≡ invokes.or_false (slice_get marks.now number) }
{
    match marks.get(number as usize) {
        Some(mark) => *mark,
        None => false,
    }
}

/// The number of a static invoke.
fn invoke_in(form: &Form) -> Option<u32>
    ensures value { option_list result ≡ rules.invoke_in (plain_form form.now) }
{
    match form {
        Form::StaticInvoke(number) => Some(*number),
        Form::Timed(number) => Some(*number),
        Form::Empty
        | Form::Enable(_)
        | Form::Seq(_)
        | Form::Par(_)
        | Form::If { .. }
        | Form::While { .. }
        | Form::Repeat { .. }
        | Form::StaticSeq { .. }
        | Form::StaticPar { .. }
        | Form::StaticIf { .. }
        | Form::StaticRepeat { .. } => None,
    }
}

/// The name of the cell of a static invoke, which is empty where there is none.
fn invoked_name(part: &Component, number: u32) -> &[u8]
    ensures value { result.now ≡
        invokes.invoked_name (plain_component part.now) (invoke_at (plain_component part.now) number) }
{
    match part.invokes.as_slice().get(number as usize) {
        Some(invoke) => cell_name(part, invoke.cell),
        None => &[],
    }
}
