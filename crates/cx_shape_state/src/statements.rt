//! The rule on the port of a static if.

ghost use Rattle.std.specs.Prelude.{◌≡◌, ◌<◌, IfOk, length};
ghost use Rattle.cx_rules.specs.Ports.{component_of};
ghost use Rattle.cx_design.specs.PlainForms.{plain_form};
ghost use Rattle.cx_design.specs.PlainDesigns.{plain_design};
ghost use Rattle.cx_design_parts.specs.Breaks.{first_of, plain_spot};
ghost use Rattle.cx_shape_state.specs.Tells.{Tells};
ghost use Rattle.cx_shape_state.specs.StateBreaks as breaks;
ghost use Rattle.cx_shape_state.specs.StateBreaks.{test_breaks};

use crate::Resting;
use cx_design::{Design, Form, PlacedPort};
use cx_design_parts::{Break, FirstBreak, Spot, Visited};
use cx_text::{Memory, Name, Rule};
use std::alloc::Global;

/// Looks at one statement: keeps a break where it is a static if whose port does not rest on state.
pub fn add_statement(
    alloc: Global,
    first: &mut FirstBreak,
    design: &Design,
    resting: &Resting,
    spot: Spot,
    visited: Visited<'_>,
) -> Result<(), Memory>
    requires within { spot.component < length design.now.components.items }
    requires tells { Tells (component_of (plain_design design.now) spot.component) resting.now }
    ensures value { IfOk result (λ _. first.new ≡
        first_of first.old (test_breaks (component_of (plain_design design.now) spot.component)
        (plain_spot spot) visited.entry.place (breaks.static_test (plain_form visited.entry.form.now)))) }
{
    let Some(test) = static_test(visited.form) else {
        return Ok(());
    };
    let rests = resting.rests(design, spot.component, test.port);
    if !rests && first.is_first(Rule::StaticShape, spot, visited.place) {
        let name = Name::from_bytes(alloc, b"".as_slice())?;
        first.keep(Break {
            rule: Rule::StaticShape,
            spot,
            place: visited.place,
            name,
        });
    }
    Ok(())
}

/// The port of a static if.
fn static_test(form: &Form) -> Option<PlacedPort>
    ensures value { result ≡ breaks.static_test (plain_form form.now) }
{
    match form {
        Form::StaticIf { test, .. } => Some(*test),
        Form::Empty
        | Form::Enable(_)
        | Form::Seq(_)
        | Form::Par(_)
        | Form::If { .. }
        | Form::While { .. }
        | Form::Repeat { .. }
        | Form::StaticSeq { .. }
        | Form::StaticPar { .. }
        | Form::StaticRepeat { .. }
        | Form::StaticInvoke(_)
        | Form::Timed(_) => None,
    }
}
