//! How deep control nests.

ghost use Rattle.std.specs.Prelude.{◌≡◌};
ghost use Rattle.cx_design.specs.PlainForms.{plain_form, plain_statement, plain_statements};
ghost use Rattle.cx_flat.specs.Levels.{all_fit, form_fits, fits as fits_in};

use cx_design::{Form, Statement};

/// Whether a statement nests no deeper than in so many levels.
#[cycle(statement)]
pub(crate) fn fits(levels: u32, statement: &Statement) -> bool
    ensures value { result ≡ fits_in levels (plain_statement statement.now) }
{
    1 <= levels && form_is_within(levels - 1, &statement.form)
}

/// Whether what is in a form nests no deeper than in so many levels.
#[cycle(statement)]
fn form_is_within(levels: u32, form: &Form) -> bool
    ensures value { result ≡ form_fits levels (plain_form form.now) }
{
    match form {
        Form::Empty | Form::Enable(_) | Form::StaticInvoke(_) | Form::Timed(_) => true,
        Form::Seq(parts) | Form::Par(parts) => all_are_within(levels, parts),
        Form::StaticSeq { parts, .. } | Form::StaticPar { parts, .. } => {
            all_are_within(levels, parts)
        }
        Form::If { yes, no, .. } | Form::StaticIf { yes, no, .. } => {
            fits(levels, yes) && fits(levels, no)
        }
        Form::While { body, .. } | Form::Repeat { body, .. } | Form::StaticRepeat { body, .. } => {
            fits(levels, body)
        }
    }
}

/// Whether all of these statements nest no deeper than in so many levels.
#[cycle(statement)]
fn all_are_within(levels: u32, parts: &[Statement]) -> bool
    ensures value { result ≡ all_fit levels (plain_statements parts.now) }
{
    for statement in parts {
        if !fits(levels, statement) {
            return false;
        }
    }
    true
}
