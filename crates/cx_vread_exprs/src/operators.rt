//! Operators.

ghost use Rattle.std.specs.Prelude.{◌≡◌};
ghost use Rattle.cx_vread_exprs.specs.Answers.{Gives, place_of};
ghost use Rattle.cx_vread_exprs.specs.Exprs as exprs;

use crate::faults::Fault;
use crate::places::{ReadPoint, after};
use cx_vtree::Operator;

/// The operator that the bytes begin with.
pub fn operator<'a>(at: ReadPoint<'a>) -> Result<(Operator, ReadPoint<'a>), Fault>
    ensures { Gives (λ x. (x.0, place_of x.1)) result (exprs.operator_at (place_of at.entry)) }
{
    if let Some(at) = after(at, b"<<") {
        return Ok((Operator::ShiftLeft, at));
    }
    if let Some(at) = after(at, b">>") {
        return Ok((Operator::ShiftRight, at));
    }
    if let Some(at) = after(at, b"<=") {
        return Ok((Operator::AtMost, at));
    }
    if let Some(at) = after(at, b">=") {
        return Ok((Operator::AtLeast, at));
    }
    if let Some(at) = after(at, b"==") {
        return Ok((Operator::Equal, at));
    }
    if let Some(at) = after(at, b"!=") {
        return Ok((Operator::NotEqual, at));
    }
    sign(at)
}

/// The operator of one byte that the bytes begin with.
fn sign<'a>(at: ReadPoint<'a>) -> Result<(Operator, ReadPoint<'a>), Fault>
    ensures { Gives (λ x. (x.0, place_of x.1)) result (exprs.sign_at (place_of at.entry)) }
{
    if let Some(at) = after(at, b"+") {
        return Ok((Operator::Add, at));
    }
    if let Some(at) = after(at, b"-") {
        return Ok((Operator::Subtract, at));
    }
    if let Some(at) = after(at, b"*") {
        return Ok((Operator::Multiply, at));
    }
    if let Some(at) = after(at, b"&") {
        return Ok((Operator::And, at));
    }
    if let Some(at) = after(at, b"|") {
        return Ok((Operator::Or, at));
    }
    if let Some(at) = after(at, b"^") {
        return Ok((Operator::Xor, at));
    }
    if let Some(at) = after(at, b"<") {
        return Ok((Operator::Less, at));
    }
    if let Some(at) = after(at, b">") {
        return Ok((Operator::Greater, at));
    }
    Err(Fault::Syntax(at.rest.len()))
}
