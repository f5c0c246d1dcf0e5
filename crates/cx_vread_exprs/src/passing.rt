//! Passing over an expression, however deep it nests.

ghost use Rattle.std.specs.Prelude.{◌≡◌};
ghost use Rattle.cx_vscope.specs.ScopeValues.{scope_by};
ghost use Rattle.cx_vread_exprs.specs.Answers.{Gives, place_of};
ghost use Rattle.cx_vread_exprs.specs.Passing as passing;

use crate::exprs::{part, starts_digit};
use crate::faults::Fault;
use crate::names::name;
use crate::numbers::{is_part, literal};
use crate::operators::operator;
use crate::places::{ReadPoint, begins, expect};
use cx_text::Name;
use cx_vscope::{ModuleScope, Shape, applied, array_shape, chosen, indexed, joined, shape_of};
use cx_vtree::{Expr, Operator};
use std::alloc::Global;

/// What is awaited behind an expression within another, with the shapes of what stands before it.
#[derive(Clone, Copy, Debug, PartialEq, Eq)]
pub enum Await {
    /// `)` behind what is inverted.
    Inverse,
    /// `]` behind an index into this array.
    Index(Shape),
    /// `, `, and the second side of a concatenation.
    High,
    /// `}` behind the second side; the first has this shape.
    Low(Shape),
    /// What follows the first expression in round brackets: ` ? ` or an operator, and another expression.
    Sign,
    /// ` : `, and what is chosen else; the test has this shape.
    One(Shape),
    /// `)` behind what is chosen else, after the test and the other choice.
    Other(Shape, Shape),
    /// `)` behind the right side of an operator, after the left one.
    Right(Operator, Shape),
}

/// What was found: the begin of an expression within another, and what is awaited behind that; or the end of one.
#[derive(Clone, Copy, Debug, PartialEq, Eq)]
pub enum Found {
    Within(Await),
    Ended(Shape),
}

/// Goes past a fixed text, behind which an expression of this shape has ended.
fn closed<'a>(at: ReadPoint<'a>, want: &[u8], shape: Shape) -> Result<(Found, ReadPoint<'a>), Fault>
    ensures { Gives (λ x. (x.0, place_of x.1)) result (passing.closed_by want.now shape (place_of at.entry)) }
{
    let at = expect(at, want)?;
    Ok((Found::Ended(shape), at))
}

/// Goes past a fixed text, behind which an expression begins; `next` is awaited behind that.
fn opened<'a>(at: ReadPoint<'a>, want: &[u8], next: Await) -> Result<(Found, ReadPoint<'a>), Fault>
    ensures { Gives (λ x. (x.0, place_of x.1)) result (passing.opened_by want.now next (place_of at.entry)) }
{
    let at = expect(at, want)?;
    Ok((Found::Within(next), at))
}

/// What stands in square brackets after a name: a part, or an index.
fn want_bracketed<'a>(
    scope: &ModuleScope,
    net: Name,
    at: ReadPoint<'a>,
) -> Result<(Found, ReadPoint<'a>), Fault>
    ensures { Gives (λ x. (x.0, place_of x.1)) result
        (passing.want_bracketed (scope_by scope.now) net (place_of at.entry)) }
{
    let at = expect(at, b"[")?;
    if is_part(at) {
        let (e, at) = part(net, at)?;
        return Ok((Found::Ended(shape_of(scope, &e)), at));
    }
    Ok((Found::Within(Await::Index(array_shape(scope, &net))), at))
}

/// A name, and what stands in brackets after it.
fn want_named<'a>(
    alloc: Global,
    scope: &ModuleScope,
    at: ReadPoint<'a>,
) -> Result<(Found, ReadPoint<'a>), Fault>
    ensures { Gives (λ x. (x.0, place_of x.1)) result (passing.want_named (scope_by scope.now) (place_of at.entry)) }
{
    let (net, at) = name(alloc, at)?;
    if begins(at, b"[") {
        want_bracketed(scope, net, at)
    } else {
        Ok((Found::Ended(shape_of(scope, &Expr::Net(net))), at))
    }
}

/// A literal.
fn want_literal<'a>(
    alloc: Global,
    scope: &ModuleScope,
    at: ReadPoint<'a>,
) -> Result<(Found, ReadPoint<'a>), Fault>
    ensures { Gives (λ x. (x.0, place_of x.1)) result (passing.want_literal (scope_by scope.now) (place_of at.entry)) }
{
    let (e, at) = literal(alloc, at)?;
    Ok((Found::Ended(shape_of(scope, &e)), at))
}

/// Goes on where an expression begins: past all of it, or past what stands before the first that is within it.
fn want<'a>(
    alloc: Global,
    scope: &ModuleScope,
    at: ReadPoint<'a>,
) -> Result<(Found, ReadPoint<'a>), Fault>
    ensures { Gives (λ x. (x.0, place_of x.1)) result (passing.want_at (scope_by scope.now) (place_of at.entry)) }
{
    if begins(at, b"(~") {
        opened(at, b"(~", Await::Inverse)
    } else if begins(at, b"(") {
        opened(at, b"(", Await::Sign)
    } else if begins(at, b"{") {
        opened(at, b"{", Await::High)
    } else if starts_digit(at) {
        want_literal(alloc, scope, at)
    } else {
        want_named(alloc, scope, at)
    }
}

/// What follows the first expression in round brackets.
fn signed<'a>(shape: Shape, at: ReadPoint<'a>) -> Result<(Found, ReadPoint<'a>), Fault>
    ensures { Gives (λ x. (x.0, place_of x.1)) result (passing.signed_at shape (place_of at.entry)) }
{
    let at = expect(at, b" ")?;
    if begins(at, b"? ") {
        return opened(at, b"? ", Await::One(shape));
    }
    let (op, at) = operator(at)?;
    opened(at, b" ", Await::Right(op, shape))
}

/// Goes on behind an expression of this shape, by what is awaited there.
fn end<'a>(awaited: Await, shape: Shape, at: ReadPoint<'a>) -> Result<(Found, ReadPoint<'a>), Fault>
    ensures { Gives (λ x. (x.0, place_of x.1)) result (passing.end_at awaited shape (place_of at.entry)) }
{
    match awaited {
        Await::Inverse => closed(at, b")", shape),
        Await::Index(array) => closed(at, b"]", indexed(array, shape)),
        Await::High => opened(at, b", ", Await::Low(shape)),
        Await::Low(high) => closed(at, b"}", joined(high, shape)),
        Await::Sign => signed(shape, at),
        Await::One(test) => opened(at, b" : ", Await::Other(test, shape)),
        Await::Other(test, one) => closed(at, b")", chosen(test, one, shape)),
        Await::Right(op, left) => closed(at, b")", applied(op, left, shape)),
    }
}

/// Goes past a whole expression, and tells its shape.
pub fn pass_shape<'a>(
    alloc: Global,
    scope: &ModuleScope,
    at: ReadPoint<'a>,
) -> Result<(Shape, ReadPoint<'a>), Fault>
    ensures { Gives (λ x. (x.0, place_of x.1)) result (passing.shape_at (scope_by scope.now) (place_of at.entry)) }
{
    let mut awaited = Vec::new(alloc);
    let (first, begun) = want(alloc, scope, at)?;
    let mut next = first;
    let mut here = begun;
    let mut left = at.rest.len();
    while left > 0 {
        match next {
            Found::Within(after) => {
                awaited.push(after)?;
                let (found, behind) = want(alloc, scope, here)?;
                next = found;
                here = behind;
            }
            Found::Ended(shape) => {
                let Some(last) = awaited.pop() else {
                    return Ok((shape, here));
                };
                let (found, behind) = end(last, shape, here)?;
                next = found;
                here = behind;
            }
        }
        left -= 1;
    }
    Err(Fault::Syntax(here.rest.len()))
}

/// Goes past a whole expression.
pub fn pass_expr<'a>(alloc: Global, at: ReadPoint<'a>) -> Result<ReadPoint<'a>, Fault>
    ensures { Gives place_of result (passing.passed_at (place_of at.entry)) }
{
    let scope = ModuleScope::empty(alloc);
    let (_, at) = pass_shape(alloc, &scope, at)?;
    Ok(at)
}
