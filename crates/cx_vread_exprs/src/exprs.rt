//! Expressions.

ghost use Rattle.std.specs.Prelude.{◌≡◌, ◌+◌, MatchOption};
ghost use Rattle.cx_vtree.specs.PlainParts.{plain_expr};
ghost use Rattle.cx_vread_exprs.specs.Answers.{Gives, place_of};
ghost use Rattle.cx_vscope.specs.ScopeValues.{scope_by};
ghost use Rattle.cx_vread_exprs.specs.Deep.{whole_expr_at};
ghost use Rattle.cx_vread_exprs.specs.Exprs as exprs;

use crate::deep::deep;
use crate::faults::Fault;
use crate::names::name;
use crate::numbers::{is_part, literal, small};
use crate::operators::operator;
use crate::places::{ReadPoint, begins, expect};
use cx_text::Name;
use cx_vscope::ModuleScope;
use cx_vtree::Expr;
use std::alloc::Global;

/// Levels of nesting that are read into a tree.
const LEVELS: u8 = 128;

/// One level fewer, if one is left.
fn fewer(levels: u8) -> Option<u8>
    ensures { MatchOption result (levels ≡ 0) (λ fewer. levels ≡ fewer + 1) }
{
    if levels == 0 {
        return None;
    }
    Some(levels - 1)
}

/// The bounds of a part, after its `[`.
pub fn part<'a>(net: Name, at: ReadPoint<'a>) -> Result<(Expr, ReadPoint<'a>), Fault>
    ensures { Gives (λ x. (plain_expr x.0, place_of x.1)) result (exprs.part_by net (place_of at.entry)) }
{
    let (high, at) = small(at)?;
    let at = expect(at, b":")?;
    let (low, at) = small(at)?;
    let at = expect(at, b"]")?;
    Ok((Expr::Slice(net, high, low), at))
}

/// Whether a digit stands here.
pub fn starts_digit(at: ReadPoint) -> bool
    ensures { result ≡ exprs.starts_digit at.entry.rest.now }
{
    match at.rest.split_first() {
        None => false,
        Some((byte, _)) => 48 <= *byte && *byte <= 57,
    }
}

/// A word of an array, from the bracket after its index on.
fn item<'a>(
    alloc: Global,
    net: Name,
    index: Expr,
    at: ReadPoint<'a>,
) -> Result<(Expr, ReadPoint<'a>), Fault>
    ensures { Gives (λ x. (plain_expr x.0, place_of x.1)) result
        (exprs.item_by net (plain_expr index) (place_of at.entry)) }
{
    let at = expect(at, b"]")?;
    Ok((Expr::Item(net, Box::new(alloc, index)?), at))
}

/// A whole expression, of any depth. For one that nests deeper than a tree is read another stands that breaks the same rules.
pub fn whole_expr<'a>(
    alloc: Global,
    scope: &ModuleScope,
    at: ReadPoint<'a>,
) -> Result<(Expr, ReadPoint<'a>), Fault>
    ensures { Gives (λ x. (plain_expr x.0, place_of x.1)) result
        (whole_expr_at (scope_by scope.now) (place_of at.entry)) }
{
    match expr(alloc, LEVELS, at) {
        Ok(found) => Ok(found),
        Err(Fault::Memory) => Err(Fault::Memory),
        Err(Fault::Syntax(_)) => deep(alloc, scope, at),
    }
}

/// An expression of at most so many levels of nesting.
#[cycle(reader)]
#[tactic(auto, using(crate::proofs::Levels::expr_at_is))]
fn expr<'a>(alloc: Global, levels: u8, at: ReadPoint<'a>) -> Result<(Expr, ReadPoint<'a>), Fault>
    ensures { Gives (λ x. (plain_expr x.0, place_of x.1)) result (exprs.expr_at levels (place_of at.entry)) }
{
    if begins(at, b"(") || begins(at, b"{") {
        nested(alloc, levels, at)
    } else if starts_digit(at) {
        literal(alloc, at)
    } else {
        named(alloc, levels, at)
    }
}

/// What stands one level deeper.
#[cycle(reader)]
fn inner<'a>(alloc: Global, levels: u8, at: ReadPoint<'a>) -> Result<(Expr, ReadPoint<'a>), Fault>
    ensures { Gives (λ x. (plain_expr x.0, place_of x.1)) result (exprs.inner_at levels (place_of at.entry)) }
{
    match fewer(levels) {
        None => Err(Fault::Syntax(at.rest.len())),
        Some(levels) => expr(alloc, levels, at),
    }
}

/// A name, and what stands in brackets after it.
#[cycle(reader)]
fn named<'a>(alloc: Global, levels: u8, at: ReadPoint<'a>) -> Result<(Expr, ReadPoint<'a>), Fault>
    ensures { Gives (λ x. (plain_expr x.0, place_of x.1)) result
        (exprs.named_by (exprs.inner_at levels) (place_of at.entry)) }
{
    let (net, at) = name(alloc, at)?;
    if begins(at, b"[") {
        bracketed(alloc, levels, net, at)
    } else {
        Ok((Expr::Net(net), at))
    }
}

/// What stands in square brackets after a name.
#[cycle(reader)]
fn bracketed<'a>(
    alloc: Global,
    levels: u8,
    net: Name,
    at: ReadPoint<'a>,
) -> Result<(Expr, ReadPoint<'a>), Fault>
    ensures { Gives (λ x. (plain_expr x.0, place_of x.1)) result
        (exprs.bracketed_by (exprs.inner_at levels) net (place_of at.entry)) }
{
    let at = expect(at, b"[")?;
    if is_part(at) {
        return part(net, at);
    }
    let (index, at) = inner(alloc, levels, at)?;
    item(alloc, net, index, at)
}

/// What begins with a bracket.
#[cycle(reader)]
fn nested<'a>(alloc: Global, levels: u8, at: ReadPoint<'a>) -> Result<(Expr, ReadPoint<'a>), Fault>
    ensures { Gives (λ x. (plain_expr x.0, place_of x.1)) result (exprs.nested_at levels (place_of at.entry)) }
{
    match fewer(levels) {
        None => Err(Fault::Syntax(at.rest.len())),
        Some(levels) => brackets(alloc, levels, at),
    }
}

/// What begins with a bracket, its level counted.
#[cycle(reader)]
fn brackets<'a>(
    alloc: Global,
    levels: u8,
    at: ReadPoint<'a>,
) -> Result<(Expr, ReadPoint<'a>), Fault>
    ensures { Gives (λ x. (plain_expr x.0, place_of x.1)) result
        (exprs.brackets_by (exprs.expr_at levels) (place_of at.entry)) }
{
    if begins(at, b"{") {
        joined(alloc, levels, at)
    } else if begins(at, b"(~") {
        inverted(alloc, levels, at)
    } else {
        round(alloc, levels, at)
    }
}

/// `{a, b}`
#[cycle(reader)]
fn joined<'a>(alloc: Global, levels: u8, at: ReadPoint<'a>) -> Result<(Expr, ReadPoint<'a>), Fault>
    ensures { Gives (λ x. (plain_expr x.0, place_of x.1)) result
        (exprs.joined_by (exprs.expr_at levels) (place_of at.entry)) }
{
    let at = expect(at, b"{")?;
    let (high, at) = expr(alloc, levels, at)?;
    let at = expect(at, b", ")?;
    let (low, at) = expr(alloc, levels, at)?;
    let at = expect(at, b"}")?;
    let cat = Expr::Cat(Box::new(alloc, high)?, Box::new(alloc, low)?);
    Ok((cat, at))
}

/// `(~a)`
#[cycle(reader)]
fn inverted<'a>(
    alloc: Global,
    levels: u8,
    at: ReadPoint<'a>,
) -> Result<(Expr, ReadPoint<'a>), Fault>
    ensures { Gives (λ x. (plain_expr x.0, place_of x.1)) result
        (exprs.inverted_by (exprs.expr_at levels) (place_of at.entry)) }
{
    let at = expect(at, b"(~")?;
    let (inner, at) = expr(alloc, levels, at)?;
    let at = expect(at, b")")?;
    Ok((Expr::Not(Box::new(alloc, inner)?), at))
}

/// `(c ? a : b)` or `(a op b)`
#[cycle(reader)]
fn round<'a>(alloc: Global, levels: u8, at: ReadPoint<'a>) -> Result<(Expr, ReadPoint<'a>), Fault>
    ensures { Gives (λ x. (plain_expr x.0, place_of x.1)) result
        (exprs.round_by (exprs.expr_at levels) (place_of at.entry)) }
{
    let at = expect(at, b"(")?;
    let (first, at) = expr(alloc, levels, at)?;
    let at = expect(at, b" ")?;
    if begins(at, b"? ") {
        chosen(alloc, levels, first, at)
    } else {
        applied(alloc, levels, first, at)
    }
}

/// `(c ? a : b)`, from the `?` on.
#[cycle(reader)]
fn chosen<'a>(
    alloc: Global,
    levels: u8,
    test: Expr,
    at: ReadPoint<'a>,
) -> Result<(Expr, ReadPoint<'a>), Fault>
    ensures { Gives (λ x. (plain_expr x.0, place_of x.1)) result
        (exprs.chosen_by (exprs.expr_at levels) (plain_expr test) (place_of at.entry)) }
{
    let at = expect(at, b"? ")?;
    let (one, at) = expr(alloc, levels, at)?;
    let at = expect(at, b" : ")?;
    let (other, at) = expr(alloc, levels, at)?;
    let at = expect(at, b")")?;
    let test = Box::new(alloc, test)?;
    let choice = Expr::Choose(test, Box::new(alloc, one)?, Box::new(alloc, other)?);
    Ok((choice, at))
}

/// `(a op b)`, from the operator on.
#[cycle(reader)]
fn applied<'a>(
    alloc: Global,
    levels: u8,
    left: Expr,
    at: ReadPoint<'a>,
) -> Result<(Expr, ReadPoint<'a>), Fault>
    ensures { Gives (λ x. (plain_expr x.0, place_of x.1)) result
        (exprs.applied_by (exprs.expr_at levels) (plain_expr left) (place_of at.entry)) }
{
    let (op, at) = operator(at)?;
    let at = expect(at, b" ")?;
    let (right, at) = expr(alloc, levels, at)?;
    let at = expect(at, b")")?;
    let binary = Expr::Binary(op, Box::new(alloc, left)?, Box::new(alloc, right)?);
    Ok((binary, at))
}
