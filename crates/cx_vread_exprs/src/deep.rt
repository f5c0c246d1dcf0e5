//! What nests deeper than a tree is read.

ghost use Rattle.std.specs.Prelude.{◌≡◌, IfOk, option_map};
ghost use Rattle.cx_vtree.specs.Plain.{Inverted};
ghost use Rattle.cx_vtree.specs.PlainParts.{plain_expr};
ghost use Rattle.cx_vscope.specs.ScopeValues.{scope_by};
ghost use Rattle.cx_vread_exprs.specs.Answers.{Gives, place_of};
ghost use Rattle.cx_vread_exprs.specs.Deep as deeps;

use crate::faults::Fault;
use crate::numbers::{fitting, misnamed, miswidened};
use crate::passing::pass_shape;
use crate::places::ReadPoint;
use cx_bits::Bits;
use cx_text::Memory;
use cx_vscope::{ModuleScope, Shape};
use cx_vtree::Expr;
use std::alloc::Global;

/// How many brackets break the limit.
const BRACKETS: u8 = 65;

/// The literal 0 of a width, where there is one.
fn zero_of(width: Option<u8>) -> Option<Bits>
    ensures { option_map (λ b. b) result ≡ deeps.bits_of width }
{
    let w = width?;
    Bits::new(w, 0)
}

/// An expression of a width, in which no name is wrong.
fn of_width(alloc: Global, width: Option<u8>) -> Result<Expr, Memory>
    ensures { IfOk result (λ e. plain_expr e ≡ deeps.leaf_by (deeps.bits_of width)) }
{
    match zero_of(width) {
        None => miswidened(alloc),
        Some(bits) => Ok(fitting(bits)),
    }
}

/// An expression of a shape, without brackets around it.
fn leaf(alloc: Global, shape: Shape) -> Result<Expr, Memory>
    ensures { IfOk result (λ e. plain_expr e ≡ deeps.leaf_of shape) }
{
    if shape.misnamed {
        misnamed(alloc)
    } else {
        of_width(alloc, shape.width)
    }
}

/// Inverts an expression.
fn invert(alloc: Global, e: Expr) -> Result<Expr, Memory>
    ensures { IfOk result (λ not. plain_expr not ≡ Inverted (plain_expr e)) }
{
    Ok(Expr::Not(Box::new(alloc, e)?))
}

/// Inverts an expression so often that it breaks the limit.
#[tactic(auto, using(crate::proofs::Levels::brackets_are, crate::proofs::Levels::inverted_next, crate::proofs::Levels::inverted_none))]
fn bracketed(alloc: Global, inner: Expr) -> Result<Expr, Memory>
    ensures { IfOk result (λ e. plain_expr e ≡ deeps.inverted deeps.most_brackets (plain_expr inner)) }
{
    let mut e = inner;
    let mut left = BRACKETS;
    while left > 0 {
        e = invert(alloc, e)?;
        left -= 1;
    }
    Ok(e)
}

/// An expression that is nested too deep: one of its shape stands for it, which breaks the limit too.
pub fn deep<'a>(
    alloc: Global,
    scope: &ModuleScope,
    at: ReadPoint<'a>,
) -> Result<(Expr, ReadPoint<'a>), Fault>
    ensures { Gives (λ x. (plain_expr x.0, place_of x.1)) result
        (deeps.deep_at (scope_by scope.now) (place_of at.entry)) }
{
    let (shape, at) = pass_shape(alloc, scope, at)?;
    let inner = leaf(alloc, shape)?;
    Ok((bracketed(alloc, inner)?, at))
}
