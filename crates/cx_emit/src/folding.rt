//! Many parts under one operator.

ghost use Rattle.std.specs.Prelude.{◌≡◌, IfOk, if◌then◌else◌, length, map, nat_lt};
ghost use Rattle.cx_vtree.specs.Plain.{Applied};
ghost use Rattle.cx_vtree.specs.PlainParts.{plain_expr};
ghost use Rattle.cx_emit.specs.Exprs as plain;

use cx_text::Memory;
use cx_vtree::{Expr, Operator};
use std::alloc::Global;

/// So many rounds that no list of a design needs more.
const ROUNDS: usize = 14;

/// An operator on two expressions.
pub fn binary(alloc: Global, operator: Operator, left: Expr, right: Expr) -> Result<Expr, Memory>
    ensures value { IfOk result (λ e. plain_expr e ≡ Applied operator (plain_expr left) (plain_expr right)) }
{
    let left = Box::new(alloc, left)?;
    Ok(Expr::Binary(operator, left, Box::new(alloc, right)?))
}

/// Neighbours under an operator.
fn paired(alloc: Global, operator: Operator, parts: Vec<Expr>) -> Result<Vec<Expr>, Memory>
    ensures value { IfOk result
        (λ pairs. map plain_expr pairs.items ≡ plain.paired operator (map plain_expr parts.items)) }
{
    let mut pairs = Vec::with_capacity(alloc, parts.len())?;
    let mut waiting = None;
    for part in parts {
        waiting = match waiting {
            None => Some(part),
            Some(left) => {
                pairs.push(binary(alloc, operator, left, part)?)?;
                None
            }
        };
    }
    if let Some(last) = waiting {
        pairs.push(last)?;
    }
    Ok(pairs)
}

/// The parts from the first to the last, each but the last under an operator with those behind it; `none` where there is no part.
fn joined(
    alloc: Global,
    operator: Operator,
    none: Expr,
    mut parts: Vec<Expr>,
) -> Result<Expr, Memory>
    ensures value { IfOk result
        (λ e. plain_expr e ≡ plain.joined operator (plain_expr none) (map plain_expr parts.items)) }
{
    let Some(mut whole) = parts.pop() else {
        return Ok(none);
    };
    while let Some(part) = parts.pop() {
        whole = binary(alloc, operator, part, whole)?;
    }
    Ok(whole)
}

/// A round: neighbours under an operator, where there is more than one part.
fn round(alloc: Global, operator: Operator, parts: Vec<Expr>) -> Result<Vec<Expr>, Memory>
    ensures value { IfOk result (λ pairs. map plain_expr pairs.items ≡
        (if nat_lt 1 (length parts.items) then plain.paired operator (map plain_expr parts.items)
        else map plain_expr parts.items)) }
{
    if parts.len() > 1 {
        return paired(alloc, operator, parts);
    }
    Ok(parts)
}

/// The parts paired again and again.
#[tactic(auto, using(crate::proofs::PairingLemmas::round_made))]
fn paired_often(
    alloc: Global,
    operator: Operator,
    mut parts: Vec<Expr>,
) -> Result<Vec<Expr>, Memory>
    ensures value { IfOk result (λ pairs.
        map plain_expr pairs.items ≡ plain.paired_often plain.rounds operator (map plain_expr parts.items)) }
{
    for _ in 0..ROUNDS {
        parts = round(alloc, operator, parts)?;
    }
    Ok(parts)
}

/// The parts under an operator, paired again and again, so that few stand within each other; `none` where there is no part.
pub fn folded(
    alloc: Global,
    operator: Operator,
    none: Expr,
    parts: Vec<Expr>,
) -> Result<Expr, Memory>
    ensures value { IfOk result
        (λ e. plain_expr e ≡ plain.folded operator (plain_expr none) (map plain_expr parts.items)) }
{
    let parts = paired_often(alloc, operator, parts)?;
    joined(alloc, operator, none, parts)
}
