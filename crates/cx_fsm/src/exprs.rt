//! Expressions of nets.

ghost use Rattle.std.specs.Prelude.{◌≡◌, ◌∷◌, [], IfOk, if◌then◌else◌, map};
ghost use Rattle.cx_net.specs.Nets.{Fixed, Inverse, AllOf, AnyOf, Sum, Compares, exprs_of};
ghost use Rattle.cx_net.specs.PlainNets.{plain_net_expr};
ghost use Rattle.cx_wiring.specs.Parts as wiring;
ghost use Rattle.cx_wiring.specs.Parts.{literal};
ghost use Rattle.cx_fsm.specs.Drafts.{IfWhole, Keeps};

use crate::drafts::Draft;
use cx_bits::Bits;
use cx_meaning::Comparison;
use cx_net::NetExpr;
use cx_text::Memory;
use std::alloc::Global;

/// One bit.
pub(crate) fn bit(one: bool) -> NetExpr
    ensures value { plain_net_expr result ≡ literal 1 (if one then 1 else 0) }
{
    match Bits::new(1, u128::from(one)) {
        Some(bits) => NetExpr::Literal(bits),
        None => unreachable!(),
    }
}

/// A number of 32 bits.
pub(crate) fn word(number: u32) -> NetExpr
    ensures value { plain_net_expr result ≡ Fixed (record { width = 32; value = number }) }
{
    match Bits::new(32, u128::from(number)) {
        Some(bits) => NetExpr::Literal(bits),
        None => unreachable!(),
    }
}

/// Each bit inverted.
pub(crate) fn inverse(draft: &mut Draft, expr: NetExpr) -> NetExpr
    ensures kept { Keeps draft.old draft.new }
    ensures value { IfWhole draft.new (plain_net_expr result ≡ Inverse (plain_net_expr expr)) }
{
    match Box::new(draft.alloc, expr) {
        Ok(inner) => NetExpr::Not(inner),
        Err(_) => wanting(draft),
    }
}

/// Stands for an expression for which memory is wanting.
fn wanting(draft: &mut Draft) -> NetExpr
    ensures kept { Keeps draft.old draft.new }
    ensures never { IfWhole draft.new ⊥ }
{
    draft.is_whole = false;
    NetExpr::Go
}

/// 1 where both are 1.
pub(crate) fn both(draft: &mut Draft, one: NetExpr, other: NetExpr) -> NetExpr
    ensures kept { Keeps draft.old draft.new }
    ensures value { IfWhole draft.new
        (plain_net_expr result ≡ AllOf (exprs_of (plain_net_expr one ∷ plain_net_expr other ∷ []))) }
{
    match Vec::from_array(draft.alloc, [one, other]) {
        Ok(parts) => NetExpr::And(parts),
        Err(_) => wanting(draft),
    }
}

/// 1 where one of two is 1.
pub(crate) fn either(draft: &mut Draft, one: NetExpr, other: NetExpr) -> NetExpr
    ensures kept { Keeps draft.old draft.new }
    ensures value { IfWhole draft.new
        (plain_net_expr result ≡ AnyOf (exprs_of (plain_net_expr one ∷ plain_net_expr other ∷ []))) }
{
    match Vec::from_array(draft.alloc, [one, other]) {
        Ok(parts) => NetExpr::Or(parts),
        Err(_) => wanting(draft),
    }
}

/// 1 where all of at least one are 1.
pub(crate) fn all_of(parts: Vec<NetExpr>) -> NetExpr
    ensures value { plain_net_expr result ≡ AllOf (exprs_of (map plain_net_expr parts.items)) }
{
    NetExpr::And(parts)
}

/// Two expressions in boxes.
fn boxes(
    alloc: Global,
    one: NetExpr,
    other: NetExpr,
) -> Result<(Box<NetExpr>, Box<NetExpr>), Memory>
    ensures one { IfOk result (λ r. r.0.value ≡ one) }
    ensures other { IfOk result (λ r. r.1.value ≡ other) }
{
    let one = Box::new(alloc, one)?;
    Ok((one, Box::new(alloc, other)?))
}

/// The sum of two, modulo 2 to the width.
pub(crate) fn sum(draft: &mut Draft, one: NetExpr, other: NetExpr) -> NetExpr
    ensures kept { Keeps draft.old draft.new }
    ensures value { IfWhole draft.new (plain_net_expr result ≡ Sum (plain_net_expr one) (plain_net_expr other)) }
{
    match boxes(draft.alloc, one, other) {
        Ok((one, other)) => NetExpr::Add(one, other),
        Err(_) => wanting(draft),
    }
}

/// How two compare.
pub(crate) fn compare(
    draft: &mut Draft,
    comparison: Comparison,
    one: NetExpr,
    other: NetExpr,
) -> NetExpr
    ensures kept { Keeps draft.old draft.new }
    ensures value { IfWhole draft.new
        (plain_net_expr result ≡ Compares comparison (plain_net_expr one) (plain_net_expr other)) }
{
    match boxes(draft.alloc, one, other) {
        Ok((one, other)) => NetExpr::Compare(comparison, one, other),
        Err(_) => wanting(draft),
    }
}

/// Whether an expression of 32 bits is a number.
pub(crate) fn equals(draft: &mut Draft, expr: NetExpr, number: u32) -> NetExpr
    ensures kept { Keeps draft.old draft.new }
    ensures value { IfWhole draft.new (plain_net_expr result ≡ wiring.equals (plain_net_expr expr) number) }
{
    compare(draft, Comparison::Equal, expr, word(number))
}

/// The same expression again.
#[cycle(copies)]
pub(crate) fn copied(draft: &mut Draft, expr: &NetExpr) -> NetExpr
    ensures kept { Keeps draft.old draft.new }
    ensures value { IfWhole draft.new (plain_net_expr result ≡ plain_net_expr expr.now) }
{
    match expr {
        NetExpr::Port(port) => NetExpr::Port(*port),
        NetExpr::Register(register) => NetExpr::Register(*register),
        NetExpr::Wire(wire) => NetExpr::Wire(*wire),
        NetExpr::Hole(hole) => NetExpr::Hole(*hole),
        NetExpr::Go => NetExpr::Go,
        NetExpr::Literal(bits) => NetExpr::Literal(*bits),
        NetExpr::Not(inner) => {
            let inner = copied(draft, inner);
            inverse(draft, inner)
        }
        NetExpr::And(parts) => NetExpr::And(all_copied(draft, parts)),
        NetExpr::Or(parts) => NetExpr::Or(all_copied(draft, parts)),
        NetExpr::Add(one, other) => {
            let one = copied(draft, one);
            let other = copied(draft, other);
            sum(draft, one, other)
        }
        NetExpr::Compare(comparison, one, other) => {
            let one = copied(draft, one);
            let other = copied(draft, other);
            compare(draft, *comparison, one, other)
        }
    }
}

/// The same expressions again.
#[cycle(copies)]
fn all_copied(draft: &mut Draft, exprs: &[NetExpr]) -> Vec<NetExpr>
    ensures kept { Keeps draft.old draft.new }
    ensures value { IfWhole draft.new (map plain_net_expr result.items ≡ map plain_net_expr exprs.now) }
{
    let mut copies = Vec::new(draft.alloc);
    for expr in exprs {
        let copy = copied(draft, expr);
        draft.push(&mut copies, copy);
    }
    copies
}
