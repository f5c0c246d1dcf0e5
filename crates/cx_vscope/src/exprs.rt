//! Widths and nesting of expressions.

ghost use Rattle.std.specs.Prelude.{◌≡◌, ◌^◌, nat_le, Some, None, if◌then◌else◌};
ghost use Rattle.cx_vtree.specs.PlainParts.{plain_expr};
ghost use Rattle.cx_vtree.specs.Sound as sound;

use cx_bits::Bits;
use cx_text::WIDTH_BITS;
use cx_vtree::{Expr, Operator};

/// A literal that does not fit its width: no `Bits` is one.
#[tactic(auto, using(crate::proofs::Literals::fits_no_overflow))]
pub fn overflows(bits: Bits) -> bool
    ensures { result ≡ nat_le (2 ^ bits.width) bits.value }
{
    let _value = bits.value();
    false
}

fn is_comparison(op: Operator) -> bool
    ensures { result ≡ sound.is_comparison op }
{
    match op {
        Operator::Add
        | Operator::Subtract
        | Operator::Multiply
        | Operator::And
        | Operator::Or
        | Operator::Xor
        | Operator::ShiftLeft
        | Operator::ShiftRight => false,
        Operator::Equal
        | Operator::NotEqual
        | Operator::Less
        | Operator::Greater
        | Operator::AtMost
        | Operator::AtLeast => true,
    }
}

/// The width of a literal, which is 1 to 128.
#[tactic(auto, using(cx_vtree::proofs::SoundLemmas::not_wide))]
pub fn literal_width(bits: Bits) -> Option<u8>
    ensures { result ≡ (if sound.bad_width bits.width then None else Some bits.width) }
{
    Some(bits.width())
}

/// The width of the bits `high` to `low` of a net, None where they are not within it.
pub fn part_width(width: u8, high: u8, low: u8) -> Option<u8>
    ensures { result ≡ sound.part_width width high low }
{
    if low <= high && high < width {
        Some(high + 1 - low)
    } else {
        None
    }
}

/// The width of an operator's result, None where its sides differ in width.
pub fn applied_width(op: Operator, v: u8, w: u8) -> Option<u8>
    ensures { result ≡ sound.applied_width op v w }
{
    if v != w {
        return None;
    }
    Some(if is_comparison(op) { 1 } else { v })
}

/// The width of a choice, None where the test has not one bit or the sides differ in width.
pub fn chosen_width(t: u8, v: u8, w: u8) -> Option<u8>
    ensures { result ≡ sound.chosen_width t v w }
{
    if t == 1 && v == w { Some(v) } else { None }
}

/// The width of two sides one behind the other, None where it is over 128.
pub fn joined_width(v: u8, w: u8) -> Option<u8>
    ensures { result ≡ sound.joined_width v w }
{
    if u16::from(v) + u16::from(w) <= u16::from(WIDTH_BITS) {
        Some(v + w)
    } else {
        None
    }
}

/// Whether more than so many levels are nested.
pub fn nests_over(levels: u8, e: &Expr) -> bool
    ensures { result ≡ sound.nests_over levels (plain_expr e.now) }
{
    match e {
        Expr::Net(_) | Expr::Literal(_) | Expr::Slice(_, _, _) => false,
        Expr::Item(_, index) => levels == 0 || nests_over(levels - 1, index),
        Expr::Binary(_, left, right) => {
            levels == 0 || nests_over(levels - 1, left) || nests_over(levels - 1, right)
        }
        Expr::Not(inner) => levels == 0 || nests_over(levels - 1, inner),
        Expr::Choose(test, one, other) => {
            levels == 0
                || nests_over(levels - 1, test)
                || nests_over(levels - 1, one)
                || nests_over(levels - 1, other)
        }
        Expr::Cat(high, low) => {
            levels == 0 || nests_over(levels - 1, high) || nests_over(levels - 1, low)
        }
    }
}

/// Whether an expression is nested deeper than the limit.
pub fn too_deep(e: &Expr) -> bool
    ensures { result ≡ sound.too_deep (plain_expr e.now) }
{
    nests_over(64, e)
}
