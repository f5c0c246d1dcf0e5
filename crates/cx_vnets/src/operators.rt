//! The operators of two operands.

ghost use Rattle.std.specs.Prelude.{◌≡◌, ◌<◌, ◌≤◌};
ghost use Rattle.cx_vtree.specs.Operators as operators;

use cx_bits::Bits;
use cx_vtree::Operator;

/// What an operator gives of two operands of one width.
#[inline(always)]
pub fn operate(op: Operator, left: Bits, right: Bits) -> Bits
    requires { left.width ≡ right.width }
    ensures { result ≡ operators.operate op left right }
{
    match op {
        Operator::Add => left.add(right),
        Operator::Subtract => left.sub(right),
        Operator::Multiply => left.mul(right),
        Operator::And => left.and(right),
        Operator::Or => left.or(right),
        Operator::Xor => left.xor(right),
        Operator::ShiftLeft => left.shl(right),
        Operator::ShiftRight => left.shr(right),
        Operator::Equal => left.eq(right),
        Operator::NotEqual => left.eq(right).not(),
        Operator::Less => left.lt(right),
        Operator::Greater => right.lt(left),
        Operator::AtMost => right.lt(left).not(),
        Operator::AtLeast => left.lt(right).not(),
    }
}

/// A number of bits to shift by.
fn amount(bits: u8) -> Bits
    ensures { result.value ≡ bits }
{
    match Bits::new(8, u128::from(bits)) {
        Some(amount) => amount,
        None => unreachable!(),
    }
}

/// The bits of a value from `high` down to `low`.
pub fn part(value: Bits, high: u8, low: u8) -> Bits
    requires order { low ≤ high }
    requires within { high < value.width }
    ensures { result ≡ operators.part_of high low value }
{
    let top = value.width() - 1;
    prove!(high <= top);
    value.shr(amount(low)).low(high - low + 1)
}
