//! What stands at the ports of a cell, and values made of numbers.

ghost use Rattle.std.specs.Prelude.{◌≡◌, IfSome};
ghost use Rattle.cx_bits.specs.BitVector.{Fits};
ghost use Rattle.cx_bits.specs.Operators.{bit_of};
ghost use Rattle.cx_prim.specs.Rows as rows;

use cx_bits::Bits;

/// What stands at a port.
pub fn input_at(inputs: &[Option<Bits>], port: usize) -> Option<Bits>
    ensures value { result ≡ rows.input inputs.now port }
{
    match inputs.get(port) {
        Some(entry) => *entry,
        None => None,
    }
}

/// The number at a port, and 0 where no value stands there.
pub fn number_at(inputs: &[Option<Bits>], port: usize) -> u128
    ensures value { result ≡ rows.value_at inputs.now port }
    ensures fits { IfSome (rows.input inputs.now port) Fits }
{
    match input_at(inputs, port) {
        Some(value) => value.value(),
        None => 0,
    }
}

/// Whether an enabling port is 1.
pub fn is_on(inputs: &[Option<Bits>], port: usize) -> bool
    ensures value { result ≡ rows.is_on inputs.now port }
{
    number_at(inputs, port) == 1
}

/// The number as a value of this width.
pub fn value_of(width: u8, number: u128) -> Bits
    requires { Fits (record { width = width; value = number }) }
    ensures value { result ≡ record { width = width; value = number } }
{
    match Bits::new(width, number) {
        Some(value) => value,
        None => unreachable!(),
    }
}

/// A truth value as one bit.
pub fn bit(truth: bool) -> Bits
    ensures value { result ≡ bit_of truth }
{
    value_of(1, u128::from(truth))
}
