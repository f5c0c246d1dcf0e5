//! The type of a value with a width, and its operators.

ghost use Rattle.std.specs.Prelude.{◌≡◌, ◌+◌, ◌-◌, ◌%◌, ◌^◌, ◌<◌, ◌≤◌, ◌↔◌, IsSome, IfSome};
ghost use Rattle.cx_bits.specs.BitVector.{BitVector, Fits};
ghost use Rattle.cx_bits.specs.Operators.{sum_of, difference_of, product_of, quotient_of, remainder_of, and_of, or_of, xor_of, complement_of, left_shift_of, right_shift_of, bit_of, less_bit_of, equal_bit_of, signed_less_bit_of, low_bits_of, zero_extension_of, concatenation_of};

use std::marker::Model;

/// A width of 1 to 128 bits and a value below two to the width. Contracts see it as a `BitVector`.
#[derive(Clone, Copy, Debug, PartialEq, Eq)]
pub struct Bits {
    // A whole word: a narrower one would leave a gap, which is copied in pieces.
    width: u64,
    value: u128,
}

impl Model for Bits {
    ghost use Rattle.cx_bits.specs.BitVector.{BitVector, Fits};

    ghost Value = { BitVector };

    ghost view = { λ b. record { width = b.width; value = b.value } };

    ghost invariant = { λ b. Fits (record { width = b.width; value = b.value }) };

    ghost inverse = { λ b. record { width = b.width; value = b.value } };
}

impl Bits {
    /// The value of this width. None where the width is 0 or over 128, or the value does not fit.
    pub fn new(width: u8, value: u128) -> Option<Bits>
        ensures some { IsSome result ↔ Fits (record { width = width; value = value }) }
        ensures value { IfSome result (λ b. b ≡ record { width = width; value = value }) }
    {
        if width == 0 || width > 128 {
            return None;
        }
        if width < 128 && value >> width != 0 {
            return None;
        }
        Some(Bits {
            width: u64::from(width),
            value,
        })
    }

    /// The width in bits.
    pub fn width(self) -> u8
        ensures value { result ≡ self.width }
        ensures within { (1 ≤ result) × (result ≤ 128) }
    {
        self.width as u8
    }

    /// The value, below two to the width.
    pub fn value(self) -> u128
        ensures value { result ≡ self.value }
        ensures fits { Fits self }
    {
        self.value
    }

    /// The sum of two values of one width, modulo two to the width.
    pub fn add(self, other: Bits) -> Bits
        requires { self.width ≡ other.width }
        ensures value { result ≡ sum_of self other }
    {
        reduced(self.width, self.value.wrapping_add(other.value))
    }

    /// The difference of two values of one width, modulo two to the width.
    pub fn sub(self, other: Bits) -> Bits
        requires { self.width ≡ other.width }
        ensures value { result ≡ difference_of self other }
    {
        reduced(self.width, self.value.wrapping_sub(other.value))
    }

    /// The product of two values of one width, modulo two to the width.
    pub fn mul(self, other: Bits) -> Bits
        requires { self.width ≡ other.width }
        ensures value { result ≡ product_of self other }
    {
        reduced(self.width, self.value.wrapping_mul(other.value))
    }

    /// The quotient, rounded down, and the remainder. For a divisor of 0 all ones and the dividend.
    pub fn div_rem(self, other: Bits) -> (Bits, Bits)
        ensures quotient { result.0 ≡ quotient_of self other }
        ensures remainder { result.1 ≡ remainder_of self other }
    {
        if other.value == 0 {
            let all_ones = Bits {
                width: self.width,
                value: ones(self.width),
            };
            return (all_ones, self);
        }
        let quotient = Bits {
            width: self.width,
            value: self.value / other.value,
        };
        let remainder = Bits {
            width: self.width,
            value: self.value % other.value,
        };
        (quotient, remainder)
    }

    /// The bits that are 1 in both of two values of one width.
    pub fn and(self, other: Bits) -> Bits
        requires { self.width ≡ other.width }
        ensures value { result ≡ and_of self other }
    {
        Bits {
            width: self.width,
            value: self.value & other.value,
        }
    }

    /// The bits that are 1 in one or both of two values of one width.
    pub fn or(self, other: Bits) -> Bits
        requires { self.width ≡ other.width }
        ensures value { result ≡ or_of self other }
    {
        Bits {
            width: self.width,
            value: self.value | other.value,
        }
    }

    /// The bits that are 1 in exactly one of two values of one width.
    pub fn xor(self, other: Bits) -> Bits
        requires { self.width ≡ other.width }
        ensures value { result ≡ xor_of self other }
    {
        Bits {
            width: self.width,
            value: self.value ^ other.value,
        }
    }

    /// Each bit turned.
    pub fn not(self) -> Bits
        ensures value { result ≡ complement_of self }
    {
        Bits {
            width: self.width,
            value: ones(self.width) - self.value,
        }
    }

    /// Shifted left by the value of `other`, whatever its width; 0 from the own width on.
    pub fn shl(self, other: Bits) -> Bits
        ensures value { result ≡ left_shift_of self other }
    {
        // A `u128` is shifted by at most 127.
        let shifted_up = if other.value < 128 {
            self.value << other.value
        } else {
            0
        };
        reduced(self.width, shifted_up)
    }

    /// Shifted right by the value of `other`, whatever its width; 0 from the own width on.
    pub fn shr(self, other: Bits) -> Bits
        ensures value { result ≡ right_shift_of self other }
    {
        let shifted_down = if other.value < 128 {
            self.value >> other.value
        } else {
            0
        };
        Bits {
            width: self.width,
            value: shifted_down,
        }
    }

    /// One bit: 1 where the value is below the other, both unsigned.
    pub fn lt(self, other: Bits) -> Bits
        ensures value { result ≡ less_bit_of self other }
    {
        bit(self.value < other.value)
    }

    /// One bit: 1 where the value is below the other of the same width, both in two's complement.
    pub fn signed_lt(self, other: Bits) -> Bits
        requires { self.width ≡ other.width }
        ensures value { result ≡ signed_less_bit_of self other }
    {
        let half = 1u128 << (self.width - 1);
        let left_negative = self.value >= half;
        let right_negative = other.value >= half;
        let below = if left_negative == right_negative {
            self.value < other.value
        } else {
            left_negative
        };
        bit(below)
    }

    /// One bit: 1 where the values are equal.
    pub fn eq(self, other: Bits) -> Bits
        ensures value { result ≡ equal_bit_of self other }
    {
        bit(self.value == other.value)
    }

    /// The low bits, `width` of them: 1 to the own width.
    pub fn low(self, width: u8) -> Bits
        requires some_bits { 1 ≤ width }
        requires within { width ≤ self.width }
        ensures value { result ≡ low_bits_of self width }
    {
        reduced(u64::from(width), self.value)
    }

    /// The same value at a width from the own to 128: zeros above.
    pub fn pad(self, width: u8) -> Bits
        requires wider { self.width ≤ width }
        requires within { width ≤ 128 }
        ensures value { result ≡ zero_extension_of self width }
    {
        Bits {
            width: u64::from(width),
            value: self.value,
        }
    }

    /// The bits of this value above those of `low`, 128 in all at most.
    pub fn cat(self, low: Bits) -> Bits
        requires { self.width + low.width ≤ 128 }
        ensures value { result ≡ concatenation_of self low }
    {
        Bits {
            width: self.width + low.width,
            value: (self.value << low.width) + low.value,
        }
    }
}

/// The value modulo two to the width.
fn reduced(width: u64, value: u128) -> Bits
    requires some_bits { 1 ≤ width }
    requires few_bits { width ≤ 128 }
    ensures { result ≡ record { width = width; value = value % 2 ^ width } }
{
    Bits {
        width,
        value: value & ones(width),
    }
}

/// The greatest value of a width: that many ones.
fn ones(width: u64) -> u128
    requires some_bits { 1 ≤ width }
    requires few_bits { width ≤ 128 }
    ensures { result ≡ 2 ^ width - 1 }
{
    u128::MAX >> (128 - width)
}

/// A truth value as one bit.
fn bit(truth: bool) -> Bits
    ensures { result ≡ bit_of truth }
{
    Bits {
        width: 1,
        value: u128::from(truth),
    }
}
