//! The numbers that digits spell.

ghost use Rattle.std.specs.Prelude.{◌+◌, ◌*◌, ◌^◌, ◌<◌, ◌≤◌, SomeIff};
ghost use Rattle.std.specs.Char.{digit_value};
ghost use Rattle.std.specs.Str.Parse.{IsNumeral, digits_value};

/// The number that the digits spell in base ten. None exactly where the list is empty, another byte than a digit stands
/// in it, or the number is 2 to the 128 or more.
pub fn decimal(digits: &[u8]) -> Option<u128>
    ensures { SomeIff result
        (IsNumeral 10 digits.now × (digits_value 10 digits.now < 2 ^ 128))
        (digits_value 10 digits.now) }
{
    numeral(10, digits)
}

/// The number that the digits spell in this base, with letters of either case for the digits from ten on. None as in
/// `decimal`.
pub fn numeral(base: u32, digits: &[u8]) -> Option<u128>
    requires low { 2 ≤ base }
    requires high { base ≤ 36 }
    ensures { SomeIff result
        (IsNumeral base digits.now × (digits_value base digits.now < 2 ^ 128))
        (digits_value base digits.now) }
{
    if digits.is_empty() {
        return None;
    }
    let mut value: u128 = 0;
    for byte in digits {
        value = with_digit(value, base, *byte)?;
    }
    Some(value)
}

// The number that a digit behind the digits of `value` makes, unless it is no digit or the number does not fit.
fn with_digit(value: u128, base: u32, byte: u8) -> Option<u128>
    requires low { 2 ≤ base }
    requires high { base ≤ 36 }
    ensures { SomeIff result
        ((digit_value byte < base) × (value * base + digit_value byte < 2 ^ 128))
        (value * base + digit_value byte) }
{
    let digit = char::from(byte).to_digit(base)?;
    value
        .checked_mul(u128::from(base))?
        .checked_add(u128::from(digit))
}
