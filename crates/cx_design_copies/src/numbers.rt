//! Numbers of 32 bits. There is no memory for more parts than they number.

ghost use Rattle.std.specs.Prelude.{◌≡◌, ◌+◌, IfOk};

use cx_text::Memory;

/// A count as a number of 32 bits.
pub fn number(count: usize) -> Result<u32, Memory>
    ensures value { IfOk result (λ n. n ≡ count) }
{
    match u32::try_from(count) {
        Ok(number) => Ok(number),
        Err(_) => Err(Memory),
    }
}

/// The sum of two numbers.
pub fn sum(a: u32, b: u32) -> Result<u32, Memory>
    ensures value { IfOk result (λ n. n ≡ a + b) }
{
    match a.checked_add(b) {
        Some(sum) => Ok(sum),
        None => Err(Memory),
    }
}
