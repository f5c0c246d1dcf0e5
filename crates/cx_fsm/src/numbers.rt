//! Numbers of 32 bits.

ghost use Rattle.std.specs.Prelude.{◌≡◌, ◌+◌, IfOk};

use cx_text::Memory;

/// The number of a part. Parts that no `u32` counts are too many for any memory.
pub(crate) fn number_of(place: usize) -> Result<u32, Memory>
    ensures value { IfOk result (λ number. number ≡ place) }
{
    match u32::try_from(place) {
        Ok(number) => Ok(number),
        Err(_) => Err(Memory),
    }
}

/// The sum of two numbers of parts. Parts that no `u32` counts are too many for any memory.
pub(crate) fn beyond(first: u32, second: u32) -> Result<u32, Memory>
    ensures value { IfOk result (λ number. number ≡ first + second) }
{
    match first.checked_add(second) {
        Some(number) => Ok(number),
        None => Err(Memory),
    }
}
