//! Numbers of parts.

ghost use Rattle.std.specs.Prelude.{◌≡◌, IfOk, unwrap_or};

use cx_text::Memory;

/// The number of a part. There are no more parts than 32 bits number.
pub(crate) fn number(place: usize) -> Result<u32, Memory>
    ensures { IfOk result (λ number. number ≡ place) }
{
    if place > u32::MAX as usize {
        return Err(Memory);
    }
    Ok(place as u32)
}

/// The number of a part that was looked for, or 0 where there is none.
pub(crate) fn number_or_zero(found: Option<usize>) -> Result<u32, Memory>
    ensures { IfOk result (λ number. number ≡ unwrap_or found 0) }
{
    match found {
        None => Ok(0),
        Some(place) => number(place),
    }
}
