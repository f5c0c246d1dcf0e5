//! Widths of counters and indices.

ghost use Rattle.std.specs.Prelude.{◌≡◌, ◌≤◌};
ghost use Rattle.cx_prim.specs.Widths.{IsWidth};
ghost use Rattle.cx_vmods.specs.BitCounts as plain;

/// The least width, from 1 on, that has so many numbers.
pub fn bits_for(numbers: u32) -> u8
    ensures value { result ≡ plain.bits_for numbers }
    ensures width { IsWidth result }
    ensures few { result ≤ 32 }
{
    for width in 1..32 {
        if u64::from(numbers) <= 1 << width {
            return width;
        }
    }
    32
}
