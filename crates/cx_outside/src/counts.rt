//! A count that never falls and stays at its last value.

ghost use Rattle.std.specs.Prelude.{◌≡◌};
ghost use Rattle.cx_outside.specs.Counts.{raised};

/// One more, or 2^64 - 1 where the count stands there.
pub(crate) fn raise(count: u64) -> u64
    ensures value { result ≡ raised count }
{
    count.saturating_add(1)
}
