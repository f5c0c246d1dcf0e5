//! Why a text is not read.

ghost use Rattle.std.specs.Prelude.{◌≡◌};
ghost use Rattle.cx_vread.specs.declared.refusals.ReadRefusal.TheVariants as refusals;

use cx_text::Memory;

/// Why `read` gives no source. Lines are counted from 1; from 2^32 - 1 on all are that one.
#[derive(Clone, Copy, Debug, PartialEq, Eq)]
pub enum ReadRefusal {
    /// The first line with which the lines so far begin no text.
    Syntax(u32),
    /// The first line that breaks a rule breaks one on names.
    Name(u32),
    /// The first line that breaks a rule breaks one on widths, and none on names.
    Width(u32),
    /// The first line that breaks a rule breaks limits alone.
    Limit(u32),
    /// An allocation was refused.
    Memory,
}

impl From<Memory> for ReadRefusal {
    ghost from_gives = { λ _ e. e ≡ refusals.Memory };

    fn from(_e: Memory) -> ReadRefusal {
        ReadRefusal::Memory
    }
}
