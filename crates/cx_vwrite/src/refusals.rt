//! Why a source is not written.

ghost use Rattle.std.specs.Prelude.{◌≡◌};
ghost use Rattle.cx_vwrite.specs.declared.refusals.WriteRefusal.TheVariants as refusals;

use cx_text::Memory;

/// Why `write` gives no text.
#[derive(Clone, Copy, Debug, PartialEq, Eq)]
pub enum WriteRefusal {
    /// The text would be longer than a Verilog text may be; it would have this many bytes.
    TooLong(u64),
    /// An allocation was refused.
    Memory,
}

impl From<Memory> for WriteRefusal {
    ghost from_gives = { λ _ e. e ≡ refusals.Memory };

    fn from(_e: Memory) -> WriteRefusal {
        WriteRefusal::Memory
    }
}
