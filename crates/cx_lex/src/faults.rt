//! Why a text has no tokens, and where.

ghost use Rattle.std.specs.Prelude.{◌≡◌};
ghost use Rattle.cx_lex.specs.Reading.{memory_fault};

use cx_text::{Memory, Place};
use std::alloc::{AllocError, AllocFailed};

/// What is wrong with the first token that cannot be read.
#[derive(Clone, Copy, Debug, PartialEq, Eq)]
pub enum LexKind {
    /// A byte that begins no token, outside comments and strings.
    BadByte,
    /// A `/*` without a `*/` behind it.
    OpenComment,
    /// A string without its second `"` on its line.
    OpenString,
    /// A number or literal that breaks its rule, or a name or string of more than 255 bytes.
    BadLiteral,
    /// No fault of the text: an allocation was refused.
    Memory,
}

/// The first token that cannot be read, by the place of its first byte. `Memory` has the place 1:1.
#[derive(Clone, Copy, Debug, PartialEq, Eq)]
pub struct LexFault {
    pub kind: LexKind,
    pub place: Place,
}

impl From<Memory> for LexFault {
    ghost from_gives = { λ _ e. e ≡ memory_fault };

    fn from(_e: Memory) -> LexFault {
        LexFault {
            kind: LexKind::Memory,
            place: Place { line: 1, column: 1 },
        }
    }
}

impl<T: Drop> From<AllocFailed<T>> for LexFault {
    ghost from_gives = { λ _ e. e ≡ memory_fault };

    fn from(_e: AllocFailed<T>) -> LexFault {
        LexFault::from(Memory)
    }
}
