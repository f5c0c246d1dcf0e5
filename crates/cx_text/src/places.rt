//! Where a part of a text stands.

ghost use Rattle.std.specs.Prelude.{◌≡◌, ◌≢◌, ◌==◌, ℕ, ◌+◌, ◌^◌, ◌<◌, List, ◌∷◌, ◌++◌, length, take, count_by, All};
ghost use Rattle.cx_text.specs.Places.{place_at};

/// A line and a column of a text, both counted from 1. A column is a byte of its line.
#[derive(Clone, Copy, Debug, PartialEq, Eq, PartialOrd, Ord)]
pub struct Place {
    pub line: u32,
    pub column: u32,
}

impl Place {
    ghost use Rattle.cx_text.specs.Places.{after_byte};

    /// The place behind a byte that stands here: a line feed ends a line.
    pub(crate) fn after(self, byte: u8) -> Place
        requires line { self.line + 1 < 2 ^ 32 }
        requires column { self.column + 1 < 2 ^ 32 }
        ensures { result ≡ after_byte self byte }
    {
        if byte == b'\n' {
            Place {
                line: self.line + 1,
                column: 1,
            }
        } else {
            Place {
                line: self.line,
                column: self.column + 1,
            }
        }
    }
}

/// The law of places: a line's number counts the line feeds before it, and a column the bytes of its line, both from 1.
pub fn counted_from_one()
    ensures line { (text : List ℕ) (n : ℕ) → (place_at text n).line ≡ 1 + count_by (λ b. b == 10) (take n text) }
    ensures first_line { (text : List ℕ) (n : ℕ) → All (λ b. b ≢ 10) (take n text)
        → (place_at text n).column ≡ 1 + length (take n text) }
    ensures later_line { (text before last : List ℕ) (n : ℕ) → take n text ≡ before ++ 10 ∷ last → All (λ b. b ≢ 10) last
        → (place_at text n).column ≡ 1 + length last }
{}
