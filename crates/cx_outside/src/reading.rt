//! Files that are read whole by their names.

ghost use Rattle.std.specs.Prelude.{◌≡◌, ◌⊎◌, ◌≤◌, ◌<◌, ℕ, List, Option, length, IfOk, IsErrOf, MatchResult};
ghost use Rattle.cx_outside.specs.Counts.{HasRisen};
ghost use Rattle.cx_outside.specs.Failures.{failed_by};
ghost use Rattle.cx_outside.specs.Reading.{Holds, IsAbsent, IsHeld, HasLength};

use std::alloc::{AllocError, Global};

/// Why a file was not read.
#[derive(Clone, Copy, Debug, PartialEq, Eq)]
pub enum FileAnswer {
    /// The outside failed, or no file has the name.
    Failed,
    /// The file has more bytes than the limit: all of them where it is told what names hold, else those seen.
    TooLong(u64),
    /// An allocation was refused.
    Memory,
}

impl From<AllocError> for FileAnswer {
    ghost use Rattle.std.specs.Prelude.{◌≡◌};
    ghost use Rattle.cx_outside.specs.declared.reading.FileAnswer.TheVariants.{Memory};

    ghost from_gives = { λ _ e. e ≡ Memory };

    fn from(_e: AllocError) -> FileAnswer {
        FileAnswer::Memory
    }
}

/// Files by name. What they hold is told or not told; their faults are counted, and the count never falls; which
/// reads failed is always told.
pub trait Files {
    /// Where it is told: for each name the bytes that it holds, or none.
    ghost held: { Self → Option (List ℕ → Option (List ℕ)) };

    /// How often the outside has failed, at most 2^64 - 1.
    ghost faults: { Self → ℕ };

    /// The names of the reads that failed, in order.
    ghost failures: { Self → List (List ℕ) };

    /// Reads all bytes of a file, of which there may be `limit` at most.
    fn read_file(&mut self, alloc: Global, name: &[u8], limit: usize) -> Result<Vec<u8>, FileAnswer>
        ensures ok { IfOk result (λ bytes. Holds (held self.old) name.now bytes.items) }
        ensures within { IfOk result (λ bytes. length bytes.items ≤ limit) }

        ensures failed { IsErrOf result FileAnswer.Failed →
            HasRisen (faults self.old) (faults self.new) ⊎ IsAbsent (held self.old) name.now }
        ensures too_long { (seen : ℕ) → IsErrOf result (FileAnswer.TooLong seen) →
            (limit < seen) × HasLength (held self.old) name.now seen }
        ensures over { (bytes : List ℕ) → IsHeld (held self.old) name.now bytes → limit < length bytes →
            IsErrOf result (FileAnswer.TooLong (length bytes))
            ⊎ (IsErrOf result FileAnswer.Failed ⊎ IsErrOf result FileAnswer.Memory) }

        ensures names { MatchResult result (λ _. failures self.new ≡ failures self.old)
            (λ e. failures self.new ≡ failed_by e name.now (failures self.old)) }

        ensures kept { held self.new ≡ held self.old }
        ensures count { faults self.old ≤ faults self.new };
}
