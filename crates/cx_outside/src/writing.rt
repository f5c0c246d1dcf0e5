//! Sinks, which take bytes in their order, and the loop that writes all of a piece.

ghost use Rattle.std.specs.Prelude.{◌≡◌, ◌≤◌, ◌<◌, ℕ, List, Option, length, take, IfOk, OnOk, OnErr};
ghost use Rattle.cx_outside.specs.Counts.{HasRisen};
ghost use Rattle.cx_outside.specs.Writing.{grown, GrowsByPart};

/// A sink took nothing of a piece.
#[derive(Clone, Copy, Debug, PartialEq, Eq)]
pub struct Failed;

/// Takes bytes. What was taken is told or not told; the faults are counted, and the count never falls.
pub trait Sink {
    /// Where it is told: the bytes taken so far.
    ghost written: { Self → Option (List ℕ) };

    /// How often the sink has failed, at most 2^64 - 1.
    ghost faults: { Self → ℕ };

    /// Takes a front of the piece, at least one byte, and answers how many. At `Failed` it took none.
    fn write(&mut self, piece: &[u8]) -> Result<usize, Failed>
        requires some { 0 < length piece.now }

        ensures ok { IfOk result (λ n. (0 < n) × (n ≤ length piece.now)) }
        ensures grows { IfOk result (λ n. written self.new ≡ grown (written self.old) (take n piece.now)) }

        ensures failed { OnErr result (HasRisen (faults self.old) (faults self.new)) }
        ensures kept { OnErr result (written self.new ≡ written self.old) }

        ensures count { faults self.old ≤ faults self.new };
}

/// Writes all of the bytes. At `Failed` the sink took a front of them that is not the whole.
pub fn write_all<S: Sink>(sink: &mut S, bytes: &[u8]) -> Result<(), Failed>
    ensures ok { OnOk result (S.written sink.new ≡ grown (S.written sink.old) bytes.now) }

    ensures failed { OnErr result (HasRisen (S.faults sink.old) (S.faults sink.new)) }
    ensures part { OnErr result (GrowsByPart (S.written sink.old) bytes.now (S.written sink.new)) }

    ensures count { S.faults sink.old ≤ S.faults sink.new }
{
    let mut done = 0;
    while done < bytes.len() {
        done += sink.write(&bytes[done..])?;
    }
    Ok(())
}
