//! Standard output and standard error: the trusted edge of what is written.

ghost use Rattle.std.specs.Prelude.{◌≡◌, ◌≤◌, ◌<◌, None, length, IfOk, is_err, if◌then◌else◌};
ghost use Rattle.cx_outside.specs.Counts.{raised};

use crate::counts::raise;
use crate::writing::{Failed, Sink};
use std::marker::Model;

/// A sink over `rt.stdout()` or `rt.stderr()`. It tells no content; contracts see it as its count of faults.
#[derive(Drop)]
pub struct RealSink<P> {
    device: P,
    faults: u64,
}

impl<P> Model for RealSink<P> {
    ghost use Rattle.std.specs.Prelude.{ℕ};

    ghost Value = { ℕ };

    ghost view = { λ s. s.faults };
}

impl<P: Print> RealSink<P> {
    /// A sink over this device, which may be lent.
    pub fn new(device: P) -> RealSink<P>
        ensures value { result ≡ 0 }
    {
        RealSink { device, faults: 0 }
    }
}

impl<P: Print> Sink for RealSink<P> {
    ghost written = { λ _. None };

    ghost faults = { λ count. count };

    /// Each failure of the device raises the count; so does a device that takes nothing.
    fn write(&mut self, piece: &[u8]) -> Result<usize, Failed>
        requires some { 0 < length piece.now }

        ensures ok { IfOk result (λ n. (0 < n) × (n ≤ length piece.now)) }
        ensures after { self.new ≡ (if is_err result then raised self.old else self.old) }
        ensures count { self.old ≤ self.new }
    {
        match self.device.write_some(piece) {
            Ok(count) if count > 0 => Ok(count),
            _ => {
                self.faults = raise(self.faults);
                Err(Failed)
            }
        }
    }
}
