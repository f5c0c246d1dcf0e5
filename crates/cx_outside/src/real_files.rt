//! The files of the system: the trusted edge of what is read.

ghost use Rattle.std.specs.Prelude.{◌≡◌, ◌≤◌, ◌<◌, [], ℕ, None, length, IfOk, IfSome, IsErrOf, MatchResult};
ghost use Rattle.cx_outside.specs.Edge.{reads_after};

use crate::counts::raise;
use crate::reading::{FileAnswer, Files};
use crate::unread::Unread;
use std::alloc::Global;
use std::fs;
use std::io::Read;
use std::marker::Model;
use std::rt::Files as System;

/// Bytes of one read.
const CHUNK: usize = 32_768;

/// Files of the system. They tell no content; contracts see them as their count of faults and the names of the
/// reads that failed.
#[derive(Drop)]
pub struct RealFiles<R> {
    system: R,
    faults: u64,
    failures: Unread,
}

impl<R> Model for RealFiles<R> {
    ghost use Rattle.cx_outside.specs.Edge.{Reads};

    ghost Value = { Reads };

    ghost view = { λ f. record { faults = f.faults; failures = f.failures } };
}

impl<R: System> RealFiles<R> {
    /// Files of this runtime, which may be lent.
    pub fn new(system: R) -> RealFiles<R>
        ensures value { result ≡ record { faults = 0; failures = [] } }
    {
        RealFiles {
            system,
            faults: 0,
            failures: Unread::none(),
        }
    }
}

impl<R: System> Files for RealFiles<R> {
    ghost held = { λ _. None };

    ghost faults = { λ r. r.faults };

    ghost failures = { λ r. r.failures };

    /// Each failure of the system, a name that no file has and one that is no UTF-8 among them, raises the count, unless there is no memory
    /// for its name.
    fn read_file(&mut self, alloc: Global, name: &[u8], limit: usize) -> Result<Vec<u8>, FileAnswer>
        ensures within { IfOk result (λ bytes. length bytes.items ≤ limit) }
        ensures too_long { (seen : ℕ) → IsErrOf result (FileAnswer.TooLong seen) → limit < seen }
        ensures after { MatchResult result (λ _. self.new ≡ self.old)
            (λ e. self.new ≡ reads_after e name.now self.old) }
        ensures count { self.old.faults ≤ self.new.faults }
    {
        let answer = read_named(&self.system, alloc, name, limit);
        if let Err(FileAnswer::Failed) = &answer {
            let told = self.failures.add(alloc, name);
            if let FileAnswer::Failed = told {
                self.faults = raise(self.faults);
            }
            return Err(told);
        }
        answer
    }
}

/// Opens the file and reads it, up to the first byte over the limit.
fn read_named<R: System>(
    system: &R,
    alloc: Global,
    name: &[u8],
    limit: usize,
) -> Result<Vec<u8>, FileAnswer>
    ensures within { IfOk result (λ bytes. length bytes.items ≤ limit) }
    ensures too_long { (seen : ℕ) → IsErrOf result (FileAnswer.TooLong seen) → limit < seen }
{
    let Ok(path) = str::from_utf8(name) else {
        return Err(FileAnswer::Failed);
    };
    match fs::open(system, path) {
        Ok(mut file) => read_up_to(&mut file, alloc, limit),
        Err(_) => Err(FileAnswer::Failed),
    }
}

/// Reads to the end, or up to the first byte over the limit.
fn read_up_to<F: Read>(file: &mut F, alloc: Global, limit: usize) -> Result<Vec<u8>, FileAnswer>
    ensures within { IfOk result (λ bytes. length bytes.items ≤ limit) }
    ensures whole { IfOk result (λ bytes. IfSome (F.remaining file.old) (λ held. bytes.items ≡ held)) }

    ensures too_long { (seen : ℕ) → IsErrOf result (FileAnswer.TooLong seen) → limit < seen }
    ensures over { (seen : ℕ) → IsErrOf result (FileAnswer.TooLong seen) →
        IfSome (F.remaining file.old) (λ held. seen ≤ length held) }
{
    let mut bytes = Vec::new(alloc);
    let mut chunk = [0u8; CHUNK];
    while bytes.len() <= limit {
        let want = (limit - bytes.len()).saturating_add(1).min(CHUNK);
        let Ok(count) = file.read(&mut chunk[..want]) else {
            return Err(FileAnswer::Failed);
        };
        if count == 0 {
            return Ok(bytes);
        }
        bytes.extend_from_slice(&chunk[..count])?;
    }
    Err(FileAnswer::TooLong(bytes.len() as u64))
}
