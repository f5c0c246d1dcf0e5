//! Files in memory, of which calls by number fail.

ghost use Rattle.std.specs.Prelude.{◌≡◌, ◌⊎◌, ◌≤◌, ◌<◌, ℕ, List, [], Some, length, IfOk, IsErrOf, MatchResult};
ghost use Rattle.std.specs.Option.{option_copied};
ghost use Rattle.cx_outside.specs.Counts.{HasRisen};
ghost use Rattle.cx_outside.specs.Reading.{Holds, IsAbsent, IsHeld, HasLength};
ghost use Rattle.cx_outside.specs.InMemory.{held_in};
ghost use Rattle.cx_outside.specs.MemoryReads.{read_answer, after_answer, after_read};

use crate::counts::raise;
use crate::reading::{FileAnswer, Files};
use crate::unread::Unread;
use crate::words::Word;
use std::alloc::Global;
use std::marker::Model;

/// Files in memory. They tell all; of two entries with one name the first holds.
#[derive(Debug, Drop)]
pub struct MemFiles {
    entries: Vec<(Word, Word)>,
    fails: Vec<u64>,
    calls: u64,
    faults: u64,
    failures: Unread,
}

impl Model for MemFiles {
    ghost use Rattle.cx_outside.specs.InMemory.{MemoryFiles};

    ghost Value = { MemoryFiles };

    ghost view = { λ m. record { entries = m.entries.items; fails = m.fails.items; calls = m.calls; faults = m.faults; failures = m.failures } };
}

impl MemFiles {
    /// Each entry is a name and the bytes that it holds. `fails` lists the numbers of the calls that fail, from 1;
    /// the number of a call stays at 2^64 - 1 once it is reached.
    pub fn new(entries: Vec<(Word, Word)>, fails: Vec<u64>) -> MemFiles
        ensures value { result ≡
            record { entries = entries.items; fails = fails.items; calls = 0; faults = 0; failures = [] } }
    {
        MemFiles {
            entries,
            fails,
            calls: 0,
            faults: 0,
            failures: Unread::none(),
        }
    }
}

impl Files for MemFiles {
    ghost held = { λ m. Some (held_in m.entries) };

    ghost faults = { λ m. m.faults };

    ghost failures = { λ m. m.failures };

    /// Fails where the number of the call is listed, which raises the count, or where no entry has the name.
    fn read_file(&mut self, alloc: Global, name: &[u8], limit: usize) -> Result<Vec<u8>, FileAnswer>
        ensures exact { MatchResult (read_answer self.old name.now limit)
            (λ bytes. MatchResult result (λ read. read.items ≡ bytes) (λ e. e ≡ FileAnswer.Memory))
            (λ e. IsErrOf result e ⊎ ((e ≡ FileAnswer.Failed) × IsErrOf result FileAnswer.Memory)) }
        ensures after { MatchResult result (λ _. self.new ≡ after_read self.old)
            (λ e. self.new ≡ after_answer e name.now self.old) }
        ensures count { self.old.faults ≤ self.new.faults }
    {
        self.calls = raise(self.calls);
        if self.fails.contains(&self.calls) {
            self.faults = raise(self.faults);
            return Err(self.failures.add(alloc, name));
        }
        let Some(bytes) = find(&self.entries, name) else {
            return Err(self.failures.add(alloc, name));
        };
        if bytes.len() > limit {
            return Err(FileAnswer::TooLong(bytes.len() as u64));
        }
        match Vec::from_slice(alloc, bytes) {
            Ok(read) => Ok(read),
            Err(_) => Err(FileAnswer::Memory),
        }
    }
}

/// The bytes of the first entry with this name.
fn find<'a>(entries: &'a [(Word, Word)], name: &[u8]) -> Option<&'a [u8]>
    ensures value { option_copied result ≡ held_in entries.now name.now }
{
    entries
        .iter()
        .find(|entry| entry.0.bytes() == name)
        .map(|entry| entry.1.bytes())
}
