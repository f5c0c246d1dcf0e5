//! A sink in memory, of which calls by number fail.

ghost use Rattle.std.specs.Prelude.{◌≡◌, ◌≤◌, ◌<◌, [], Some, length, take, IfOk, OnErr, MatchResult};
ghost use Rattle.cx_outside.specs.Counts.{HasRisen};
ghost use Rattle.cx_outside.specs.Writing.{grown};
ghost use Rattle.cx_outside.specs.InMemory.{taken, after_write};

use crate::counts::raise;
use crate::writing::{Failed, Sink};
use std::marker::Model;

/// A sink that keeps what it takes. It tells all.
#[derive(Debug, Drop)]
pub struct MemSink {
    most: usize,
    fails: Vec<u64>,
    room: Vec<u8>,
    used: usize,
    calls: u64,
    faults: u64,
}

impl Model for MemSink {
    ghost use Rattle.std.specs.Prelude.{◌≤◌, ◌<◌, length, take};
    ghost use Rattle.cx_outside.specs.InMemory.{MemorySink};

    ghost Value = { MemorySink };

    ghost view = { λ m. record { most = m.most; fails = m.fails.items; room = length m.room.items; written = take m.used m.room.items; calls = m.calls; faults = m.faults } };

    ghost invariant = { λ m. (0 < m.most) × (m.used ≤ length m.room.items) };
}

impl MemSink {
    /// Takes at most `most` bytes a call and keeps them in `room`, from its front, over what stands there; where every
    /// byte of it is used, a call fails. `fails` lists the numbers of the calls that fail, from 1; the number of a
    /// call stays at 2^64 - 1 once it is reached.
    pub fn new(most: usize, fails: Vec<u64>, room: Vec<u8>) -> MemSink
        requires some { 0 < most }
        ensures value { result ≡ record {
          most = most;
          fails = fails.items;
          room = length room.items;
          written = [];
          calls = 0;
          faults = 0;
        } }
    {
        MemSink {
            most,
            fails,
            room,
            used: 0,
            calls: 0,
            faults: 0,
        }
    }

    /// Lends the bytes taken so far.
    pub fn bytes(&self) -> &[u8]
        ensures value { result.now ≡ self.now.written }
    {
        &self.room[..self.used]
    }
}

impl Sink for MemSink {
    ghost written = { λ m. Some m.written };

    ghost faults = { λ m. m.faults };

    /// Fails where the number of the call is listed or the room is used up, which raises the count.
    fn write(&mut self, piece: &[u8]) -> Result<usize, Failed>
        requires some { 0 < length piece.now }

        ensures exact { MatchResult result
            (λ n. (0 < n) × (n ≡ taken self.old (length piece.now)))
            (λ _. taken self.old (length piece.now) ≡ 0) }
        ensures after { self.new ≡ after_write self.old piece.now }
        ensures count { self.old.faults ≤ self.new.faults }
    {
        self.calls = raise(self.calls);
        let left = self.room.len() - self.used;
        if left == 0 || self.fails.contains(&self.calls) {
            self.faults = raise(self.faults);
            return Err(Failed);
        }
        let count = piece.len().min(self.most).min(left);
        let end = self.used + count;
        self.room[self.used..end].copy_from_slice(&piece[..count]);
        self.used = end;
        Ok(count)
    }
}
