//! The names of the reads that failed.

ghost use Rattle.std.specs.Prelude.{◌≡◌, ◌⊎◌, []};
ghost use Rattle.cx_outside.specs.Failures.{failed_by};

use crate::reading::FileAnswer;
use crate::words::Word;
use std::alloc::Global;
use std::marker::Model;

/// Names in the order in which they were added, which contracts see as their list.
#[derive(Debug, Drop)]
pub(crate) struct Unread {
    names: Option<Vec<Word>>,
}

impl Model for Unread {
    ghost use Rattle.std.specs.Prelude.{List, ℕ};
    ghost use Rattle.cx_outside.specs.Failures.{names_of};

    ghost Value = { List (List ℕ) };

    ghost view = { λ u. names_of u.names };
}

impl Unread {
    /// No name.
    pub(crate) fn none() -> Unread
        ensures value { result ≡ [] }
    {
        Unread { names: None }
    }

    /// Adds a name behind the others, and answers that its read failed; without memory for it the answer is `Memory`.
    pub(crate) fn add(&mut self, alloc: Global, name: &[u8]) -> FileAnswer
        ensures answer { (result ≡ FileAnswer.Failed) ⊎ (result ≡ FileAnswer.Memory) }
        ensures names { self.new ≡ failed_by result name.now self.old }
    {
        let Ok(word) = Word::from_bytes(alloc, name) else {
            return FileAnswer::Memory;
        };
        let mut names = match self.names.take() {
            Some(names) => names,
            None => Vec::new(alloc),
        };
        let pushed = names.push(word);
        self.names = Some(names);
        match pushed {
            Ok(()) => FileAnswer::Failed,
            Err(_) => FileAnswer::Memory,
        }
    }
}
