//! The numbers of names.

ghost use Rattle.std.specs.Prelude.{◌≡◌, [], None, OnOk, is_some};
ghost use Rattle.cx_names_scopes.specs.Numbered.{number_in, IsAddedTo, AreNumbersOf};

use cx_text::{Memory, Name};
use indexmap::IndexMap;
use std::alloc::Global;

/// The numbers of names: each name has the number of the first part that was added with it.
#[derive(Drop)]
pub struct Numbers {
    first: IndexMap<Name, usize>,
}

impl Numbers {
    /// No names.
    pub fn new(alloc: Global) -> Numbers
        ensures { AreNumbersOf [] result }
    {
        Numbers {
            first: IndexMap::new(alloc),
        }
    }

    /// Adds a part. A name that is there keeps its number.
    pub fn add(&mut self, alloc: Global, name: &Name, number: usize) -> Result<(), Memory>
        ensures { OnOk result (IsAddedTo self.old name.now number self.new) }
    {
        if self.first.contains_key(name) {
            return Ok(());
        }
        let name = Name::from_bytes(alloc, name.bytes())?;
        self.first.insert(name, number)?;
        Ok(())
    }

    /// The number of a name. None where no part has it.
    pub fn find(&self, name: &Name) -> Option<usize>
        ensures value { result ≡ number_in self.now name.now }
    {
        self.first.get(name).copied()
    }

    /// Whether a part has the name.
    pub fn has(&self, name: &Name) -> bool
        ensures { result ≡ is_some (number_in self.now name.now) }
    {
        self.find(name).is_some()
    }
}
