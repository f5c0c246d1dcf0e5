//! Names that came before.

ghost use Rattle.std.specs.Prelude.{◌≡◌, ◌∷◌, ◌++◌, [], List, ℕ, map, OnOk};
ghost use Rattle.cx_vtree.specs.Sound as sound;
ghost use Rattle.cx_vscope.specs.Scopes.{HasAll};

use cx_text::{Memory, Name};
use std::alloc::Global;
use std::collections::HashSet;
use std::marker::Model;

/// Names in the order in which they came, found by their bytes.
#[derive(Drop)]
pub struct Names<'a> {
    list: Vec<&'a Name>,
    found: HashSet<&'a Name>,
}

impl<'a> Model for Names<'a> {
    ghost Value = { List (List ℕ) };

    ghost view = { λ s. map (λ n. n.now) s.list.items };

    ghost invariant = { λ s. HasAll s.found (map (λ n. n.now) s.list.items) };
}

impl<'a> Names<'a> {
    /// No names.
    pub fn new(alloc: Global) -> Names<'a>
        ensures { result ≡ [] }
    {
        Names {
            list: Vec::new(alloc),
            found: HashSet::new(alloc),
        }
    }

    /// Whether a name is among them.
    pub fn has(&self, name: &Name) -> bool
        ensures { result ≡ sound.has_name self.now name.now }
    {
        self.found.contains(&name)
    }

    /// Adds a name.
    pub fn push(&mut self, name: &'a Name) -> Result<(), Memory>
        ensures { OnOk result (self.new ≡ self.old ++ name.now ∷ []) }
    {
        self.list.reserve(1)?;
        self.found.insert(name)?;
        self.list.push_reserved(name);
        Ok(())
    }
}
