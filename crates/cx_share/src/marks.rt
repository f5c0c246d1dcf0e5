//! Sets of a component's cells: a bit for each cell, by its number. A number that names no cell is in no set.

ghost use Rattle.std.specs.Prelude.{◌≡◌, ◌<◌, ◌≤◌, ◌+◌, ◌/◌, ◌^◌, ℕ, ◌||◌, ◌&&◌, false, IsTrue, IfOk, get_or, length, replicate};
ghost use Rattle.std.specs.Int.Bits.{bit_and, bit_or};
ghost use Rattle.cx_share.specs.Bits.{bit_in};
ghost use Rattle.cx_meaning.specs.Control.{targets_cell};
ghost use Rattle.cx_meaning.specs.Instances.{just};
ghost use Rattle.cx_share.specs.Marks.{Adds};

use cx_meaning::PortRef;
use cx_text::Memory;
use std::alloc::Global;
use std::marker::Model;

/// A set of some of so many cells. Contracts see a mark for each cell.
#[derive(Drop)]
pub(crate) struct Marks {
    count: usize,
    /// The bits of 64 cells each, the first the lowest.
    words: Vec<u64>,
}

impl Model for Marks {
    ghost use Rattle.std.specs.Prelude.{◌≡◌, ◌+◌, ◌/◌, Bool, List, length};
    ghost use Rattle.cx_share.specs.Bits.{marks_of};

    ghost Value = { List Bool };

    ghost view = { λ m. marks_of m.count m.words.items };

    ghost invariant = { λ m. length m.words.items ≡ m.count / 64 + 1 };
}

impl Marks {
    /// None of so many cells.
    pub fn new(alloc: Global, count: usize) -> Result<Marks, Memory>
        ensures value { IfOk result (λ marks. marks ≡ replicate count false) }
    {
        let words = vec![in alloc; 0u64; count / 64 + 1]?;
        Ok(Marks { count, words })
    }

    /// The same set again.
    pub fn copied(&self) -> Result<Marks, Memory>
        ensures value { IfOk result (λ marks. marks ≡ self.now) }
    {
        let words = self.words.clone()?;
        Ok(Marks {
            count: self.count,
            words,
        })
    }

    /// Adds a cell.
    pub fn put(&mut self, cell: usize)
        ensures value { Adds self.old self.new (just cell) }
    {
        if cell < self.count {
            put_bit(&mut self.words, cell);
        }
    }

    /// Whether a cell is in the set.
    pub fn has(&self, cell: usize) -> bool
        ensures value { result ≡ get_or self.now cell false }
    {
        if cell >= self.count {
            return false;
        }
        (self.words[cell / 64] >> (cell % 64)) & 1 == 1
    }

    /// Whether the set has none of the 64 cells whose numbers, divided by 64, give this number.
    pub fn is_bare(&self, word: usize) -> bool
        ensures value { IsTrue result → (c : ℕ) → c / 64 ≡ word → get_or self.now c false ≡ false }
    {
        match self.words.get(word) {
            None => true,
            Some(bits) => *bits == 0,
        }
    }

    /// How many words of 64 cells there are.
    pub fn word_count(&self) -> usize
        ensures value { result ≡ length self.now / 64 + 1 }
        ensures within { result ≤ 2 ^ 58 }
    {
        self.count / 64 + 1
    }

    /// Adds the cells of another set of as many cells.
    pub fn join(&mut self, other: &Marks)
        requires count { length other.now ≡ length self.old }
        ensures value { Adds self.old self.new (λ c. get_or other.now c false) }
    {
        join_words(&mut self.words, other.words.as_slice());
    }

    /// Leaves the cells that another set of as many has too.
    pub fn keep(&mut self, other: &Marks)
        requires count { length other.now ≡ length self.old }
        ensures count { length self.new ≡ length self.old }
        ensures value { (c : ℕ) → get_or self.new c false ≡ (get_or self.old c false && get_or other.now c false) }
    {
        keep_words(&mut self.words, other.words.as_slice());
    }
}

/// Sets a bit of words.
fn put_bit(words: &mut Vec<u64>, bit: usize)
    requires within { bit / 64 < length words.old.items }
    ensures count { length words.new.items ≡ length words.old.items }
    ensures value { (c : ℕ) → bit_in words.new.items c ≡ (bit_in words.old.items c || just bit c) }
{
    words[bit / 64] |= 1 << (bit % 64);
}

/// Adds the bits of as many other words.
fn join_words(words: &mut Vec<u64>, others: &[u64])
    requires count { length others.now ≡ length words.old.items }
    ensures count { length words.new.items ≡ length words.old.items }
    ensures value { (k : ℕ) → get_or words.new.items k 0 ≡ bit_or (get_or words.old.items k 0) (get_or others.now k 0) }
{
    for (number, other) in others.iter().enumerate() {
        words[number] |= *other;
    }
}

/// Leaves the bits that as many other words have too.
fn keep_words(words: &mut Vec<u64>, others: &[u64])
    requires count { length others.now ≡ length words.old.items }
    ensures count { length words.new.items ≡ length words.old.items }
    ensures value { (k : ℕ) →
        get_or words.new.items k 0 ≡ bit_and (get_or words.old.items k 0) (get_or others.now k 0) }
{
    for (number, other) in others.iter().enumerate() {
        words[number] &= *other;
    }
}

/// Adds the cell of a port, where it is one of a cell.
#[tactic(auto, using(crate::proofs::MarkLemmas::adds_none))]
pub(crate) fn add_port(marks: &mut Marks, port: PortRef)
    ensures value { Adds marks.old marks.new (targets_cell port) }
{
    match port {
        PortRef::Cell(cell, _) => marks.put(cell as usize),
        PortRef::Input(_) | PortRef::Output(_) | PortRef::Done(_) | PortRef::Literal(_, _) => {}
    }
}
