//! Pairs of cells in a table: with each cell the set of those that stand with it. They are added set by set.

ghost use Rattle.std.specs.Prelude.{◌≡◌, ◌+◌, ◌*◌, ◌<◌, ◌^◌, ◌&&◌, false, OnOk, IfOk, get_or, length, replicate};
ghost use Rattle.cx_meaning.specs.Instances.{just};
ghost use Rattle.cx_share.specs.Tables.{AreWide, IsTable, Joins, between, in_order, marked_pairs};

use crate::marks::Marks;
use cx_text::Memory;
use std::alloc::Global;

/// No pairs of so many cells.
pub(crate) fn no_pairs(alloc: Global, count: usize) -> Result<Vec<Marks>, Memory>
    ensures value { IfOk result (λ table. table.items ≡ replicate count (replicate count false)) }
{
    let mut table = Vec::with_capacity(alloc, count)?;
    for _row in 0..count {
        table.push(Marks::new(alloc, count)?)?;
    }
    Ok(table)
}

/// Adds each cell of one set with each of another.
pub(crate) fn add_pairs(table: &mut Vec<Marks>, ones: &Marks, others: &Marks)
    requires table { IsTable (length others.now) table.old.items }
    requires ones { length ones.now ≡ length others.now }
    ensures value { Joins table.old.items table.new.items (marked_pairs ones.now others.now) }
{
    for word in 0..ones.word_count() {
        if ones.is_bare(word) {
            continue;
        }
        add_word(table, ones, others, word);
    }
}

/// Adds those of 64 cells of one set with each of another.
fn add_word(table: &mut Vec<Marks>, ones: &Marks, others: &Marks, word: usize)
    requires table { IsTable (length others.now) table.old.items }
    requires ones { length ones.now ≡ length others.now }
    requires word { word < 2 ^ 58 }
    ensures value { Joins table.old.items table.new.items
        (between (word * 64) (word * 64 + 64) (marked_pairs ones.now others.now)) }
{
    for bit in 0..64 {
        add_row(table, ones, others, word * 64 + bit);
    }
}

/// Adds a cell, where one set has it, with each of another.
fn add_row(table: &mut Vec<Marks>, ones: &Marks, others: &Marks, one: usize)
    requires table { IsTable (length others.now) table.old.items }
    requires ones { length ones.now ≡ length others.now }
    ensures value { Joins table.old.items table.new.items (λ x y. just one x && marked_pairs ones.now others.now x y) }
{
    if ones.has(one) {
        table[one].join(others);
    }
}

/// Adds each cell of one of several sets with each of a later one.
pub(crate) fn add_later(
    alloc: Global,
    table: &mut Vec<Marks>,
    sets: &[Marks],
    count: usize,
) -> Result<(), Memory>
    requires table { IsTable count table.old.items }
    requires sets { AreWide count sets.now }
    ensures value { OnOk result (Joins table.old.items table.new.items (in_order sets.now)) }
{
    let mut later = Marks::new(alloc, count)?;
    let mut left = sets.len();
    while left > 0 {
        left -= 1;
        add_pairs(table, &sets[left], &later);
        later.join(&sets[left]);
    }
    Ok(())
}

/// Adds each cell of one of several sets with each of an earlier one.
pub(crate) fn add_earlier(
    alloc: Global,
    table: &mut Vec<Marks>,
    sets: &[Marks],
    count: usize,
) -> Result<(), Memory>
    requires table { IsTable count table.old.items }
    requires sets { AreWide count sets.now }
    ensures value { OnOk result (Joins table.old.items table.new.items (λ x y. in_order sets.now y x)) }
{
    let mut earlier = Marks::new(alloc, count)?;
    for set in sets {
        add_pairs(table, set, &earlier);
        earlier.join(set);
    }
    Ok(())
}
