//! The edges of a run.

ghost use Rattle.std.specs.Prelude.{◌≡◌, ℕ, [], length, map, slice_get};
ghost use Rattle.cx_vnets.specs.Arrays.{IsEven, array_width};
ghost use Rattle.cx_vnets.specs.Edges.{SetsFit, after_sets};
ghost use Rattle.cx_vnets.specs.Readers.{Stays};
ghost use Rattle.cx_vnets.specs.Search.{SameWidths};
ghost use Rattle.cx_vnets.specs.Stale.{Tells};
ghost use Rattle.cx_vnets.specs.Written.{ReadsNoWritten};
ghost use Rattle.cx_graphs.specs.Graphs.{edges_of};
ghost use Rattle.cx_vnets.specs.Stores.{StoresFit, plain_words, write_of, after_writes};
ghost use Rattle.cx_vnets.specs.Machines.{IsAfter, KeepsWidths};

use crate::machines::{Bench, Machine};
use crate::stores::mark_written;
use crate::{Code, Store, Stored, Words, Write, look_at_stores, set_registers, store_words};
use cx_bits::Bits;

/// The edge with reset.
pub fn reset_edge(machine: &Machine, bench: &mut Bench, stored: &mut Stored)
    requires widths { SameWidths stored.old.nets.items bench.old.values.items }
    requires even { IsEven stored.old.arrays.items }
    requires sets { SetsFit machine.now.nets.codes.items bench.old.values.items stored.old.arrays.items
        machine.now.resets.items }
    ensures after { IsAfter machine.now.nets.codes.items machine.now.resets.items []
        bench.old.values.items stored.old stored.new }
    ensures widths { KeepsWidths stored.old stored.new }
    ensures tells { Tells machine.now.readers.ranks.items bench.old.stale.items bench.new.stale.items
        (Stays stored.old stored.new (edges_of machine.now.readers.of_arrays.items)) }
    ensures writes { bench.new.writes.items ≡ bench.old.writes.items }
    ensures marks { bench.new.marks.items ≡ bench.old.marks.items }
    ensures values { bench.new.values.items ≡ bench.old.values.items }
    ensures nonzero { bench.new.nonzero.items ≡ bench.old.nonzero.items }
    ensures stack { bench.new.stack.items ≡ bench.old.stack.items }
{
    set_registers(
        &machine.nets.codes,
        &machine.resets,
        &bench.values,
        &stored.arrays,
        &mut stored.nets,
        &machine.readers.ranks,
        &mut bench.stale,
    );
}

/// What all stores write is found before any word changes.
fn store_all(
    codes: &[Code],
    stores: &[Store],
    values: &[Bits],
    writes: &mut [Option<Write>],
    arrays: &mut [Words],
)
    requires even { IsEven arrays.old }
    requires fits { StoresFit codes.now values.now arrays.old stores.now }
    requires long { length writes.old ≡ length stores.now }
    ensures value { map plain_words arrays.new ≡
        after_writes stores.now (map (write_of codes.now values.now arrays.old) stores.now)
        (map plain_words arrays.old) }
    ensures even { IsEven arrays.new }
    ensures widths { (a : ℕ) → array_width arrays.new a ≡ array_width arrays.old a }
    ensures writes { writes.new ≡ map (write_of codes.now values.now arrays.old) stores.now }
{
    look_at_stores(codes, stores, values, arrays, writes);
    store_words(stores, writes, arrays);
}

/// Registers take what the sets of an edge without reset give them.
fn set_all(machine: &Machine, bench: &mut Bench, stored: &mut Stored)
    requires widths { SameWidths stored.old.nets.items bench.old.values.items }
    requires even { IsEven stored.old.arrays.items }
    requires sets { SetsFit machine.now.nets.codes.items bench.old.values.items stored.old.arrays.items
        machine.now.sets.items }
    ensures registers { stored.new.nets.items ≡
        after_sets machine.now.nets.codes.items bench.old.values.items stored.old.arrays.items
        machine.now.sets.items stored.old.nets.items }
    ensures widths { SameWidths stored.new.nets.items stored.old.nets.items }
    ensures arrays { stored.new.arrays.items ≡ stored.old.arrays.items }
    ensures tells { Tells machine.now.readers.ranks.items bench.old.stale.items bench.new.stale.items
        (λ f. slice_get stored.new.nets.items f ≡ slice_get stored.old.nets.items f) }
    ensures writes { bench.new.writes.items ≡ bench.old.writes.items }
    ensures marks { bench.new.marks.items ≡ bench.old.marks.items }
    ensures values { bench.new.values.items ≡ bench.old.values.items }
    ensures nonzero { bench.new.nonzero.items ≡ bench.old.nonzero.items }
    ensures stack { bench.new.stack.items ≡ bench.old.stack.items }
{
    set_registers(
        &machine.nets.codes,
        &machine.sets,
        &bench.values,
        &stored.arrays,
        &mut stored.nets,
        &machine.readers.ranks,
        &mut bench.stale,
    );
}

/// Stores change the words of arrays.
fn store_words_of(machine: &Machine, bench: &mut Bench, stored: &mut Stored)
    requires even { IsEven stored.old.arrays.items }
    requires stores { StoresFit machine.now.nets.codes.items bench.old.values.items
        stored.old.arrays.items machine.now.stores.items }
    requires writes { length bench.old.writes.items ≡ length machine.now.stores.items }
    ensures words { map plain_words stored.new.arrays.items ≡
        after_writes machine.now.stores.items (map
        (write_of machine.now.nets.codes.items bench.old.values.items stored.old.arrays.items)
        machine.now.stores.items) (map plain_words stored.old.arrays.items) }
    ensures even { IsEven stored.new.arrays.items }
    ensures widths { (a : ℕ) → array_width stored.new.arrays.items a ≡ array_width stored.old.arrays.items a }
    ensures nets { stored.new.nets.items ≡ stored.old.nets.items }
    ensures writes { bench.new.writes.items ≡
        map (write_of machine.now.nets.codes.items bench.old.values.items stored.old.arrays.items)
        machine.now.stores.items }
    ensures stale { bench.new.stale.items ≡ bench.old.stale.items }
    ensures marks { bench.new.marks.items ≡ bench.old.marks.items }
    ensures values { bench.new.values.items ≡ bench.old.values.items }
    ensures nonzero { bench.new.nonzero.items ≡ bench.old.nonzero.items }
    ensures stack { bench.new.stack.items ≡ bench.old.stack.items }
{
    store_all(
        &machine.nets.codes,
        &machine.stores,
        &bench.values,
        &mut bench.writes,
        &mut stored.arrays,
    );
}

/// Marks the nets that read what was written.
fn mark_stores(machine: &Machine, bench: &mut Bench)
    requires writes { length bench.old.writes.items ≡ length machine.now.stores.items }
    ensures tells { Tells machine.now.readers.ranks.items bench.old.stale.items bench.new.stale.items
        (ReadsNoWritten
        (edges_of machine.now.readers.of_arrays.items) machine.now.stores.items bench.old.writes.items
        (length machine.now.stores.items)) }
    ensures writes { bench.new.writes.items ≡ bench.old.writes.items }
    ensures marks { bench.new.marks.items ≡ bench.old.marks.items }
    ensures values { bench.new.values.items ≡ bench.old.values.items }
    ensures nonzero { bench.new.nonzero.items ≡ bench.old.nonzero.items }
    ensures stack { bench.new.stack.items ≡ bench.old.stack.items }
{
    mark_written(
        &machine.stores,
        &bench.writes,
        &machine.readers.of_arrays,
        &machine.readers.ranks,
        &mut bench.stale,
    );
}

/// An edge without reset.
pub fn edge(machine: &Machine, bench: &mut Bench, stored: &mut Stored)
    requires widths { SameWidths stored.old.nets.items bench.old.values.items }
    requires even { IsEven stored.old.arrays.items }
    requires sets { SetsFit machine.now.nets.codes.items bench.old.values.items stored.old.arrays.items
        machine.now.sets.items }
    requires stores { StoresFit machine.now.nets.codes.items bench.old.values.items
        stored.old.arrays.items machine.now.stores.items }
    requires writes { length bench.old.writes.items ≡ length machine.now.stores.items }
    ensures after { IsAfter machine.now.nets.codes.items machine.now.sets.items machine.now.stores.items
        bench.old.values.items stored.old stored.new }
    ensures widths { KeepsWidths stored.old stored.new }
    ensures tells { Tells machine.now.readers.ranks.items bench.old.stale.items bench.new.stale.items
        (Stays stored.old stored.new (edges_of machine.now.readers.of_arrays.items)) }
    ensures writes { length bench.new.writes.items ≡ length machine.now.stores.items }
    ensures marks { bench.new.marks.items ≡ bench.old.marks.items }
    ensures values { bench.new.values.items ≡ bench.old.values.items }
    ensures nonzero { bench.new.nonzero.items ≡ bench.old.nonzero.items }
    ensures stack { bench.new.stack.items ≡ bench.old.stack.items }
{
    set_all(machine, bench, stored);
    store_words_of(machine, bench, stored);
    mark_stores(machine, bench);
}
