//! The stores of an edge: all are looked at before any word changes.

ghost use Rattle.std.specs.Prelude.{◌≡◌, ℕ, ◌<◌, length, map, slice_get, Some};
ghost use Rattle.cx_vnets.specs.Arrays.{IsEven, array_width};
ghost use Rattle.cx_vnets.specs.Stores.{StoreFits, StoresFit, WritesFit, plain_words, write_of, written, write_word, after_writes};
ghost use Rattle.cx_vnets.specs.Readers.{IsListed};
ghost use Rattle.cx_vnets.specs.Stale.{Tells};
ghost use Rattle.cx_vnets.specs.Written.{ReadsNoWritten};
ghost use Rattle.cx_graphs.specs.Graphs.{edges_of};
ghost use Rattle.cx_vnets.specs.declared.stores.Write.{Write};

use crate::arrays::Words;
use crate::codes::{Code, NetPosition};
use crate::stale::{mark_all, mark_row};
use crate::values::settled;
use cx_bits::Bits;

/// A word of an array takes the value of a code where the guard is not 0.
#[derive(Clone, Copy, Debug, PartialEq, Eq)]
pub struct Store {
    pub array: u32,
    pub guard: u32,
    pub index: u32,
    pub value: u32,
    pub place: NetPosition,
}

/// The word that a store writes.
#[derive(Clone, Copy, Debug, PartialEq, Eq)]
pub struct Write {
    pub index: u128,
    pub value: Bits,
}

/// What a store writes; None where its guard is 0.
fn write_by(codes: &[Code], store: Store, values: &[Bits], arrays: &[Words]) -> Option<Write>
    requires even { IsEven arrays.now }
    requires fits { StoreFits codes.now values.now arrays.now store }
    ensures { result ≡ write_of codes.now values.now arrays.now store }
{
    let guard = settled(values, arrays, store.place, &codes[store.guard as usize]);
    if guard.value() == 0 {
        return None;
    }
    let index = settled(values, arrays, store.place, &codes[store.index as usize]);
    let value = settled(values, arrays, store.place, &codes[store.value as usize]);
    Some(Write {
        index: index.value(),
        value,
    })
}

/// What all stores write, by the values and the words before the edge.
pub fn look_at_stores(
    codes: &[Code],
    stores: &[Store],
    values: &[Bits],
    arrays: &[Words],
    writes: &mut [Option<Write>],
)
    requires even { IsEven arrays.now }
    requires fits { StoresFit codes.now values.now arrays.now stores.now }
    requires long { length writes.old ≡ length stores.now }
    ensures value { writes.new ≡ map (write_of codes.now values.now arrays.now) stores.now }
    ensures fits { WritesFit arrays.now stores.now writes.new }
{
    for (number, store) in stores.iter().enumerate() {
        writes[number] = write_by(codes, *store, values, arrays);
    }
}

/// Writes a word; nothing where the array has no such word.
fn put(array: &mut Words, write: Write)
    ensures { plain_words array.new ≡ written (plain_words array.old) write }
{
    if write.index < array.words.len() as u128 {
        array.words[write.index as usize] = write.value;
    }
}

/// Changes the word that a store writes.
fn apply(store: Store, write: Option<Write>, arrays: &mut [Words])
    requires even { IsEven arrays.old }
    requires fits { (w : Write) → write ≡ Some w → array_width arrays.old store.array ≡ Some w.value.width }
    ensures value { map plain_words arrays.new ≡ write_word store.array write (map plain_words arrays.old) }
    ensures even { IsEven arrays.new }
    ensures widths { (a : ℕ) → array_width arrays.new a ≡ array_width arrays.old a }
{
    if let Some(write) = write {
        put(&mut arrays[store.array as usize], write);
    }
}

/// Changes the words that stores write.
pub fn store_words(stores: &[Store], writes: &[Option<Write>], arrays: &mut [Words])
    requires long { length writes.now ≡ length stores.now }
    requires even { IsEven arrays.old }
    requires fits { WritesFit arrays.old stores.now writes.now }
    ensures value { map plain_words arrays.new ≡ after_writes stores.now writes.now (map plain_words arrays.old) }
    ensures even { IsEven arrays.new }
    ensures widths { (a : ℕ) → array_width arrays.new a ≡ array_width arrays.old a }
{
    for (number, store) in stores.iter().enumerate() {
        apply(*store, writes[number], arrays);
    }
}

/// Marks all nets that read an array into which a store writes.
pub(crate) fn mark_written(
    stores: &[Store],
    writes: &[Option<Write>],
    of_arrays: &[Vec<u32>],
    ranks: &[u32],
    stale: &mut [u8],
)
    requires long { length writes.now ≡ length stores.now }
    ensures { Tells ranks.now stale.old stale.new
        (ReadsNoWritten (edges_of of_arrays.now) stores.now writes.now (length stores.now)) }
{
    for (number, store) in stores.iter().enumerate() {
        mark_store(of_arrays, *store, writes[number], ranks, stale);
    }
}

/// Marks the nets that read the array of a store that writes.
fn mark_store(
    of_arrays: &[Vec<u32>],
    store: Store,
    write: Option<Write>,
    ranks: &[u32],
    stale: &mut [u8],
)
    ensures { Tells ranks.now stale.old stale.new
        (λ f. (w : Write) → write ≡ Some w → IsListed (edges_of of_arrays.now) f store.array → ⊥) }
{
    if write.is_some() {
        mark_readers(of_arrays, store.array as usize, ranks, stale);
    }
}

/// Marks the nets that read an array.
fn mark_readers(of_arrays: &[Vec<u32>], array: usize, ranks: &[u32], stale: &mut [u8])
    ensures { Tells ranks.now stale.old stale.new (λ f. IsListed (edges_of of_arrays.now) f array → ⊥) }
{
    match of_arrays.get(array) {
        Some(row) => mark_row(ranks, 0, stale, row),
        None => mark_all(stale),
    }
}
