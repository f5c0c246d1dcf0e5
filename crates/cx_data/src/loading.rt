//! The words that a data file gives the external memories.

ghost use Rattle.std.specs.Prelude.{◌≡◌, ◌≢◌, map, All, None, Some, Ok, Err, IfOk, IfErr, option_map};
ghost use Rattle.serde_json.specs.View.{view, number_view};
ghost use Rattle.cx_text.specs.Loading.{FitsRows, plain_row, plain_rows, plain_memory, plain_loaded};
ghost use Rattle.cx_data.specs.Load.{plain_entry, from_words, from_entry, memory_of, memories_of, top_of, load_of};
ghost use Rattle.cx_data.specs.Numbers.{word_of, words_of};
ghost use Rattle.cx_data.specs.Widths.{HasWordWidth};

use crate::entries::{Entry, entry_of, is_width, member_of};
use crate::faults::DataFault;
use crate::numbers::{numbers_of, word_of};
use cx_text::{Loaded, LoadedMemory, Memory, MemoryRow, Name};
use serde_json::{Number, Value};
use std::alloc::Global;

/// Reads the words of the external memories from a data file, as JSON is read by the crate `serde_json`: of equal keys
/// the last counts, and `5.0` and `-0` are no integers. Further keys and names say nothing. The fault is that of the
/// first memory that has one, in the order of the rows.
pub fn load(alloc: Global, json: &[u8], rows: &[MemoryRow]) -> Result<Loaded, DataFault>
    requires widths { All HasWordWidth (plain_rows rows.now) }
    ensures loaded { IfOk result (λ l. load_of json.now (plain_rows rows.now) ≡ Ok (plain_loaded l)) }
    ensures fits { IfOk result (λ l. FitsRows (plain_rows rows.now) (plain_loaded l)) }

    ensures fault { IfErr result (λ f.
        f ≢ DataFault.Memory → load_of json.now (plain_rows rows.now) ≡ Err f) }
{
    let top = read_top(alloc, json)?;
    let memories = load_memories(alloc, &top, rows)?;
    Ok(Loaded { memories })
}

/// The value of a JSON text whose top is an object.
fn read_top(alloc: Global, json: &[u8]) -> Result<Value, DataFault>
    ensures value { IfOk result (λ v. top_of json.now ≡ Some (view v)) }

    ensures fault { IfErr result (λ f.
        f ≢ DataFault.Memory → (f ≡ DataFault.NotJson) × (top_of json.now ≡ None)) }
{
    match Value::from_slice(alloc, json) {
        Ok(top) => {
            if top.is_object() {
                Ok(top)
            } else {
                Err(DataFault::NotJson)
            }
        }
        Err(e) => {
            if e.is_memory() {
                Err(DataFault::Memory)
            } else {
                Err(DataFault::NotJson)
            }
        }
    }
}

/// The memory of each row.
fn load_memories(
    alloc: Global,
    top: &Value,
    rows: &[MemoryRow],
) -> Result<Vec<LoadedMemory>, DataFault>
    requires widths { All (λ m. HasWordWidth (plain_row m)) rows.now }
    ensures loaded { IfOk result (λ v.
        memories_of (view top.now) (plain_rows rows.now) ≡ Ok (map plain_memory v.items)) }

    ensures fault { IfErr result (λ f.
        f ≢ DataFault.Memory → memories_of (view top.now) (plain_rows rows.now) ≡ Err f) }
{
    let mut memories = Vec::new(alloc);
    for row in rows {
        memories.push(load_memory(alloc, top, row)?)?;
    }
    Ok(memories)
}

/// The memory of a row.
fn load_memory(alloc: Global, top: &Value, row: &MemoryRow) -> Result<LoadedMemory, DataFault>
    requires width { HasWordWidth (plain_row row.now) }
    ensures loaded { IfOk result (λ m.
        memory_of (view top.now) (plain_row row.now) ≡ Ok (plain_memory m)) }

    ensures fault { IfErr result (λ f.
        f ≢ DataFault.Memory → memory_of (view top.now) (plain_row row.now) ≡ Err f) }
{
    let Some(member) = member_of(top, row.name.bytes()) else {
        return Err(DataFault::Missing(copied(alloc, &row.name)?));
    };
    let Some(entry) = entry_of(member) else {
        return Err(DataFault::BadFormat(copied(alloc, &row.name)?));
    };
    load_entry(alloc, entry, row)
}

/// The memory of a row, from what its member says.
fn load_entry(alloc: Global, entry: Entry, row: &MemoryRow) -> Result<LoadedMemory, DataFault>
    requires width { HasWordWidth (plain_row row.now) }
    ensures loaded { IfOk result (λ m. from_entry (plain_row row.now)
        (Some (plain_entry entry.entry.signed (number_view entry.entry.width.now) (view entry.entry.numbers.now)))
        ≡ Ok (plain_memory m)) }

    ensures fault { IfErr result (λ f. f ≢ DataFault.Memory → from_entry (plain_row row.now)
        (Some (plain_entry entry.entry.signed (number_view entry.entry.width.now) (view entry.entry.numbers.now)))
        ≡ Err f) }
{
    if !is_width(entry.width, row.width) {
        return Err(DataFault::WidthDiffers(copied(alloc, &row.name)?));
    }
    let Some(numbers) = numbers_of(alloc, entry.numbers, row.sizes.as_slice())? else {
        return Err(DataFault::BadShape(copied(alloc, &row.name)?));
    };
    load_words(alloc, row, entry.signed, numbers.as_slice())
}

/// The memory of a row, from its numbers.
fn load_words(
    alloc: Global,
    row: &MemoryRow,
    signed: bool,
    numbers: &[Number],
) -> Result<LoadedMemory, DataFault>
    requires width { HasWordWidth (plain_row row.now) }
    ensures loaded { IfOk result (λ m. from_words (plain_row row.now) signed
        (words_of (word_of signed row.now.width) 0 (map number_view numbers.now)) ≡ Ok (plain_memory m)) }

    ensures fault { IfErr result (λ f. f ≢ DataFault.Memory → from_words (plain_row row.now) signed
        (words_of (word_of signed row.now.width) 0 (map number_view numbers.now)) ≡ Err f) }
{
    let mut words = Vec::with_capacity(alloc, numbers.len())?;
    for (index, number) in numbers.iter().enumerate() {
        match word_of(signed, row.width, number) {
            Some(word) => words.push(word)?,
            None => {
                let name = copied(alloc, &row.name)?;
                return Err(DataFault::OutOfRange(name, index as u64));
            }
        }
    }
    let sizes = Vec::from_slice(alloc, row.sizes.as_slice())?;
    let row = MemoryRow {
        name: copied(alloc, &row.name)?,
        width: row.width,
        sizes,
    };
    Ok(LoadedMemory { row, signed, words })
}

/// A copy of a name.
fn copied(alloc: Global, name: &Name) -> Result<Name, Memory>
    ensures value { IfOk result (λ copy. copy ≡ name.now) }
{
    Name::from_bytes(alloc, name.bytes())
}
