//! The dump: the words of the external memories as one line of JSON.

ghost use Rattle.std.specs.Prelude.{◌≡◌, ◌++◌, ◌≤◌, length, map, All, IfOk, OnOk, OnErr};
ghost use Rattle.std.specs.Cmp.Lexicographic.{slice_cmp};
ghost use Rattle.std.specs.List.{position_or_len};
ghost use Rattle.std.specs.Ordering.{nat_cmp, is_lt};
ghost use Rattle.cx_text.specs.Loading.{FitsShape, plain_memory, plain_loaded};
ghost use Rattle.cx_data.specs.Dump.{joined, memory_text, by_name, dump_text};
ghost use Rattle.cx_data.specs.Orders.{AreByName};
ghost use Rattle.cx_data.specs.Widths.{HasWordWidth};

use crate::lists::{Format, push_comma, push_nested};
use cx_text::{Loaded, LoadedMemory, Memory, Name};
use itoa::Buffer;
use std::alloc::Global;

/// Appends the dump: `{"cycles":T,"memories":{"a":[..],"b":[[..],[..]]}}` and one line feed, without spaces. The
/// memories are in the order of the bytes of their names, each as lists by its sizes, and its words are signed where
/// the data file said so. The names are written as they are.
pub fn dump(alloc: Global, cycles: u64, loaded: &Loaded, out: &mut Vec<u8>) -> Result<(), Memory>
    requires fits { All FitsShape (plain_loaded loaded.now) }
    requires widths { All HasWordWidth (map (λ m. m.shape) (plain_loaded loaded.now)) }
    ensures ok { OnOk result (out.new.items ≡ out.old.items ++ dump_text cycles (plain_loaded loaded.now)) }

    ensures unchanged { OnErr result (out.new.items ≡ out.old.items) }
{
    let memories = ordered(alloc, loaded.memories.as_slice())?;
    let mut buffer = Buffer::new();
    let mut text = Vec::from_slice(alloc, b"{\"cycles\":")?;
    text.extend_from_slice(buffer.format(cycles).as_bytes())?;
    text.extend_from_slice(b",\"memories\":{")?;
    push_memories(&mut text, memories.as_slice())?;
    text.extend_from_slice(b"}}\n")?;
    out.extend_from_slice(text.as_slice())?;
    Ok(())
}

/// The memories in the order of the bytes of their names, those of one name in their own order.
fn ordered(alloc: Global, memories: &[LoadedMemory]) -> Result<Vec<&LoadedMemory>, Memory>
    ensures value { IfOk result (λ v.
        map (λ b. plain_memory b.now) v.items ≡ by_name (map plain_memory memories.now)) }
{
    let mut ordered: Vec<&LoadedMemory> = Vec::new(alloc);
    for memory in memories {
        let place = place_of(ordered.as_slice(), &memory.row.name);
        ordered.insert(place, memory)?;
    }
    Ok(ordered)
}

/// The index of the first memory with a greater name, or how many memories there are.
fn place_of(memories: &[&LoadedMemory], name: &Name) -> usize
    requires { AreByName memories.now }
    ensures bound { result ≤ length memories.now }
    ensures value { result ≡ position_or_len
        (λ other. is_lt (slice_cmp nat_cmp name.now other.now.row.name)) memories.now }
{
    memories.partition_point(|other| !(*name < other.row.name))
}

/// Appends the names of the memories with their lists.
fn push_memories(out: &mut Vec<u8>, memories: &[&LoadedMemory]) -> Result<(), Memory>
    requires fits { All (λ b. FitsShape (plain_memory b.now)) memories.now }
    requires widths { All (λ b. HasWordWidth (plain_memory b.now).shape) memories.now }
    ensures ok { OnOk result (out.new.items ≡ out.old.items
        ++ joined 0 (map memory_text (map (λ b. plain_memory b.now) memories.now))) }
{
    for (index, memory) in memories.iter().enumerate() {
        push_comma(out, index)?;
        push_memory(out, memory)?;
    }
    Ok(())
}

/// Appends the name of a memory and its lists.
fn push_memory(out: &mut Vec<u8>, memory: &LoadedMemory) -> Result<(), Memory>
    requires fits { FitsShape (plain_memory memory.now) }
    requires width { HasWordWidth (plain_memory memory.now).shape }
    ensures ok { OnOk result (out.new.items ≡ out.old.items ++ memory_text (plain_memory memory.now)) }
{
    out.push(b'"')?;
    out.extend_from_slice(memory.row.name.bytes())?;
    out.extend_from_slice(b"\":")?;
    let format = Format {
        signed: memory.signed,
        width: memory.row.width,
    };
    push_nested(
        out,
        format,
        memory.row.sizes.as_slice(),
        memory.words.as_slice(),
    )
}
