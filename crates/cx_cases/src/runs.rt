//! A call of `run` over files and outputs in memory, and what it tells.

use crate::contents::{bytes_of, list_of, size_of};
use crate::troubles::Trouble;
use cx_driver::{Status, run};
use cx_outside::{MemFiles, MemSink, Word};
use serde_json::Value;
use std::alloc::Global;

/// A name and the bytes that it holds.
pub(crate) type Entry = (Word, Word);

/// The bytes that an output has room for where a step does not say.
const ROOM: usize = 65_536;

/// What a call came to: its status, and its outputs.
#[derive(Drop)]
pub(crate) struct Told {
    pub(crate) status: Status,
    pub(crate) out: MemSink,
    pub(crate) err: MemSink,
}

/// A name with a copy of bytes.
pub(crate) fn entry(alloc: Global, name: &[u8], bytes: &[u8]) -> Result<Entry, Trouble> {
    let name = Word::from_bytes(alloc, name)?;
    Ok((name, Word::from_bytes(alloc, bytes)?))
}

/// Runs a step over copies of files, of which one may stand before the others.
pub(crate) fn told_of(
    alloc: Global,
    step: &Value,
    first: Option<Entry>,
    files: &[Entry],
) -> Result<Told, Trouble> {
    let room = size_of(step, "room").unwrap_or(ROOM);
    let out = sink(alloc, step, "writes", room)?;
    let err = sink(alloc, step, "lines", ROOM)?;
    let files = files_of(alloc, step, first, files)?;
    let words = words_of(alloc, step)?;
    Ok(called(alloc, &words, files, (out, err)))
}

fn called(alloc: Global, words: &[Word], mut files: MemFiles, outputs: (MemSink, MemSink)) -> Told {
    let (mut out, mut err) = outputs;
    let status = run(alloc, words, &mut files, &mut out, &mut err);
    Told { status, out, err }
}

/// The words of a step.
fn words_of(alloc: Global, step: &Value) -> Result<Vec<Word>, Trouble> {
    let mut words = Vec::new(alloc);
    for word in list_of(step, "words")?.iter() {
        let bytes = bytes_of(alloc, word)?;
        words.push(Word::from_bytes(alloc, &bytes)?)?;
    }
    Ok(words)
}

/// Copies of files, of which the calls fail whose numbers a step lists under `reads`.
fn files_of(
    alloc: Global,
    step: &Value,
    first: Option<Entry>,
    files: &[Entry],
) -> Result<MemFiles, Trouble> {
    let fails = numbers_of(alloc, step, "reads")?;
    let mut copies = Vec::new(alloc);
    if let Some(first) = first {
        copies.push(first)?;
    }
    for (name, bytes) in files.iter() {
        copies.push(entry(alloc, name.bytes(), bytes.bytes())?)?;
    }
    Ok(MemFiles::new(copies, fails))
}

/// An output with so much room, of which the writes fail whose numbers a step lists under a key. Each takes `most` bytes at most.
fn sink(alloc: Global, step: &Value, key: &str, room: usize) -> Result<MemSink, Trouble> {
    let most = size_of(step, "most").unwrap_or(ROOM).max(1);
    let fails = numbers_of(alloc, step, key)?;
    Ok(MemSink::new(most, fails, vec![in alloc; 0; room]?))
}

/// The numbers that stand under a key; none where it is absent.
fn numbers_of(alloc: Global, step: &Value, key: &str) -> Result<Vec<u64>, Trouble> {
    let mut numbers = Vec::new(alloc);
    if step.get(key).is_some() {
        for number in list_of(step, key)?.iter() {
            numbers.push(number.as_u64().ok_or(Trouble::Form)?)?;
        }
    }
    Ok(numbers)
}
