//! A case: its files, its steps, and the first step that tells something else than it should.

use crate::contents::{bytes_of, list_of, text_of};
use crate::runs::{Entry, Told, entry, told_of};
use crate::troubles::Trouble;
use serde_json::Value;
use std::alloc::Global;

/// The bytes of an output that are shown.
const SHOWN: usize = 300;

/// The keys of a step.
const KEYS: [&str; 13] = [
    "words", "status", "stdout", "stderr", "comments", "save", "reads", "writes", "lines", "most",
    "room", "cut", "fronts",
];

/// The first step of a case that tells something else than it should, behind the name of the case; nothing where there is none.
pub(crate) fn difference_of(alloc: Global, line: &str) -> Result<Option<String>, Trouble> {
    let case = Value::from_str(alloc, line)?;
    first_difference(alloc, &case)
}

fn first_difference(alloc: Global, case: &Value) -> Result<Option<String>, Trouble> {
    let (Some(name), Ok(steps)) = (text_of(case, "name"), list_of(case, "steps")) else {
        return Err(Trouble::Form);
    };
    let mut files = files_of(alloc, case)?;
    for (index, step) in steps.iter().enumerate() {
        if let Some(told) = difference(alloc, step, &mut files)? {
            return of_step(alloc, name, index.saturating_add(1), &told);
        }
    }
    Ok(None)
}

/// A difference behind the name of the case and the number of the step.
fn of_step(
    alloc: Global,
    name: &str,
    number: usize,
    told: &str,
) -> Result<Option<String>, Trouble> {
    Ok(Some(format!(in alloc; "{name}: step {number}: {told}")?))
}

/// The files of a case.
fn files_of(alloc: Global, case: &Value) -> Result<Vec<Entry>, Trouble> {
    let mut files = Vec::new(alloc);
    let Some(named) = case.get("files").and_then(Value::as_object) else {
        return Err(Trouble::Form);
    };
    for (name, content) in named.iter() {
        let bytes = bytes_of(alloc, content)?;
        files.push(entry(alloc, name.as_bytes(), &bytes)?)?;
    }
    Ok(files)
}

/// What a step tells, where it is something else than it should be. What the step saves stands before the other files from then on.
fn difference(
    alloc: Global,
    step: &Value,
    files: &mut Vec<Entry>,
) -> Result<Option<String>, Trouble> {
    if !has_known_keys(step) {
        return Err(Trouble::Form);
    }
    if let Some(name) = text_of(step, "cut") {
        return cut_difference(alloc, step, name, files);
    }
    let told = told_of(alloc, step, None, files)?;
    let difference = unlike(alloc, step, step.get("stderr"), &told)?;
    match text_of(step, "save") {
        Some(name) if difference.is_none() => save(alloc, name, &told, files)?,
        _ => {}
    }
    Ok(difference)
}

/// Puts what standard output took before the other files, under a name.
fn save(alloc: Global, name: &str, told: &Told, files: &mut Vec<Entry>) -> Result<(), Trouble> {
    files.insert(0, entry(alloc, name.as_bytes(), told.out.bytes())?)?;
    Ok(())
}

/// Whether each key of a step is one of those that are looked at.
fn has_known_keys(step: &Value) -> bool {
    let Some(members) = step.as_object() else {
        return false;
    };
    for (key, _) in members.iter() {
        if !KEYS.contains(&key.as_str()) {
            return false;
        }
    }
    true
}

/// The same of a step that is run once with each front of a file, from no byte of it to all but one.
fn cut_difference(
    alloc: Global,
    step: &Value,
    name: &str,
    files: &[Entry],
) -> Result<Option<String>, Trouble> {
    let lines = list_of(step, "fronts")?;
    let whole = held(files, name.as_bytes())?;
    for length in 0..whole.len() {
        let err = line_at(lines, length)?;
        let front = (name.as_bytes(), &whole[..length]);
        if let Some(told) = front_difference(alloc, step, front, files, err)? {
            return of_front(alloc, length, &told);
        }
    }
    Ok(None)
}

/// The same of the call with one front, where standard error is to be `err`.
fn front_difference(
    alloc: Global,
    step: &Value,
    (name, front): (&[u8], &[u8]),
    files: &[Entry],
    err: &Value,
) -> Result<Option<String>, Trouble> {
    let front = entry(alloc, name, front)?;
    let told = told_of(alloc, step, Some(front), files)?;
    unlike(alloc, step, Some(err), &told)
}

/// A difference behind the length of the front.
fn of_front(alloc: Global, length: usize, told: &str) -> Result<Option<String>, Trouble> {
    Ok(Some(format!(in alloc; "with {length} bytes: {told}")?))
}

/// The bytes of the first file with a name.
fn held<'a>(files: &'a [Entry], name: &[u8]) -> Result<&'a [u8], Trouble> {
    for (own, bytes) in files.iter() {
        if own.bytes() == name {
            return Ok(bytes.bytes());
        }
    }
    Err(Trouble::Form)
}

/// What standard error is to be for a front of this length: it stands behind the greatest length that is no greater.
fn line_at(lines: &[Value], length: usize) -> Result<&Value, Trouble> {
    let mut wanted = Err(Trouble::Form);
    for line in lines.iter() {
        match (line.get(0).and_then(Value::as_u64), line.get(1)) {
            (Some(from), Some(text)) if from <= length as u64 => wanted = Ok(text),
            _ => {}
        }
    }
    wanted
}

/// What a step told, where it is not what it should be, with standard error as given.
fn unlike(
    alloc: Global,
    step: &Value,
    err: Option<&Value>,
    told: &Told,
) -> Result<Option<String>, Trouble> {
    if is_wanted(alloc, step, err, told)? {
        Ok(None)
    } else {
        shown(alloc, told)
    }
}

/// Whether a step tells what it should: its status, and each output whose content is given.
fn is_wanted(
    alloc: Global,
    step: &Value,
    err: Option<&Value>,
    told: &Told,
) -> Result<bool, Trouble> {
    let status = u64::from(told.status as u8);
    let is_status = match step.get("status").and_then(Value::as_array) {
        Some(list) => list.iter().any(|one| one.as_u64() == Some(status)),
        None => step.get("status").and_then(Value::as_u64) == Some(status),
    };
    let is_out = is_content(alloc, step.get("stdout"), told.out.bytes())?
        && has_comments(alloc, step.get("comments"), told.out.bytes())?;
    let is_err = is_content(alloc, err, told.err.bytes())?;
    Ok(is_status && is_out && is_err)
}

/// Whether bytes are a content; each are where none is given.
fn is_content(alloc: Global, content: Option<&Value>, bytes: &[u8]) -> Result<bool, Trouble> {
    match content {
        Some(content) => Ok(bytes_of(alloc, content)?.as_slice() == bytes),
        None => Ok(true),
    }
}

/// Whether bytes begin with the lines of a content, and no comment stands behind them; each do where none is given.
fn has_comments(alloc: Global, content: Option<&Value>, bytes: &[u8]) -> Result<bool, Trouble> {
    match content {
        Some(content) => {
            let lines = bytes_of(alloc, content)?;
            let rest = bytes.get(lines.len()..).unwrap_or(b"//".as_slice());
            Ok(bytes.starts_with(lines.as_slice()) && !rest.starts_with(b"//".as_slice()))
        }
        None => Ok(true),
    }
}

/// What a step told, on one line.
fn shown(alloc: Global, told: &Told) -> Result<Option<String>, Trouble> {
    let status = told.status as u8;
    let out = front(told.out.bytes()).escape_ascii();
    let err = front(told.err.bytes()).escape_ascii();
    Ok(Some(format!(in alloc;
        "status {status}, standard output \"{out}\", standard error \"{err}\""
    )?))
}

fn front(bytes: &[u8]) -> &[u8] {
    bytes.get(..SHOWN).unwrap_or(bytes)
}
