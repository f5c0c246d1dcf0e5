//! The values of a case: texts, numbers, and the bytes of files, words and outputs.

use crate::troubles::Trouble;
use serde_json::Value;
use std::alloc::Global;

/// The text under a key.
pub(crate) fn text_of<'a>(value: &'a Value, key: &str) -> Option<&'a str> {
    value.get(key).and_then(Value::as_str)
}

/// The number under a key.
pub(crate) fn size_of(value: &Value, key: &str) -> Option<usize> {
    let number = value.get(key).and_then(Value::as_u64)?;
    usize::try_from(number).ok()
}

/// The list under a key.
pub(crate) fn list_of<'a>(value: &'a Value, key: &str) -> Result<&'a [Value], Trouble> {
    match value.get(key).and_then(Value::as_array) {
        Some(list) => Ok(list.as_slice()),
        None => Err(Trouble::Form),
    }
}

/// The bytes of a content: of a piece, or of a list of pieces one after another.
pub(crate) fn bytes_of(alloc: Global, content: &Value) -> Result<Vec<u8>, Trouble> {
    let mut bytes = Vec::new(alloc);
    match content.as_array() {
        Some(pieces) => {
            for piece in pieces.iter() {
                push_piece(alloc, piece, &mut bytes)?;
            }
        }
        None => push_piece(alloc, content, &mut bytes)?,
    }
    Ok(bytes)
}

/// Appends a piece: a text, `{"latin1"}` or `{"repeat", "times"}`.
fn push_piece(alloc: Global, piece: &Value, out: &mut Vec<u8>) -> Result<(), Trouble> {
    if let Some(text) = piece.as_str() {
        return push_text(text, out);
    }
    if let Some(text) = text_of(piece, "latin1") {
        return push_letters(text, out);
    }
    let (Some(text), Some(times)) = (text_of(piece, "repeat"), size_of(piece, "times")) else {
        return Err(Trouble::Form);
    };
    match text_of(piece, "number") {
        Some(mark) => push_numbered(alloc, (text, mark), times, out),
        None => push_text(&text.repeat(alloc, times)?, out),
    }
}

/// Appends a text as UTF-8.
fn push_text(text: &str, out: &mut Vec<u8>) -> Result<(), Trouble> {
    out.extend_from_slice(text.as_bytes())?;
    Ok(())
}

/// Appends a byte for each letter, which is `?` where the letter is none of Latin 1.
fn push_letters(text: &str, out: &mut Vec<u8>) -> Result<(), Trouble> {
    for letter in text.chars() {
        out.push(u8::try_from(u32::from(letter)).unwrap_or(b'?'))?;
    }
    Ok(())
}

/// Appends copies of a text, with 0, 1 and so on in place of a mark.
fn push_numbered(
    alloc: Global,
    (text, mark): (&str, &str),
    times: usize,
    out: &mut Vec<u8>,
) -> Result<(), Trouble> {
    for number in 0..times {
        let digits = format!(in alloc; "{number}")?;
        push_text(&text.replace(alloc, mark, &digits)?, out)?;
    }
    Ok(())
}
