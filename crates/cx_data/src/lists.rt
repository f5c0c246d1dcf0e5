//! Row-major words as lists within lists of decimal numbers.

ghost use Rattle.std.specs.Prelude.{◌≡◌, ◌++◌, ◌∷◌, [], ◌*◌, ◌≤◌, ◌<◌, ◌^◌, length, map, All, OnOk};
ghost use Rattle.cx_text.specs.Loading.{word_count};
ghost use Rattle.cx_data.specs.Dump.{number_text, comma_before, joined, pieces, nested_text};

use cx_text::Memory;
use itoa::Buffer;

/// How the words of a memory are written. The width is 1 to 64.
#[derive(Clone, Copy)]
pub(crate) struct Format {
    pub(crate) signed: bool,
    pub(crate) width: u8,
}

/// Appends row-major words as lists within lists, the outermost by the first size.
#[cycle(nested)]
pub(crate) fn push_nested(
    out: &mut Vec<u8>,
    format: Format,
    sizes: &[u64],
    words: &[u64],
) -> Result<(), Memory>
    requires positive { 1 ≤ format.width }
    requires narrow { format.width ≤ 64 }
    requires count { length words.now ≡ word_count sizes.now }
    requires in_range { All (λ word. word < 2 ^ format.width) words.now }
    ensures ok { OnOk result (out.new.items ≡ out.old.items
        ++ nested_text (number_text format.signed format.width) sizes.now words.now) }
{
    match sizes.split_first() {
        None => push_number(out, format, words[0]),
        Some((size, inner)) => push_list(out, format, *size, inner, words),
    }
}

/// Appends one list of `size` parts.
#[cycle(nested)]
fn push_list(
    out: &mut Vec<u8>,
    format: Format,
    size: u64,
    inner: &[u64],
    words: &[u64],
) -> Result<(), Memory>
    requires positive { 1 ≤ format.width }
    requires narrow { format.width ≤ 64 }
    requires count { length words.now ≡ size * word_count inner.now }
    requires in_range { All (λ word. word < 2 ^ format.width) words.now }
    ensures ok { OnOk result (out.new.items ≡ out.old.items
        ++ nested_text (number_text format.signed format.width) (size ∷ inner.now) words.now) }
{
    let count = size as usize;
    let part_len = words.len().checked_div(count).unwrap_or(0);
    let mut rest = words;
    out.push(b'[')?;
    for index in 0..count {
        push_comma(out, index)?;
        let (part, after) = rest.split_at(part_len);
        push_nested(out, format, inner, part)?;
        rest = after;
    }
    out.push(b']')?;
    Ok(())
}

/// Appends a comma, but for the first text of a list.
pub(crate) fn push_comma(out: &mut Vec<u8>, index: usize) -> Result<(), Memory>
    ensures ok { OnOk result (out.new.items ≡ out.old.items ++ comma_before index) }
{
    if index > 0 {
        out.push(b',')?;
    }
    Ok(())
}

/// Appends a word in decimal, with a minus before a negative number.
fn push_number(out: &mut Vec<u8>, format: Format, word: u64) -> Result<(), Memory>
    requires positive { 1 ≤ format.width }
    requires narrow { format.width ≤ 64 }
    requires in_range { word < 2 ^ format.width }
    ensures ok { OnOk result (out.new.items ≡ out.old.items
        ++ number_text format.signed format.width word) }
{
    let mut buffer = Buffer::new();
    let half = 1u64 << (format.width - 1);
    if format.signed && word >= half {
        let magnitude = half - (word - half);
        out.push(b'-')?;
        out.extend_from_slice(buffer.format(magnitude).as_bytes())?;
    } else {
        out.extend_from_slice(buffer.format(word).as_bytes())?;
    }
    Ok(())
}
