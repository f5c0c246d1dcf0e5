//! Words and names.

ghost use Rattle.std.specs.Prelude.{◌≡◌};
ghost use Rattle.cx_vtree.specs.Layout as layout;
ghost use Rattle.cx_vread_exprs.specs.Answers.{Gives, place_of};
ghost use Rattle.cx_text.specs.Spans.{front, back};
ghost use Rattle.cx_vread_exprs.specs.Tokens.{word_at, name_at};

use crate::faults::Fault;
use crate::places::ReadPoint;
use cx_text::Name;
use cx_vscope::{is_keyword, is_name_byte, is_word};
use std::alloc::Global;

/// The bytes after the letters, digits and `_` that the bytes begin with.
fn behind(text: &[u8]) -> &[u8]
    ensures { result.now ≡ back layout.is_name_byte text.now }
{
    let mut rest = text;
    while let Some((byte, after)) = rest.split_first() {
        if !is_name_byte(*byte) {
            return rest;
        }
        rest = after;
    }
    rest
}

/// The letters, digits and `_` that the bytes begin with, and those behind them.
fn span(text: &[u8]) -> (&[u8], &[u8])
    ensures front { result.0.now ≡ front layout.is_name_byte text.now }
    ensures back { result.1.now ≡ back layout.is_name_byte text.now }
{
    let rest = behind(text);
    (&text[..text.len() - rest.len()], rest)
}

/// The word that the bytes begin with, which may be one of the grammar's own.
pub fn word<'a>(alloc: Global, at: ReadPoint<'a>) -> Result<(Name, ReadPoint<'a>), Fault>
    ensures { Gives (λ x. (x.0, place_of x.1)) result (word_at (place_of at.entry)) }
{
    let (word, rest) = span(at.rest);
    if !is_word(word) {
        return Err(Fault::Syntax(at.rest.len()));
    }
    let name = Name::from_bytes(alloc, word)?;
    let at = ReadPoint { rest };
    Ok((name, at))
}

/// The name that the bytes begin with.
pub fn name<'a>(alloc: Global, at: ReadPoint<'a>) -> Result<(Name, ReadPoint<'a>), Fault>
    ensures { Gives (λ x. (x.0, place_of x.1)) result (name_at (place_of at.entry)) }
{
    let (word, rest) = span(at.rest);
    if !is_word(word) || is_keyword(word) {
        return Err(Fault::Syntax(at.rest.len()));
    }
    let name = Name::from_bytes(alloc, word)?;
    let at = ReadPoint { rest };
    Ok((name, at))
}
