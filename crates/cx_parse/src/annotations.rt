//! Reading attributes, marks and imports.

ghost use Rattle.std.specs.Prelude.{◌≡◌, ℕ, Some, option_map};
ghost use Rattle.cx_grammar.specs.Calyx as calyx;
ghost use Rattle.cx_parse.specs.Readings.{Gives, state_of, with_first};

use crate::readers::Reader;
use cx_ast::{Attribute, ImportItem, Mark};
use cx_grammar::Terminal;

/// Reads the number of an attribute, where there is one.
fn attribute_number(reader: &mut Reader) -> Option<u64>
    ensures value { (levels : ℕ) →
        Gives levels calyx.attribute_number (state_of reader.old) (state_of reader.new) (Some result) }
{
    if !reader.next_is(Terminal::OpenParen) {
        return None;
    }
    reader.sign(Terminal::OpenParen);
    let n = reader.number();
    reader.sign(Terminal::CloseParen);
    Some(n)
}

/// Reads an attribute.
fn attribute(reader: &mut Reader) -> Option<Attribute>
    ensures value { (levels : ℕ) → Gives levels calyx.attribute (state_of reader.old) (state_of reader.new) result }
{
    reader.sign(Terminal::At);
    let name = reader.word()?;
    let number = attribute_number(reader);
    Some(Attribute { name, number })
}

/// Reads the attributes before a part.
pub fn attributes(reader: &mut Reader) -> Vec<Attribute>
    ensures value { (levels : ℕ) →
        Gives levels calyx.attributes (state_of reader.old) (state_of reader.new) (Some result.items) }
{
    let mut all = Vec::new(reader.alloc);
    while reader.next_is(Terminal::At) {
        let attribute = attribute(reader);
        reader.keep(&mut all, attribute);
    }
    all
}

/// Reads a mark.
fn mark(reader: &mut Reader) -> Option<Mark>
    ensures value { (levels : ℕ) → Gives levels calyx.mark (state_of reader.old) (state_of reader.new) result }
{
    let name = reader.text()?;
    reader.sign(Terminal::Equal);
    let number = reader.number();
    Some(Mark { name, number })
}

/// Reads the marks behind the first.
fn more_marks(reader: &mut Reader, first: Mark) -> Vec<Mark>
    ensures value { (levels : ℕ) → Gives levels (with_first first calyx.more_marks) (state_of reader.old)
        (state_of reader.new) (Some result.items) }
{
    let mut all = Vec::new(reader.alloc);
    reader.keep(&mut all, Some(first));
    while reader.next_is(Terminal::Comma) {
        reader.sign(Terminal::Comma);
        let mark = mark(reader);
        reader.keep(&mut all, mark);
    }
    all
}

/// Reads the marks behind a name, where there are some.
pub fn marks(reader: &mut Reader) -> Vec<Mark>
    ensures value { (levels : ℕ) →
        Gives levels calyx.marks (state_of reader.old) (state_of reader.new) (Some result.items) }
{
    if !reader.next_is(Terminal::Less) {
        return Vec::new(reader.alloc);
    }
    reader.sign(Terminal::Less);
    match mark(reader) {
        Some(first) => {
            let all = more_marks(reader, first);
            reader.sign(Terminal::Greater);
            all
        }
        None => Vec::new(reader.alloc),
    }
}

/// Reads a length in cycles.
pub fn length_of(reader: &mut Reader) -> u64
    ensures value { (levels : ℕ) →
        Gives levels calyx.length_of (state_of reader.old) (state_of reader.new) (Some result) }
{
    reader.sign(Terminal::Less);
    let n = reader.number();
    reader.sign(Terminal::Greater);
    n
}

/// Reads a length in cycles, where there is one.
pub fn optional_length(reader: &mut Reader) -> Option<u64>
    ensures value { (levels : ℕ) →
        Gives levels calyx.optional_length (state_of reader.old) (state_of reader.new) (Some result) }
{
    if reader.next_is(Terminal::Less) {
        Some(length_of(reader))
    } else {
        None
    }
}

/// Reads an import.
pub fn import(reader: &mut Reader) -> Option<ImportItem>
    ensures value { (levels : ℕ) → Gives levels calyx.import (state_of reader.old) (state_of reader.new) result }
{
    let place = reader.sign(Terminal::Import);
    let path = reader.text()?;
    reader.sign(Terminal::Semicolon);
    Some(ImportItem { path, place })
}
