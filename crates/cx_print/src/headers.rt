//! Attributes, marks and lengths.

ghost use Rattle.std.specs.Prelude.{◌≡◌, ℕ, OnOk};
ghost use Rattle.cx_print.specs.Pieces.{add_attribute, add_attributes, behind_attributes, add_mark, add_marks, behind_marks, add_length, more_of, with_commas};

use crate::pieces::{Gap, Piece, number, sign, token, word};
use cx_ast::{Attribute, Mark, Sign, TokenKind};
use cx_text::{Memory, Name};
use std::alloc::Global;

// Adds an attribute.
fn attribute(
    alloc: Global,
    out: &mut Vec<Piece>,
    gap: Gap,
    attribute: &Attribute,
) -> Result<(), Memory>
    ensures { OnOk result (out.new.items ≡ add_attribute gap attribute.now out.old.items) }
{
    sign(out, gap, Sign::At)?;
    word(alloc, out, Gap::Tight, attribute.name.bytes())?;
    let Some(value) = attribute.number else {
        return Ok(());
    };
    sign(out, Gap::Tight, Sign::OpenParen)?;
    number(out, Gap::Tight, value)?;
    sign(out, Gap::Tight, Sign::CloseParen)
}

/// Adds the attributes before a part.
pub(crate) fn attributes(
    alloc: Global,
    out: &mut Vec<Piece>,
    gap: Gap,
    attributes: &[Attribute],
) -> Result<(), Memory>
    ensures { OnOk result (out.new.items ≡ add_attributes gap attributes.now out.old.items) }
{
    let mut gap = gap;
    for item in attributes {
        attribute(alloc, out, gap, item)?;
        gap = Gap::Space;
    }
    Ok(())
}

/// What stands before a part whose attributes begin with this gap.
pub(crate) fn behind(gap: Gap, attributes: &[Attribute]) -> Gap
    ensures { result ≡ behind_attributes gap attributes.now }
{
    if attributes.is_empty() {
        gap
    } else {
        Gap::Space
    }
}

// Adds a mark.
fn mark(alloc: Global, out: &mut Vec<Piece>, gap: Gap, mark: &Mark) -> Result<(), Memory>
    ensures { OnOk result (out.new.items ≡ add_mark gap mark.now out.old.items) }
{
    let name = Name::from_bytes(alloc, mark.name.bytes())?;
    token(out, gap, TokenKind::Text(name))?;
    sign(out, Gap::Space, Sign::Equal)?;
    number(out, Gap::Space, mark.number)
}

/// Adds the marks behind a name.
pub(crate) fn marks(alloc: Global, out: &mut Vec<Piece>, marks: &[Mark]) -> Result<(), Memory>
    ensures { OnOk result (out.new.items ≡ add_marks marks.now out.old.items) }
{
    let Some((first, more)) = marks.split_first() else {
        return Ok(());
    };
    sign(out, Gap::Tight, Sign::Less)?;
    mark(alloc, out, Gap::Tight, first)?;
    for item in more {
        sign(out, Gap::Tight, Sign::Comma)?;
        mark(alloc, out, Gap::Space, item)?;
    }
    sign(out, Gap::Tight, Sign::Greater)
}

/// What stands before a sign behind a name and its marks: a space behind the `>` of marks.
pub(crate) fn after_marks(marks: &[Mark]) -> Gap
    ensures { result ≡ behind_marks marks.now }
{
    if marks.is_empty() {
        Gap::Tight
    } else {
        Gap::Space
    }
}

/// Adds the length of a static part, where it is written.
pub(crate) fn length(out: &mut Vec<Piece>, length: Option<u64>) -> Result<(), Memory>
    ensures { OnOk result (out.new.items ≡ add_length length out.old.items) }
{
    let Some(cycles) = length else {
        return Ok(());
    };
    sign(out, Gap::Tight, Sign::Less)?;
    number(out, Gap::Tight, cycles)?;
    sign(out, Gap::Tight, Sign::Greater)
}
