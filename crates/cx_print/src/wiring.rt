//! Groups and assignments.

ghost use Rattle.std.specs.Prelude.{◌≡◌, OnOk, option_map, map};
ghost use Rattle.cx_ast.specs.PlainGuards.{plain_guard};
ghost use Rattle.cx_ast.specs.PlainTree.{plain_assign, plain_group, plain_wire};
ghost use Rattle.cx_print.specs.Pieces.{add_condition, add_assign, add_group_word, add_group, add_wire, add_lines};

use crate::control::timed;
use crate::guards::{Binding, guard};
use crate::headers::{attributes, behind, marks};
use crate::operands::operand;
use crate::pieces::{Gap, Piece, sign, word};
use cx_ast::{AssignItem, GroupItem, GroupWord, GuardItem, Sign, WireItem};
use cx_text::Memory;
use std::alloc::Global;

// Adds the guard of an assignment and its `?`, where there is one.
fn condition(
    alloc: Global,
    out: &mut Vec<Piece>,
    condition: &Option<GuardItem>,
) -> Result<(), Memory>
    ensures { OnOk result (out.new.items ≡ add_condition (option_map plain_guard condition.now) out.old.items) }
{
    let Some(written) = condition else {
        return Ok(());
    };
    guard(alloc, out, Gap::Space, Binding::Whole, written)?;
    sign(out, Gap::Space, Sign::Question)
}

// Adds an assignment.
fn assign(alloc: Global, out: &mut Vec<Piece>, gap: Gap, item: &AssignItem) -> Result<(), Memory>
    ensures { OnOk result (out.new.items ≡ add_assign gap (plain_assign item.now) out.old.items) }
{
    attributes(alloc, out, gap, &item.attributes)?;
    operand(alloc, out, behind(gap, &item.attributes), &item.target)?;
    sign(out, Gap::Space, Sign::Equal)?;
    condition(alloc, out, &item.guard)?;
    operand(alloc, out, Gap::Space, &item.source)?;
    sign(out, Gap::Tight, Sign::Semicolon)
}

// Adds assignments, each on its line.
fn assigns(alloc: Global, out: &mut Vec<Piece>, items: &[AssignItem]) -> Result<(), Memory>
    ensures { OnOk result (out.new.items ≡ add_lines add_assign (map plain_assign items.now) out.old.items) }
{
    for item in items {
        assign(alloc, out, Gap::Line, item)?;
    }
    Ok(())
}

// Adds the words that begin a group.
fn group_word(alloc: Global, out: &mut Vec<Piece>, gap: Gap, kind: GroupWord) -> Result<(), Memory>
    ensures { OnOk result (out.new.items ≡ add_group_word gap kind out.old.items) }
{
    match kind {
        GroupWord::Plain => word(alloc, out, gap, b"group"),
        GroupWord::Comb => {
            word(alloc, out, gap, b"comb")?;
            word(alloc, out, Gap::Space, b"group")
        }
        GroupWord::Timed(cycles) => timed(alloc, out, gap, Some(cycles), b"group"),
    }
}

// Adds a group.
fn group(alloc: Global, out: &mut Vec<Piece>, gap: Gap, item: &GroupItem) -> Result<(), Memory>
    ensures { OnOk result (out.new.items ≡ add_group gap (plain_group item.now) out.old.items) }
{
    attributes(alloc, out, gap, &item.attributes)?;
    group_word(alloc, out, behind(gap, &item.attributes), item.kind)?;
    word(alloc, out, Gap::Space, item.name.bytes())?;
    marks(alloc, out, &item.marks)?;
    sign(out, Gap::Space, Sign::OpenBrace)?;
    assigns(alloc, out, &item.assigns)?;
    sign(out, Gap::Line, Sign::CloseBrace)
}

/// Adds a group or an assignment.
pub(crate) fn wire(
    alloc: Global,
    out: &mut Vec<Piece>,
    gap: Gap,
    item: &WireItem,
) -> Result<(), Memory>
    ensures { OnOk result (out.new.items ≡ add_wire gap (plain_wire item.now) out.old.items) }
{
    match item {
        WireItem::Group(item) => group(alloc, out, gap, item),
        WireItem::Assign(item) => assign(alloc, out, gap, item),
    }
}
