//! Guards, with parentheses only where they are needed.

ghost use Rattle.std.specs.Prelude.{◌≡◌, OnOk, false};
ghost use Rattle.cx_ast.specs.PlainGuards.{plain_guard, plain_guards, guards_of};
ghost use Rattle.cx_print.specs.Pieces.{comparison_sign, needs_parens, add_guard, add_inside, add_parts, add_during};

use crate::operands::operand;
use crate::pieces::{Gap, Piece, number, sign};
use cx_ast::{Comparison, GuardItem, Sign};
use cx_text::Memory;
use std::alloc::Global;

/// Where a guard stands, from the place that binds least to the one that binds most.
#[derive(Clone, Copy, Debug, PartialEq, Eq)]
pub enum Binding {
    Whole,
    OrPart,
    AndPart,
    NotPart,
}

fn comparison(comparison: Comparison) -> Sign
    ensures { result ≡ comparison_sign comparison }
{
    match comparison {
        Comparison::Equal => Sign::EqualEqual,
        Comparison::NotEqual => Sign::NotEqual,
        Comparison::Less => Sign::Less,
        Comparison::Greater => Sign::Greater,
        Comparison::LessEqual => Sign::LessEqual,
        Comparison::GreaterEqual => Sign::GreaterEqual,
    }
}

// Whether the guard has to stand in parentheses there.
fn is_wrapped(binding: Binding, guard: &GuardItem) -> bool
    ensures { result ≡ needs_parens binding (plain_guard guard.now) }
{
    match guard {
        GuardItem::Or(_) => binding != Binding::Whole,
        GuardItem::And(_) => binding == Binding::AndPart || binding == Binding::NotPart,
        GuardItem::Compare(_, _, _) => binding == Binding::NotPart,
        GuardItem::Not(_) => false,
        GuardItem::Operand(_) => false,
        GuardItem::At(_) => false,
        GuardItem::During(_, _) => false,
    }
}

/// Adds a guard.
#[cycle(guard)]
pub(crate) fn guard(
    alloc: Global,
    out: &mut Vec<Piece>,
    gap: Gap,
    binding: Binding,
    guard: &GuardItem,
) -> Result<(), Memory>
    ensures { OnOk result (out.new.items ≡ add_guard binding (plain_guard guard.now) gap out.old.items) }
{
    if !is_wrapped(binding, guard) {
        return inside(alloc, out, gap, guard);
    }
    sign(out, gap, Sign::OpenParen)?;
    inside(alloc, out, Gap::Tight, guard)?;
    sign(out, Gap::Tight, Sign::CloseParen)
}

// Adds a guard without parentheses of its own.
#[cycle(guard)]
fn inside(alloc: Global, out: &mut Vec<Piece>, gap: Gap, item: &GuardItem) -> Result<(), Memory>
    ensures { OnOk result (out.new.items ≡ add_inside (plain_guard item.now) gap out.old.items) }
{
    match item {
        GuardItem::Or(parts) => joined(alloc, out, gap, Binding::OrPart, Sign::Or, parts),
        GuardItem::And(parts) => joined(alloc, out, gap, Binding::AndPart, Sign::And, parts),
        GuardItem::Compare(order, left, right) => {
            operand(alloc, out, gap, left)?;
            sign(out, Gap::Space, comparison(*order))?;
            operand(alloc, out, Gap::Space, right)
        }
        GuardItem::Not(inner) => {
            sign(out, gap, Sign::Not)?;
            guard(alloc, out, Gap::Tight, Binding::NotPart, inner)
        }
        GuardItem::Operand(port) => operand(alloc, out, gap, port),
        GuardItem::At(cycle) => {
            sign(out, gap, Sign::Percent)?;
            number(out, Gap::Tight, *cycle)
        }
        GuardItem::During(from, to) => during(out, gap, *from, *to),
    }
}

// Adds the parts of a guard with a sign between them.
#[cycle(guard)]
fn joined(
    alloc: Global,
    out: &mut Vec<Piece>,
    gap: Gap,
    binding: Binding,
    between: Sign,
    parts: &[GuardItem],
) -> Result<(), Memory>
    ensures { OnOk result (out.new.items ≡
        add_parts binding between false (guards_of (plain_guards parts.now)) gap out.old.items) }
{
    let mut is_behind = false;
    let mut gap = gap;
    for part in parts {
        if is_behind {
            sign(out, Gap::Space, between)?;
        }
        guard(alloc, out, gap, binding, part)?;
        is_behind = true;
        gap = Gap::Space;
    }
    Ok(())
}

// Adds the window of cycles in a static group.
fn during(out: &mut Vec<Piece>, gap: Gap, from: u64, to: u64) -> Result<(), Memory>
    ensures { OnOk result (out.new.items ≡ add_during gap from to out.old.items) }
{
    sign(out, gap, Sign::Percent)?;
    sign(out, Gap::Tight, Sign::OpenBracket)?;
    number(out, Gap::Tight, from)?;
    sign(out, Gap::Tight, Sign::Colon)?;
    number(out, Gap::Tight, to)?;
    sign(out, Gap::Tight, Sign::CloseBracket)
}
