//! Targets, operands and binds.

ghost use Rattle.std.specs.Prelude.{◌≡◌, OnOk};
ghost use Rattle.cx_print.specs.Pieces.{add_operand, add_bind, add_binds, with_commas};

use crate::pieces::{Gap, Piece, sign, token, word};
use cx_ast::{BindItem, OperandForm, OperandItem, Sign, TokenKind};
use cx_text::Memory;
use std::alloc::Global;

/// Adds a target or an operand.
pub(crate) fn operand(
    alloc: Global,
    out: &mut Vec<Piece>,
    gap: Gap,
    operand: &OperandItem,
) -> Result<(), Memory>
    ensures { OnOk result (out.new.items ≡ add_operand gap operand.now out.old.items) }
{
    match &operand.form {
        OperandForm::Own(port) => word(alloc, out, gap, port.bytes()),
        OperandForm::Port(cell, port) => {
            word(alloc, out, gap, cell.bytes())?;
            sign(out, Gap::Tight, Sign::Dot)?;
            word(alloc, out, Gap::Tight, port.bytes())
        }
        OperandForm::Hole(group, hole) => {
            word(alloc, out, gap, group.bytes())?;
            sign(out, Gap::Tight, Sign::OpenBracket)?;
            word(alloc, out, Gap::Tight, hole.bytes())?;
            sign(out, Gap::Tight, Sign::CloseBracket)
        }
        OperandForm::Literal(width, value) => token(out, gap, TokenKind::Literal(*width, *value)),
    }
}

// Adds a bind of an `invoke`.
fn bind(alloc: Global, out: &mut Vec<Piece>, gap: Gap, bind: &BindItem) -> Result<(), Memory>
    ensures { OnOk result (out.new.items ≡ add_bind gap bind.now out.old.items) }
{
    word(alloc, out, gap, bind.name.bytes())?;
    sign(out, Gap::Space, Sign::Equal)?;
    operand(alloc, out, Gap::Space, &bind.value)
}

/// Adds binds in parentheses.
pub(crate) fn binds(alloc: Global, out: &mut Vec<Piece>, binds: &[BindItem]) -> Result<(), Memory>
    ensures { OnOk result (out.new.items ≡ add_binds binds.now out.old.items) }
{
    sign(out, Gap::Tight, Sign::OpenParen)?;
    some_binds(alloc, out, binds)?;
    sign(out, Gap::Tight, Sign::CloseParen)
}

// Adds binds with commas between them.
fn some_binds(alloc: Global, out: &mut Vec<Piece>, binds: &[BindItem]) -> Result<(), Memory>
    ensures { OnOk result (out.new.items ≡ with_commas add_bind binds.now out.old.items) }
{
    let Some((first, more)) = binds.split_first() else {
        return Ok(());
    };
    bind(alloc, out, Gap::Tight, first)?;
    for item in more {
        sign(out, Gap::Tight, Sign::Comma)?;
        bind(alloc, out, Gap::Space, item)?;
    }
    Ok(())
}
