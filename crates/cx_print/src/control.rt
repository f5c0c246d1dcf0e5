//! Control: blocks and statements.

ghost use Rattle.std.specs.Prelude.{◌≡◌, OnOk, option_map};
ghost use Rattle.cx_ast.specs.PlainStatements.{plain_form, plain_statement, plain_block, else_of};
ghost use Rattle.cx_print.specs.Pieces.{add_control, add_else, add_statement, add_block, add_comb, add_invoke, add_static};

use crate::headers::{after_marks, attributes, behind, length, marks};
use crate::operands::{binds, operand};
use crate::pieces::{Gap, Piece, number, sign, word};
use cx_ast::{BindItem, Block, Sign, StatementForm, StatementItem};
use cx_text::{Memory, Name};
use std::alloc::Global;

// Adds the comb group of a test, where there is one.
fn comb(alloc: Global, out: &mut Vec<Piece>, comb: &Option<Name>) -> Result<(), Memory>
    ensures { OnOk result (out.new.items ≡ add_comb comb.now out.old.items) }
{
    let Some(group) = comb else {
        return Ok(());
    };
    word(alloc, out, Gap::Space, b"with")?;
    word(alloc, out, Gap::Space, group.bytes())
}

/// Adds `static`, its length where it is written, and the word behind.
pub(crate) fn timed(
    alloc: Global,
    out: &mut Vec<Piece>,
    gap: Gap,
    cycles: Option<u64>,
    behind: &[u8],
) -> Result<(), Memory>
    ensures { OnOk result (out.new.items ≡ add_static gap cycles behind.now out.old.items) }
{
    word(alloc, out, gap, b"static")?;
    length(out, cycles)?;
    word(alloc, out, Gap::Space, behind)
}

// Adds what stands behind the word `invoke`.
fn call(
    alloc: Global,
    out: &mut Vec<Piece>,
    cell: &Name,
    inputs: &[BindItem],
    outputs: &[BindItem],
) -> Result<(), Memory>
    ensures { OnOk result (out.new.items ≡ add_invoke cell.now inputs.now outputs.now out.old.items) }
{
    word(alloc, out, Gap::Space, cell.bytes())?;
    binds(alloc, out, inputs)?;
    binds(alloc, out, outputs)?;
    sign(out, Gap::Tight, Sign::Semicolon)
}

/// Adds statements between braces.
#[cycle(control)]
pub(crate) fn block(alloc: Global, out: &mut Vec<Piece>, block: &Block) -> Result<(), Memory>
    ensures { OnOk result (out.new.items ≡ add_block (plain_block block.now) out.old.items) }
{
    sign(out, Gap::Space, Sign::OpenBrace)?;
    for item in &block.statements {
        statement(alloc, out, Gap::Line, item)?;
    }
    sign(out, Gap::Line, Sign::CloseBrace)
}

// Adds a statement with its attributes.
#[cycle(control)]
fn statement(
    alloc: Global,
    out: &mut Vec<Piece>,
    gap: Gap,
    item: &StatementItem,
) -> Result<(), Memory>
    ensures { OnOk result (out.new.items ≡ add_statement gap (plain_statement item.now) out.old.items) }
{
    attributes(alloc, out, gap, &item.attributes)?;
    form(alloc, out, behind(gap, &item.attributes), &item.form)
}

// Adds the block behind `else`, where there is one.
#[cycle(control)]
fn otherwise(alloc: Global, out: &mut Vec<Piece>, no: &Option<Block>) -> Result<(), Memory>
    ensures { OnOk result (out.new.items ≡ add_else (else_of (option_map plain_block no.now)) out.old.items) }
{
    let Some(body) = no else {
        return Ok(());
    };
    word(alloc, out, Gap::Space, b"else")?;
    block(alloc, out, body)
}

// Adds a statement without its attributes.
#[cycle(control)]
fn form(alloc: Global, out: &mut Vec<Piece>, gap: Gap, form: &StatementForm) -> Result<(), Memory>
    ensures { OnOk result (out.new.items ≡ add_control gap (plain_form form.now) out.old.items) }
{
    match form {
        StatementForm::Enable {
            group,
            marks: written,
        } => {
            word(alloc, out, gap, group.bytes())?;
            marks(alloc, out, written)?;
            sign(out, after_marks(written), Sign::Semicolon)
        }
        StatementForm::Seq {
            marks: written,
            block: body,
        } => {
            word(alloc, out, gap, b"seq")?;
            marks(alloc, out, written)?;
            block(alloc, out, body)
        }
        StatementForm::Par {
            marks: written,
            block: body,
        } => {
            word(alloc, out, gap, b"par")?;
            marks(alloc, out, written)?;
            block(alloc, out, body)
        }
        StatementForm::StaticSeq {
            length: cycles,
            marks: written,
            block: body,
        } => {
            timed(alloc, out, gap, *cycles, b"seq")?;
            marks(alloc, out, written)?;
            block(alloc, out, body)
        }
        StatementForm::StaticPar {
            length: cycles,
            marks: written,
            block: body,
        } => {
            timed(alloc, out, gap, *cycles, b"par")?;
            marks(alloc, out, written)?;
            block(alloc, out, body)
        }
        StatementForm::If {
            test,
            comb: group,
            yes,
            no,
        } => {
            word(alloc, out, gap, b"if")?;
            operand(alloc, out, Gap::Space, test)?;
            comb(alloc, out, group)?;
            block(alloc, out, yes)?;
            otherwise(alloc, out, no)
        }
        StatementForm::StaticIf {
            length: cycles,
            test,
            yes,
            no,
        } => {
            timed(alloc, out, gap, *cycles, b"if")?;
            operand(alloc, out, Gap::Space, test)?;
            block(alloc, out, yes)?;
            otherwise(alloc, out, no)
        }
        StatementForm::While {
            test,
            comb: group,
            body,
        } => {
            word(alloc, out, gap, b"while")?;
            operand(alloc, out, Gap::Space, test)?;
            comb(alloc, out, group)?;
            block(alloc, out, body)
        }
        StatementForm::Repeat { count, body } => {
            word(alloc, out, gap, b"repeat")?;
            number(out, Gap::Space, *count)?;
            block(alloc, out, body)
        }
        StatementForm::StaticRepeat {
            length: cycles,
            count,
            body,
        } => {
            timed(alloc, out, gap, *cycles, b"repeat")?;
            number(out, Gap::Space, *count)?;
            block(alloc, out, body)
        }
        StatementForm::Invoke {
            cell,
            inputs,
            outputs,
        } => {
            word(alloc, out, gap, b"invoke")?;
            call(alloc, out, cell, inputs, outputs)
        }
        StatementForm::StaticInvoke {
            length: cycles,
            cell,
            inputs,
            outputs,
        } => {
            timed(alloc, out, gap, *cycles, b"invoke")?;
            call(alloc, out, cell, inputs, outputs)
        }
    }
}
