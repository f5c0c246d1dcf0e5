//! Control, with other names of cells.

ghost use Rattle.std.specs.Prelude.{◌≡◌, IfOk, option_map};
ghost use Rattle.cx_ast.specs.PlainStatements as plain;
ghost use Rattle.cx_ast.specs.PlainStatements.{plain_block, plain_form, plain_statement, plain_statements};
ghost use Rattle.cx_copies.specs.Naming as naming;

use crate::names::CellNames;
use crate::operands::{named_binds, named_operand};
use crate::parts::{copied_attributes, copied_marks, copied_name, copied_option};
use cx_ast::{Block, Mark, StatementForm, StatementItem};
use cx_text::{Memory, Name};
use std::alloc::Global;

/// A block, with other names of cells.
#[cycle(control)]
pub fn named_block<N: CellNames>(alloc: Global, names: &N, block: &Block) -> Result<Block, Memory>
    ensures value { IfOk result
        (λ named. plain_block named ≡ naming.named_block (N.renaming names.now) (plain_block block.now)) }
{
    let statements = named_statements(alloc, names, block.statements.as_slice())?;
    Ok(Block {
        statements,
        place: block.place,
    })
}

#[cycle(control)]
fn named_statements<N: CellNames>(
    alloc: Global,
    names: &N,
    statements: &[StatementItem],
) -> Result<Vec<StatementItem>, Memory>
    ensures value { IfOk result (λ named. plain.statements_of (plain_statements named.items) ≡
        naming.named_statements (N.renaming names.now)
        (plain.statements_of (plain_statements statements.now))) }
{
    let mut named = Vec::with_capacity(alloc, statements.len())?;
    for statement in statements {
        named.push(named_statement(alloc, names, statement)?)?;
    }
    Ok(named)
}

/// A statement, with other names of cells.
#[cycle(control)]
pub fn named_statement<N: CellNames>(
    alloc: Global,
    names: &N,
    statement: &StatementItem,
) -> Result<StatementItem, Memory>
    ensures value { IfOk result (λ named.
        plain_statement named ≡ naming.named_statement (N.renaming names.now) (plain_statement statement.now)) }
{
    let attributes = copied_attributes(alloc, statement.attributes.as_slice())?;
    let form = named_form(alloc, names, &statement.form)?;
    Ok(StatementItem {
        attributes,
        form,
        place: statement.place,
    })
}

#[cycle(control)]
fn named_else<N: CellNames>(
    alloc: Global,
    names: &N,
    block: &Option<Block>,
) -> Result<Option<Block>, Memory>
    ensures value { IfOk result (λ named. plain.else_of (option_map plain_block named) ≡
        naming.named_else (N.renaming names.now) (plain.else_of (option_map plain_block block.now))) }
{
    match block {
        None => Ok(None),
        Some(block) => Ok(Some(named_block(alloc, names, block)?)),
    }
}

#[cycle(control)]
pub(crate) fn named_form<N: CellNames>(
    alloc: Global,
    names: &N,
    form: &StatementForm,
) -> Result<StatementForm, Memory>
    ensures value { IfOk result
        (λ named. plain_form named ≡ naming.named_form (N.renaming names.now) (plain_form form.now)) }
{
    match form {
        StatementForm::Enable { group, marks } => enable(alloc, group, marks),
        StatementForm::Seq { marks, block } => {
            let marks = copied_marks(alloc, marks)?;
            let block = named_block(alloc, names, block)?;
            Ok(StatementForm::Seq { marks, block })
        }
        StatementForm::Par { marks, block } => {
            let marks = copied_marks(alloc, marks)?;
            let block = named_block(alloc, names, block)?;
            Ok(StatementForm::Par { marks, block })
        }
        StatementForm::StaticSeq {
            length,
            marks,
            block,
        } => {
            let length = *length;
            let marks = copied_marks(alloc, marks)?;
            let block = named_block(alloc, names, block)?;
            Ok(StatementForm::StaticSeq {
                length,
                marks,
                block,
            })
        }
        StatementForm::StaticPar {
            length,
            marks,
            block,
        } => {
            let length = *length;
            let marks = copied_marks(alloc, marks)?;
            let block = named_block(alloc, names, block)?;
            Ok(StatementForm::StaticPar {
                length,
                marks,
                block,
            })
        }
        StatementForm::If {
            test,
            comb,
            yes,
            no,
        } => {
            let test = named_operand(alloc, names, test)?;
            let comb = copied_option(alloc, comb)?;
            let yes = named_block(alloc, names, yes)?;
            let no = named_else(alloc, names, no)?;
            Ok(StatementForm::If {
                test,
                comb,
                yes,
                no,
            })
        }
        StatementForm::StaticIf {
            length,
            test,
            yes,
            no,
        } => {
            let length = *length;
            let test = named_operand(alloc, names, test)?;
            let yes = named_block(alloc, names, yes)?;
            let no = named_else(alloc, names, no)?;
            Ok(StatementForm::StaticIf {
                length,
                test,
                yes,
                no,
            })
        }
        StatementForm::While { test, comb, body } => {
            let test = named_operand(alloc, names, test)?;
            let comb = copied_option(alloc, comb)?;
            let body = named_block(alloc, names, body)?;
            Ok(StatementForm::While { test, comb, body })
        }
        StatementForm::Repeat { count, body } => {
            let count = *count;
            let body = named_block(alloc, names, body)?;
            Ok(StatementForm::Repeat { count, body })
        }
        StatementForm::StaticRepeat {
            length,
            count,
            body,
        } => {
            let length = *length;
            let count = *count;
            let body = named_block(alloc, names, body)?;
            Ok(StatementForm::StaticRepeat {
                length,
                count,
                body,
            })
        }
        StatementForm::Invoke {
            cell,
            inputs,
            outputs,
        } => {
            let cell = names.name(alloc, cell)?;
            let inputs = named_binds(alloc, names, inputs)?;
            let outputs = named_binds(alloc, names, outputs)?;
            Ok(StatementForm::Invoke {
                cell,
                inputs,
                outputs,
            })
        }
        StatementForm::StaticInvoke {
            length,
            cell,
            inputs,
            outputs,
        } => {
            let length = *length;
            let cell = names.name(alloc, cell)?;
            let inputs = named_binds(alloc, names, inputs)?;
            let outputs = named_binds(alloc, names, outputs)?;
            Ok(StatementForm::StaticInvoke {
                length,
                cell,
                inputs,
                outputs,
            })
        }
    }
}

/// The enable of a group names no cell.
fn enable(alloc: Global, group: &Name, marks: &[Mark]) -> Result<StatementForm, Memory>
    ensures value { IfOk result (λ form. plain_form form ≡ plain.Enable group.now marks.now) }
{
    let group = copied_name(alloc, group)?;
    let marks = copied_marks(alloc, marks)?;
    Ok(StatementForm::Enable { group, marks })
}
