//! Control in a promoted tree: runs of enables of promotable groups are static seqs.

ghost use Rattle.std.specs.Prelude.{◌≡◌, IfOk, true, false, option_map};
ghost use Rattle.cx_ast.specs.PlainStatements.{plain_block, plain_form, plain_statement, plain_statements, else_of, statements_of};
ghost use Rattle.cx_promotion.specs.Rewriting as promotion;
ghost use Rattle.cx_promote.specs.Lengths.{long_in};

use crate::by_name::Lengths;
use crate::pieces::Pieces;
use cx_ast::{Block, StatementForm, StatementItem};
use cx_copies::{
    SameNames, copied_attributes, copied_form, copied_marks, copied_option, named_operand,
};
use cx_text::Memory;
use std::alloc::Global;

/// A block below which so many levels of blocks may stand. Runs are cut where its statements run one after another and another
/// block may stand below.
#[cycle(control)]
pub(crate) fn promoted_block(
    alloc: Global,
    lengths: &Lengths,
    below: u32,
    in_order: bool,
    block: &Block,
) -> Result<Block, Memory>
    ensures value { IfOk result (λ b.
        plain_block b ≡ promotion.promote_block (long_in lengths.now) below in_order (plain_block block.now)) }
{
    let statements = block.statements.as_slice();
    let statements = if in_order && below > 0 {
        cut_statements(alloc, lengths, below, statements)?
    } else {
        promoted_statements(alloc, lengths, below, statements)?
    };
    Ok(Block {
        statements,
        place: block.place,
    })
}

/// Statements with their runs cut.
#[cycle(control)]
fn cut_statements(
    alloc: Global,
    lengths: &Lengths,
    below: u32,
    items: &[StatementItem],
) -> Result<Vec<StatementItem>, Memory>
    ensures value { IfOk result (λ list. statements_of (plain_statements list.items) ≡
        promotion.cut_if (long_in lengths.now) true
        (promotion.promote_all (long_in lengths.now) below (statements_of (plain_statements items.now)))) }
{
    let mut pieces = Pieces::new(alloc);
    for item in items {
        let statement = promoted_statement(alloc, lengths, below, item)?;
        let is_run = lengths.is_run(&statement);
        pieces.add(alloc, is_run, statement)?;
    }
    pieces.close(alloc)?;
    Ok(pieces.done)
}

#[cycle(control)]
fn promoted_statements(
    alloc: Global,
    lengths: &Lengths,
    below: u32,
    items: &[StatementItem],
) -> Result<Vec<StatementItem>, Memory>
    ensures value { IfOk result (λ list. statements_of (plain_statements list.items) ≡
        promotion.promote_all (long_in lengths.now) below (statements_of (plain_statements items.now))) }
{
    let mut promoted = Vec::with_capacity(alloc, items.len())?;
    for item in items {
        promoted.push(promoted_statement(alloc, lengths, below, item)?)?;
    }
    Ok(promoted)
}

#[cycle(control)]
fn promoted_statement(
    alloc: Global,
    lengths: &Lengths,
    below: u32,
    item: &StatementItem,
) -> Result<StatementItem, Memory>
    ensures value { IfOk result (λ s. plain_statement s ≡
        promotion.promote_statement (long_in lengths.now) below (plain_statement item.now)) }
{
    let attributes = copied_attributes(alloc, item.attributes.as_slice())?;
    let form = promoted_form(alloc, lengths, below, &item.form)?;
    Ok(StatementItem {
        attributes,
        form,
        place: item.place,
    })
}

#[cycle(control)]
#[tactic(auto, using(crate::proofs::OperandLemmas::same_operand))]
fn promoted_form(
    alloc: Global,
    lengths: &Lengths,
    below: u32,
    form: &StatementForm,
) -> Result<StatementForm, Memory>
    ensures value { IfOk result
        (λ f. plain_form f ≡ promotion.promote_form (long_in lengths.now) below (plain_form form.now)) }
{
    let inside = below.saturating_sub(1);
    match form {
        StatementForm::Seq { marks, block } => {
            let marks = copied_marks(alloc, marks)?;
            let block = promoted_block(alloc, lengths, inside, true, block)?;
            Ok(StatementForm::Seq { marks, block })
        }
        StatementForm::Par { marks, block } => {
            let marks = copied_marks(alloc, marks)?;
            let block = promoted_block(alloc, lengths, inside, false, block)?;
            Ok(StatementForm::Par { marks, block })
        }
        StatementForm::If {
            test,
            comb,
            yes,
            no,
        } => {
            let test = named_operand(alloc, &SameNames, test)?;
            let comb = copied_option(alloc, comb)?;
            let yes = promoted_block(alloc, lengths, inside, true, yes)?;
            let no = promoted_else(alloc, lengths, inside, no)?;
            Ok(StatementForm::If {
                test,
                comb,
                yes,
                no,
            })
        }
        StatementForm::While { test, comb, body } => {
            let test = named_operand(alloc, &SameNames, test)?;
            let comb = copied_option(alloc, comb)?;
            let body = promoted_block(alloc, lengths, inside, true, body)?;
            Ok(StatementForm::While { test, comb, body })
        }
        StatementForm::Repeat { count, body } => {
            let count = *count;
            let body = promoted_block(alloc, lengths, inside, true, body)?;
            Ok(StatementForm::Repeat { count, body })
        }
        StatementForm::Enable { .. }
        | StatementForm::StaticSeq { .. }
        | StatementForm::StaticPar { .. }
        | StatementForm::StaticIf { .. }
        | StatementForm::StaticRepeat { .. }
        | StatementForm::Invoke { .. }
        | StatementForm::StaticInvoke { .. } => copied_form(alloc, form),
    }
}

#[cycle(control)]
fn promoted_else(
    alloc: Global,
    lengths: &Lengths,
    below: u32,
    block: &Option<Block>,
) -> Result<Option<Block>, Memory>
    ensures value { IfOk result (λ b. else_of (option_map plain_block b) ≡
        promotion.promote_else (long_in lengths.now) below (else_of (option_map plain_block block.now))) }
{
    match block {
        None => Ok(None),
        Some(block) => Ok(Some(promoted_block(alloc, lengths, below, true, block)?)),
    }
}
