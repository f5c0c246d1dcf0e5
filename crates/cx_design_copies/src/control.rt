//! Control once more, with other ports and groups.

ghost use Rattle.std.specs.Prelude.{◌≡◌, IfOk};
ghost use Rattle.cx_design.specs.PlainForms.{plain_form, plain_statement, plain_statements};
ghost use Rattle.cx_rewrites.specs.Moving.{moved_statement as statement_moved};
ghost use Rattle.cx_flattening.specs.Copies as copies;

use crate::moves::{GroupMoves, PortMoves, SameGroups, moved_placed};
use cx_design::{Form, Statement};
use cx_text::Memory;
use std::alloc::Global;

/// The statement with other ports.
pub fn moved_statement<M: PortMoves>(
    alloc: Global,
    moves: &M,
    statement: &Statement,
) -> Result<Statement, Memory>
    ensures value { IfOk result
        (λ s. plain_statement s ≡ statement_moved (M.moving moves.now) (plain_statement statement.now)) }
{
    copied_statement(alloc, moves, &SameGroups, statement)
}

/// The comb group in place of a comb group, where there is one.
fn copied_comb<G: GroupMoves>(groups: &G, comb: Option<u32>) -> Result<Option<u32>, Memory>
    ensures value { IfOk result (λ copy. copy ≡ copies.copied_comb (G.numbering groups.now) comb) }
{
    match comb {
        Some(group) => Ok(Some(groups.group(group)?)),
        None => Ok(None),
    }
}

/// A copy of the statement, with other ports and groups.
#[cycle(statement)]
pub fn copied_statement<M: PortMoves, G: GroupMoves>(
    alloc: Global,
    moves: &M,
    groups: &G,
    statement: &Statement,
) -> Result<Statement, Memory>
    ensures value { IfOk result (λ s. plain_statement s ≡
        copies.copied_statement (M.moving moves.now) (G.numbering groups.now) (plain_statement statement.now)) }
{
    let form = copied_form(alloc, moves, groups, &statement.form)?;
    let place = statement.place;
    Ok(Statement { form, place })
}

/// A copy of the form.
#[cycle(statement)]
fn copied_form<M: PortMoves, G: GroupMoves>(
    alloc: Global,
    moves: &M,
    groups: &G,
    form: &Form,
) -> Result<Form, Memory>
    ensures value { IfOk result (λ f.
        plain_form f ≡ copies.copied_form (M.moving moves.now) (G.numbering groups.now) (plain_form form.now)) }
{
    match form {
        Form::Empty => Ok(Form::Empty),
        Form::Enable(group) => Ok(Form::Enable(groups.group(*group)?)),
        Form::Seq(parts) => Ok(Form::Seq(copied_parts(alloc, moves, groups, parts)?)),
        Form::Par(arms) => Ok(Form::Par(copied_parts(alloc, moves, groups, arms)?)),
        Form::If {
            test,
            comb,
            yes,
            no,
        } => Ok(Form::If {
            test: moved_placed(moves, *test)?,
            comb: copied_comb(groups, *comb)?,
            yes: copied_box(alloc, moves, groups, yes)?,
            no: copied_box(alloc, moves, groups, no)?,
        }),
        Form::While { test, comb, body } => Ok(Form::While {
            test: moved_placed(moves, *test)?,
            comb: copied_comb(groups, *comb)?,
            body: copied_box(alloc, moves, groups, body)?,
        }),
        Form::Repeat { count, body } => Ok(Form::Repeat {
            count: *count,
            body: copied_box(alloc, moves, groups, body)?,
        }),
        Form::StaticSeq { length, parts } => Ok(Form::StaticSeq {
            length: *length,
            parts: copied_parts(alloc, moves, groups, parts)?,
        }),
        Form::StaticPar { length, parts } => Ok(Form::StaticPar {
            length: *length,
            parts: copied_parts(alloc, moves, groups, parts)?,
        }),
        Form::StaticIf {
            length,
            test,
            yes,
            no,
        } => Ok(Form::StaticIf {
            length: *length,
            test: moved_placed(moves, *test)?,
            yes: copied_box(alloc, moves, groups, yes)?,
            no: copied_box(alloc, moves, groups, no)?,
        }),
        Form::StaticRepeat {
            length,
            count,
            body,
        } => Ok(Form::StaticRepeat {
            length: *length,
            count: *count,
            body: copied_box(alloc, moves, groups, body)?,
        }),
        Form::StaticInvoke(invoke) => Ok(Form::StaticInvoke(*invoke)),
        Form::Timed(island) => Ok(Form::Timed(*island)),
    }
}

/// A copy of the statement, in a box.
#[cycle(statement)]
fn copied_box<M: PortMoves, G: GroupMoves>(
    alloc: Global,
    moves: &M,
    groups: &G,
    statement: &Statement,
) -> Result<Box<Statement>, Memory>
    ensures value { IfOk result (λ s. plain_statement s.value ≡
        copies.copied_statement (M.moving moves.now) (G.numbering groups.now) (plain_statement statement.now)) }
{
    let statement = copied_statement(alloc, moves, groups, statement)?;
    Ok(Box::new(alloc, statement)?)
}

/// Copies of the statements, in order.
#[cycle(statement)]
fn copied_parts<M: PortMoves, G: GroupMoves>(
    alloc: Global,
    moves: &M,
    groups: &G,
    parts: &[Statement],
) -> Result<Vec<Statement>, Memory>
    ensures value { IfOk result (λ all. plain_statements all.items ≡
        copies.copied_statements (M.moving moves.now) (G.numbering groups.now) (plain_statements parts.now)) }
{
    let mut all = Vec::with_capacity(alloc, parts.len())?;
    for statement in parts {
        all.push(copied_statement(alloc, moves, groups, statement)?)?;
    }
    Ok(all)
}
