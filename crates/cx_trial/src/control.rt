//! The control: the arms, and the stores behind them.

ghost use Rattle.std.specs.Prelude.{◌≡◌, ◌<◌, ◌++◌, ◌∷◌, [], IfOk, map};
ghost use Rattle.cx_ast.specs.PlainStatements.{plain_block, plain_statement};
ghost use Rattle.cx_trial.specs.TrialControl as trial;

use crate::groups::{ARMS, STEPS};
use crate::parts::{PLACE, indexed, step_name};
use cx_ast::{Block, StatementForm, StatementItem};
use cx_text::{Memory, Name};
use std::alloc::Global;

/// The arms of one inner `par`.
const TOGETHER: u64 = 4;

/// Statements between braces.
fn block_of(statements: Vec<StatementItem>) -> Block
    ensures { plain_block result ≡ trial.block_of (map plain_statement statements.items) }
{
    Block {
        statements,
        place: PLACE,
    }
}

fn enable(alloc: Global, group: Name) -> StatementItem
    ensures { plain_statement result ≡ trial.enable group }
{
    StatementItem {
        attributes: Vec::new(alloc),
        form: StatementForm::Enable {
            group,
            marks: Vec::new(alloc),
        },
        place: PLACE,
    }
}

fn seq_of(alloc: Global, statements: Vec<StatementItem>) -> StatementItem
    ensures { plain_statement result ≡ trial.seq_of (map plain_statement statements.items) }
{
    StatementItem {
        attributes: Vec::new(alloc),
        form: StatementForm::Seq {
            marks: Vec::new(alloc),
            block: block_of(statements),
        },
        place: PLACE,
    }
}

fn par_of(alloc: Global, statements: Vec<StatementItem>) -> StatementItem
    ensures { plain_statement result ≡ trial.par_of (map plain_statement statements.items) }
{
    StatementItem {
        attributes: Vec::new(alloc),
        form: StatementForm::Par {
            marks: Vec::new(alloc),
            block: block_of(statements),
        },
        place: PLACE,
    }
}

/// A group that goes so many times.
fn repeated(alloc: Global, count: u64, group: Name) -> Result<StatementItem, Memory>
    ensures { IfOk result (λ statement. plain_statement statement ≡ trial.repeated count group) }
{
    let mut body = Vec::new(alloc);
    body.push(enable(alloc, group))?;
    Ok(StatementItem {
        attributes: Vec::new(alloc),
        form: StatementForm::Repeat {
            count,
            body: block_of(body),
        },
        place: PLACE,
    })
}

/// The enables of two groups.
fn enables(alloc: Global, first: Name, second: Name) -> Result<Vec<StatementItem>, Memory>
    ensures { IfOk result (λ list. map plain_statement list.items ≡ trial.enable first ∷ trial.enable second ∷ []) }
{
    let mut list = Vec::new(alloc);
    list.push(enable(alloc, first))?;
    list.push(enable(alloc, second))?;
    Ok(list)
}

/// How often the group of a step goes, where it goes by the seed.
fn rounds(seed: u64, arm: u64, step: u64) -> u64
    requires arm { arm < 16 }
    requires step { step < 8 }
    ensures { result ≡ trial.rounds seed arm step }
{
    ((u128::from(seed) + u128::from(arm + step)) % 4) as u64
}

/// A step of an arm.
fn step_of(alloc: Global, seed: u64, arm: u64, step: u64) -> Result<StatementItem, Memory>
    requires arm { arm < 16 }
    requires step { step < 8 }
    ensures { IfOk result (λ statement. plain_statement statement ≡ trial.step_of seed arm step) }
{
    let group = step_name(alloc, arm, step)?;
    match step % 4 {
        0 => Ok(enable(alloc, group)),
        1 => repeated(alloc, rounds(seed, arm, step), group),
        2 => {
            let again = step_name(alloc, arm, step)?;
            Ok(seq_of(alloc, enables(alloc, group, again)?))
        }
        _ => {
            let beside = indexed(alloc, b"h", arm)?;
            Ok(par_of(alloc, enables(alloc, group, beside)?))
        }
    }
}

/// An arm: its steps, one after another.
#[tactic(auto, using(crate::proofs::LoopLemmas::ended))]
fn arm_of(alloc: Global, seed: u64, arm: u64) -> Result<StatementItem, Memory>
    requires arm { arm < 16 }
    ensures { IfOk result (λ statement. plain_statement statement ≡ trial.arm_of seed arm) }
{
    let mut steps = Vec::new(alloc);
    for step in 0..STEPS {
        steps.push(step_of(alloc, seed, arm, step)?)?;
    }
    Ok(seq_of(alloc, steps))
}

/// Four arms beside each other.
#[tactic(auto, using(crate::proofs::LoopLemmas::ended))]
fn quarter_of(alloc: Global, seed: u64, quarter: u64) -> Result<StatementItem, Memory>
    requires quarter { quarter < 4 }
    ensures { IfOk result (λ statement. plain_statement statement ≡ trial.quarter_of seed quarter) }
{
    let mut arms = Vec::new(alloc);
    for arm in 0..TOGETHER {
        arms.push(arm_of(alloc, seed, TOGETHER * quarter + arm)?)?;
    }
    Ok(par_of(alloc, arms))
}

/// All arms, four and four beside each other.
#[tactic(auto, using(crate::proofs::LoopLemmas::ended))]
fn all_arms(alloc: Global, seed: u64) -> Result<StatementItem, Memory>
    ensures { IfOk result (λ statement. plain_statement statement ≡ trial.all_arms seed) }
{
    let mut quarters = Vec::new(alloc);
    for quarter in 0..ARMS / TOGETHER {
        quarters.push(quarter_of(alloc, seed, quarter)?)?;
    }
    Ok(par_of(alloc, quarters))
}

/// The control of main: all arms, and then the stores, one after another.
#[tactic(auto, using(crate::proofs::LoopLemmas::ended))]
pub(crate) fn whole_control(alloc: Global, seed: u64) -> Result<Block, Memory>
    ensures { IfOk result (λ block. plain_block block ≡ trial.whole_control seed) }
{
    let mut parts = Vec::new(alloc);
    parts.push(all_arms(alloc, seed)?)?;
    for arm in 0..ARMS {
        parts.push(enable(alloc, indexed(alloc, b"t", arm)?))?;
    }
    let mut whole = Vec::new(alloc);
    whole.push(seq_of(alloc, parts))?;
    Ok(block_of(whole))
}
