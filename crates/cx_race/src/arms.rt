//! The arms of a statement, and the groups, conditions and static invokes of each of them.

ghost use Rattle.std.specs.Prelude.{◌≡◌, IfOk, map};
ghost use Rattle.cx_graphs.specs.Graphs.{edges_of};
ghost use Rattle.cx_meaning.specs.Control.{groups_of};
ghost use Rattle.cx_rules.specs.RaceRule.{arms_of, enabled_in};
ghost use Rattle.cx_design.specs.PlainForms.{plain_component, plain_form, plain_statement};
ghost use Rattle.cx_race.specs.Cells.{invoked_by, met_by};

use crate::invokes::{invoked, met};
use crate::{enabled, groups};
use cx_design::{Component, Form, Statement};
use cx_text::Memory;
use std::alloc::Global;

/// The arms of a par or a static par; other statements have none.
pub fn arms(form: &Form) -> &[Statement]
    ensures value { map plain_statement result.now ≡ arms_of (plain_form form.now) }
{
    match form {
        Form::Par(arms) => arms.as_slice(),
        Form::StaticPar { parts, .. } => parts.as_slice(),
        Form::Empty
        | Form::Enable(_)
        | Form::Seq(_)
        | Form::If { .. }
        | Form::While { .. }
        | Form::Repeat { .. }
        | Form::StaticSeq { .. }
        | Form::StaticIf { .. }
        | Form::StaticRepeat { .. }
        | Form::StaticInvoke(_)
        | Form::Timed(_) => &[],
    }
}

/// The groups that each arm enables, with the comb groups of its conditions.
pub fn group_lists(alloc: Global, arms: &[Statement]) -> Result<Vec<Vec<u32>>, Memory>
    ensures value { IfOk result (λ lists. edges_of lists.items ≡ map groups_of (map plain_statement arms.now)) }
{
    let mut lists = Vec::new(alloc);
    for arm in arms {
        lists.push(groups(alloc, arm)?)?;
    }
    Ok(lists)
}

/// The cells that each arm's static invokes drive.
pub fn invoked_lists(
    alloc: Global,
    part: &Component,
    arms: &[Statement],
) -> Result<Vec<Vec<u32>>, Memory>
    ensures value { IfOk result (λ lists.
        edges_of lists.items ≡ map (invoked_by (plain_component part.now)) (map plain_statement arms.now)) }
{
    let mut lists = Vec::new(alloc);
    for arm in arms {
        lists.push(invoked(alloc, part, arm)?)?;
    }
    Ok(lists)
}

/// The cells of each arm's conditions, and those that its static invokes drive or name.
pub fn met_lists(
    alloc: Global,
    part: &Component,
    arms: &[Statement],
) -> Result<Vec<Vec<u32>>, Memory>
    ensures value { IfOk result (λ lists.
        edges_of lists.items ≡ map (met_by (plain_component part.now)) (map plain_statement arms.now)) }
{
    let mut lists = Vec::new(alloc);
    for arm in arms {
        lists.push(met(alloc, part, arm)?)?;
    }
    Ok(lists)
}

/// The groups that each arm enables.
pub fn enabled_lists(alloc: Global, arms: &[Statement]) -> Result<Vec<Vec<u32>>, Memory>
    ensures value { IfOk result (λ lists. edges_of lists.items ≡ map enabled_in (map plain_statement arms.now)) }
{
    let mut lists = Vec::new(alloc);
    for arm in arms {
        lists.push(enabled(alloc, arm)?)?;
    }
    Ok(lists)
}
