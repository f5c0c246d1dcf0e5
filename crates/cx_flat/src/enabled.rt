//! The groups that the control of a static child enables, of which each invoke has copies.

ghost use Rattle.std.specs.Prelude.{◌≡◌, ◌≤◌, ◌++◌, [], ℕ, false, IfOk, map};
ghost use Rattle.std.specs.List.{range_with_len};
ghost use Rattle.cx_meaning.specs.Control.{groups_in, groups_in_all, groups_of, with_comb};
ghost use Rattle.cx_rules.specs.Counts.{is_one_of as is_one_of_all};
ghost use Rattle.cx_design.specs.PlainForms.{plain_form, plain_statement, plain_statements};
ghost use Rattle.cx_flattening.specs.Copies.{count_if, enabled_below};
ghost use Rattle.cx_flat.specs.Enabling.{below_by, copy_by};

use cx_design::{Form, Statement};
use cx_design_copies::{GroupMoves, sum};
use cx_text::Memory;
use std::alloc::Global;

/// For each number how many groups of smaller numbers are enabled, and how many are where the list ends.
#[derive(Debug, Drop)]
pub(crate) struct Enabled {
    pub below: Vec<u32>,
    pub count: u32,
}

/// How many of the groups that a statement enables are below each number.
pub(crate) fn enabled_counts(alloc: Global, control: &Statement) -> Result<Enabled, Memory>
    ensures value { IfOk result (λ e. (g : ℕ)
        → below_by e.below.items e.count g ≡ enabled_below (groups_of (plain_statement control.now)) g) }
{
    let groups = groups_enabled(alloc, control)?;
    let bound = bound(&groups)?;
    let below = counts_below(alloc, &groups, bound)?;
    let count = count_below(&groups, bound)?;
    Ok(Enabled { below, count })
}

/// The groups that a statement enables, in its order.
pub(crate) fn groups_enabled(alloc: Global, control: &Statement) -> Result<Vec<u32>, Memory>
    ensures value { IfOk result (λ all. all.items ≡ groups_of (plain_statement control.now)) }
{
    with_groups(Vec::new(alloc), control)
}

/// Whether a group is enabled.
pub(crate) fn is_enabled(groups: &[u32], group: u32) -> bool
    ensures value { result ≡ is_one_of_all group groups.now }
{
    for enabled in groups {
        if *enabled == group {
            return true;
        }
    }
    false
}

/// The number of the copy of a group, where that of the first is given.
pub(crate) fn copy_number(first: u32, enabled: &Enabled, group: u32) -> Result<u32, Memory>
    ensures value { IfOk result (λ n. n ≡ copy_by first enabled.now group) }
{
    match enabled.below.get(group as usize) {
        Some(below) => sum(first, *below),
        None => sum(first, enabled.count),
    }
}

/// Gives each group the number of its copy, where that of the first is given.
#[derive(Clone, Copy)]
pub(crate) struct CopyNumbers<'a> {
    pub first: u32,
    pub enabled: &'a Enabled,
}

impl GroupMoves for CopyNumbers<'_> {
    ghost use Rattle.cx_flat.specs.Enabling.{copy_by};

    ghost numbering = { λ copies. copy_by copies.first copies.enabled.now };

    fn group(&self, group: u32) -> Result<u32, Memory> {
        copy_number(self.first, self.enabled, group)
    }
}

/// A number above those of all groups.
fn bound(groups: &[u32]) -> Result<u32, Memory>
    ensures value { IfOk result (λ bound. (g : ℕ) → bound ≤ g → is_one_of_all g groups.now ≡ false) }
{
    let mut bound = 0u32;
    for group in groups {
        bound = bound.max(sum(*group, 1)?);
    }
    Ok(bound)
}

/// For each number below a bound how many groups of smaller numbers are enabled.
fn counts_below(alloc: Global, groups: &[u32], bound: u32) -> Result<Vec<u32>, Memory>
    ensures value { IfOk result (λ all. all.items ≡ map (enabled_below groups.now) (range_with_len 0 bound)) }
{
    let mut all = Vec::new(alloc);
    let mut count = 0u32;
    for group in 0..bound {
        all.push(count)?;
        count = with_one(count, is_enabled(groups, group))?;
    }
    Ok(all)
}

/// How many groups of numbers below a bound are enabled.
fn count_below(groups: &[u32], bound: u32) -> Result<u32, Memory>
    ensures value { IfOk result (λ count. count ≡ enabled_below groups.now bound) }
{
    let mut count = 0u32;
    for group in 0..bound {
        count = with_one(count, is_enabled(groups, group))?;
    }
    Ok(count)
}

/// A count, and one more where told.
fn with_one(count: u32, more: bool) -> Result<u32, Memory>
    ensures value { IfOk result (λ n. n ≡ count_if more count) }
{
    if more { sum(count, 1) } else { Ok(count) }
}

/// Appends the groups that a statement enables.
#[cycle(statement)]
fn with_groups(front: Vec<u32>, statement: &Statement) -> Result<Vec<u32>, Memory>
    ensures value { IfOk result (λ all. all.items ≡ front.items ++ groups_of (plain_statement statement.now)) }
{
    with_groups_in(front, &statement.form)
}

/// Appends the groups that a form enables.
#[cycle(statement)]
fn with_groups_in(front: Vec<u32>, form: &Form) -> Result<Vec<u32>, Memory>
    ensures value { IfOk result (λ all. all.items ≡ front.items ++ groups_in (plain_form form.now)) }
{
    match form {
        Form::Empty | Form::StaticInvoke(_) | Form::Timed(_) => Ok(front),
        Form::Enable(group) => with_group(front, Some(*group)),
        Form::Seq(parts) | Form::Par(parts) => with_groups_in_all(front, parts),
        Form::StaticSeq { parts, .. } | Form::StaticPar { parts, .. } => {
            with_groups_in_all(front, parts)
        }
        Form::If { comb, yes, no, .. } => {
            let all = with_group(front, *comb)?;
            let all = with_groups(all, yes)?;
            with_groups(all, no)
        }
        Form::StaticIf { yes, no, .. } => {
            let all = with_groups(front, yes)?;
            with_groups(all, no)
        }
        Form::While { comb, body, .. } => {
            let all = with_group(front, *comb)?;
            with_groups(all, body)
        }
        Form::Repeat { body, .. } | Form::StaticRepeat { body, .. } => with_groups(front, body),
    }
}

/// Appends the groups that statements enable.
#[cycle(statement)]
fn with_groups_in_all(front: Vec<u32>, parts: &[Statement]) -> Result<Vec<u32>, Memory>
    ensures value { IfOk result (λ all. all.items ≡ front.items ++ groups_in_all (plain_statements parts.now)) }
{
    let mut all = front;
    for statement in parts {
        all = with_groups(all, statement)?;
    }
    Ok(all)
}

/// Appends a group, where there is one.
fn with_group(front: Vec<u32>, group: Option<u32>) -> Result<Vec<u32>, Memory>
    ensures value { IfOk result (λ all. all.items ≡ front.items ++ with_comb group []) }
{
    let mut all = front;
    if let Some(group) = group {
        all.push(group)?;
    }
    Ok(all)
}
