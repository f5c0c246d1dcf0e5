//! How much of the spare parts what is open of a statement takes at most.

ghost use Rattle.std.specs.Prelude.{◌≡◌, ◌≤◌, ◌+◌, ℕ, max, IfOk};
ghost use Rattle.cx_meaning.specs.Designs as plain;
ghost use Rattle.cx_meaning.specs.Designs.{Placed, no_place};
ghost use Rattle.cx_meaning.specs.Instances.{Path, instance_at, tree_of};
ghost use Rattle.cx_design.specs.PlainForms.{plain_form, plain_statement, plain_statements};
ghost use Rattle.cx_turns.specs.Groups.{HasLength, IsGroupOf};
ghost use Rattle.cx_turns.specs.Machines.{design_of, IsPlan, IsInstance, FormStands, StandsIn, StandIn};
ghost use Rattle.cx_state.specs.Tables.{IsNumber};
ghost use Rattle.cx_weave.specs.Rows.{Covers, CoversBehind, HasRow};
ghost use Rattle.cx_weave.specs.Takes as takes;
ghost use Rattle.cx_weave.specs.Takes.{all_needs, control_need, need, needs};

use cx_design::{Form, Statement};
use cx_text::Memory;
use cx_turns::calls::{group_length, group_row};
use cx_turns::children::{child_number, control_of};
use cx_turns::plan::Plan;
use std::alloc::Global;

/// What strands take: boxes of strands, boxes of arms, the lists of islands, lists of inputs.
#[derive(Clone, Copy, Debug, PartialEq, Eq)]
pub(crate) enum Piece {
    Boxes,
    Arms,
    Islands,
    Inputs,
}

/// A sum, which stops at 2^64 - 1.
fn sum_of(one: u64, other: u64) -> u64
    ensures { (a b : ℕ) → Covers one a → Covers other b → Covers result (a + b) }
{
    one.saturating_add(other)
}

/// The larger of two.
fn most_of(one: u64, other: u64) -> u64
    ensures { (a b : ℕ) → Covers one a → Covers other b → Covers result (max a b) }
{
    one.max(other)
}

fn box_takes(piece: Piece) -> u64
    ensures { result ≡ takes.box_takes piece }
{
    match piece {
        Piece::Boxes => 1,
        Piece::Arms | Piece::Islands | Piece::Inputs => 0,
    }
}

/// A box for each arm, and for each half but the whole.
fn par_takes(piece: Piece, arms: usize) -> u64
    ensures { Covers result (takes.par_takes piece arms) }
{
    match piece {
        Piece::Arms => sum_of(arms as u64, arms as u64),
        Piece::Boxes | Piece::Islands | Piece::Inputs => 0,
    }
}

fn island_takes(piece: Piece) -> u64
    ensures { result ≡ takes.island_takes piece }
{
    match piece {
        Piece::Islands => 1,
        Piece::Boxes | Piece::Arms | Piece::Inputs => 0,
    }
}

fn call_takes(piece: Piece) -> u64
    ensures { result ≡ takes.call_takes piece }
{
    match piece {
        Piece::Boxes | Piece::Inputs => 1,
        Piece::Arms | Piece::Islands => 0,
    }
}

/// What a statement takes around a part that takes so much.
fn around(piece: Piece, inner: u64) -> u64
    ensures { (n : ℕ) → Covers inner n → Covers result (takes.box_takes piece + n) }
{
    sum_of(box_takes(piece), inner)
}

/// What a statement of an instance takes, with what the controls of the instances behind it take.
#[cycle(need)]
fn statement_need(
    piece: Piece,
    plan: &Plan<'_>,
    instance: usize,
    table: &[u64],
    statement: &Statement,
) -> u64
    requires plan { IsPlan plan.now }
    requires instance { IsInstance (design_of plan.now) instance }
    requires table { HasRow (design_of plan.now) table.now }
    requires known { CoversBehind (design_of plan.now) piece table.now instance }
    requires statement { StandsIn (design_of plan.now) instance (plain_statement statement.now) }
    ensures { (path : Path) → IsNumber (design_of plan.now) instance path →
        Covers result
        (need piece (instance_at (tree_of (design_of plan.now)) path) (plain_statement statement.now)) }
{
    form_need(piece, plan, instance, table, &statement.form)
}

#[cycle(need)]
fn form_need(piece: Piece, plan: &Plan<'_>, instance: usize, table: &[u64], form: &Form) -> u64
    requires plan { IsPlan plan.now }
    requires instance { IsInstance (design_of plan.now) instance }
    requires table { HasRow (design_of plan.now) table.now }
    requires known { CoversBehind (design_of plan.now) piece table.now instance }
    requires form { FormStands (design_of plan.now) instance (plain_form form.now) }
    ensures { (path : Path) → IsNumber (design_of plan.now) instance path →
        Covers result (need piece (instance_at (tree_of (design_of plan.now)) path)
        (Placed (plain_form form.now) no_place)) }
{
    match form {
        Form::Empty => 0,
        Form::Enable(group) => enable_need(piece, plan, instance, table, *group),
        Form::Seq(parts) => {
            let most = most_need(piece, plan, instance, table, parts);
            around(piece, most)
        }
        Form::Par(arms) => {
            let all = all_need(piece, plan, instance, table, arms);
            sum_of(par_takes(piece, arms.len()), all)
        }
        Form::If { yes, no, .. } => {
            let one = statement_need(piece, plan, instance, table, yes);
            let other = statement_need(piece, plan, instance, table, no);
            most_of(one, other)
        }
        Form::While { body, .. } => {
            let inner = statement_need(piece, plan, instance, table, body);
            around(piece, inner)
        }
        Form::Repeat { body, .. } => {
            let inner = statement_need(piece, plan, instance, table, body);
            around(piece, inner)
        }
        Form::StaticSeq { .. } => island_takes(piece),
        Form::StaticPar { .. } => island_takes(piece),
        Form::StaticIf { .. } => island_takes(piece),
        Form::StaticRepeat { .. } => island_takes(piece),
        Form::StaticInvoke(_) | Form::Timed(_) => 0,
    }
}

/// The most that one of the parts of a seq takes.
#[cycle(need)]
fn most_need(
    piece: Piece,
    plan: &Plan<'_>,
    instance: usize,
    table: &[u64],
    parts: &[Statement],
) -> u64
    requires plan { IsPlan plan.now }
    requires instance { IsInstance (design_of plan.now) instance }
    requires table { HasRow (design_of plan.now) table.now }
    requires known { CoversBehind (design_of plan.now) piece table.now instance }
    requires parts { StandIn (design_of plan.now) instance (plain_statements parts.now) }
    ensures { (path : Path) → IsNumber (design_of plan.now) instance path →
        Covers result
        (needs piece (instance_at (tree_of (design_of plan.now)) path) (plain_statements parts.now)) }
{
    let mut most = 0u64;
    for part in parts {
        most = most_of(most, statement_need(piece, plan, instance, table, part));
    }
    most
}

/// What the arms of a par take side by side.
#[cycle(need)]
fn all_need(
    piece: Piece,
    plan: &Plan<'_>,
    instance: usize,
    table: &[u64],
    arms: &[Statement],
) -> u64
    requires plan { IsPlan plan.now }
    requires instance { IsInstance (design_of plan.now) instance }
    requires table { HasRow (design_of plan.now) table.now }
    requires known { CoversBehind (design_of plan.now) piece table.now instance }
    requires arms { StandIn (design_of plan.now) instance (plain_statements arms.now) }
    ensures { (path : Path) → IsNumber (design_of plan.now) instance path →
        Covers result
        (all_needs piece (instance_at (tree_of (design_of plan.now)) path) (plain_statements arms.now)) }
{
    let mut all = 0u64;
    for arm in arms {
        all = sum_of(all, statement_need(piece, plan, instance, table, arm));
    }
    all
}

/// What the enable of a group takes: a call, what the child's control takes too.
fn enable_need(piece: Piece, plan: &Plan<'_>, instance: usize, table: &[u64], group: u32) -> u64
    requires plan { IsPlan plan.now }
    requires instance { IsInstance (design_of plan.now) instance }
    requires table { HasRow (design_of plan.now) table.now }
    requires known { CoversBehind (design_of plan.now) piece table.now instance }
    requires group { IsGroupOf (design_of plan.now) instance group }
    ensures { (path : Path) → IsNumber (design_of plan.now) instance path →
        Covers result (need piece (instance_at (tree_of (design_of plan.now)) path)
        (Placed (plain.Enable group) no_place)) }
{
    match group_length(plan, instance, group) {
        Some(_) => island_takes(piece),
        None => dynamic_need(piece, plan, instance, table, group),
    }
}

fn dynamic_need(piece: Piece, plan: &Plan<'_>, instance: usize, table: &[u64], group: u32) -> u64
    requires plan { IsPlan plan.now }
    requires instance { IsInstance (design_of plan.now) instance }
    requires table { HasRow (design_of plan.now) table.now }
    requires known { CoversBehind (design_of plan.now) piece table.now instance }
    requires group { IsGroupOf (design_of plan.now) instance group }
    requires dynamic { HasLength (design_of plan.now) instance group None }
    ensures { (path : Path) → IsNumber (design_of plan.now) instance path →
        Covers result (need piece (instance_at (tree_of (design_of plan.now)) path)
        (Placed (plain.Enable group) no_place)) }
{
    let row = group_row(plan, instance, group);
    match row.callee {
        Some(cell) => {
            let number = child_number(plan, instance, cell);
            sum_of(call_takes(piece), table[number])
        }
        None => 0,
    }
}

/// What the control of main takes; want of memory where that is more than any memory has.
pub(crate) fn main_need(alloc: Global, piece: Piece, plan: &Plan<'_>) -> Result<usize, Memory>
    requires plan { IsPlan plan.now }
    ensures { IfOk result (λ most. control_need piece (tree_of (design_of plan.now)) ≤ most) }
{
    let count = plan.table.rows.len();
    let mut table = Vec::new(alloc);
    table.resize(count, 0u64)?;
    for behind in 0..count {
        let instance = count - 1 - behind;
        let control = control_of(plan, instance);
        table[instance] = statement_need(piece, plan, instance, &table, control);
    }
    let most = table[0];
    if most == u64::MAX {
        return Err(Memory);
    }
    Ok(most as usize)
}
