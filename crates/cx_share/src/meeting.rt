//! Which cells of a component meet.

ghost use Rattle.std.specs.Prelude.{◌≡◌, IfOk, OnOk, length, map};
ghost use Rattle.cx_meaning.specs.Designs.{list_of};
ghost use Rattle.cx_design.specs.PlainForms.{plain_component, plain_form, plain_statements};
ghost use Rattle.cx_design_parts.specs.Items.{plain_visited};
ghost use Rattle.cx_sharing.specs.Uses.{assigns_use, comb_uses, test_uses};
ghost use Rattle.cx_sharing.specs.Meeting.{arms_meet, form_meets, has_both};
ghost use Rattle.cx_share.specs.Marks.{Adds};
ghost use Rattle.cx_share.specs.Tables.{IsMeeting, IsTable, Joins, pairs_of};
ghost use Rattle.cx_share.specs.Using.{group_marks};

use crate::marks::{Marks, add_port};
use crate::pairs::{add_earlier, add_later, add_pairs, no_pairs};
use crate::using::{add_group, used_by_arms, used_by_groups};
use cx_design::{Component, Form, Statement};
use cx_design_parts::{Visited, statements};
use cx_meaning::PlacedPort;
use cx_text::Memory;
use std::alloc::Global;

/// For each cell of a component the cells that it meets.
pub(crate) fn meeting(alloc: Global, part: &Component) -> Result<Vec<Marks>, Memory>
    ensures value { IfOk result (λ table. IsMeeting (plain_component part.now) table.items) }
{
    let used = used_by_groups(alloc, part)?;
    let statements = statements(alloc, part)?;
    let mut table = no_pairs(alloc, part.cells.len())?;
    add_groups(part, used.as_slice(), &mut table);
    add_forms(
        alloc,
        part,
        used.as_slice(),
        &mut table,
        statements.as_slice(),
    )?;
    Ok(table)
}

/// Adds any two cells that one group uses.
fn add_groups(part: &Component, used: &[Marks], table: &mut Vec<Marks>)
    requires used { used.now ≡ group_marks (plain_component part.now) }
    requires table { IsTable (length part.now.cells.items) table.old.items }
    ensures value { Joins table.old.items table.new.items
        (pairs_of (λ g. has_both (assigns_use g.assigns)) (plain_component part.now).groups) }
{
    for cells in used {
        add_pairs(table, cells, cells);
    }
}

/// Adds the cells that meet in some of the statements.
fn add_forms(
    alloc: Global,
    part: &Component,
    used: &[Marks],
    table: &mut Vec<Marks>,
    statements: &[Visited<'_>],
) -> Result<(), Memory>
    requires used { used.now ≡ group_marks (plain_component part.now) }
    requires table { IsTable (length part.now.cells.items) table.old.items }
    ensures value { OnOk result (Joins table.old.items table.new.items
        (pairs_of (λ v. form_meets (plain_component part.now) v.form) (map plain_visited statements.now))) }
{
    for statement in statements {
        add_form(alloc, part, used, table, statement.form)?;
    }
    Ok(())
}

/// Adds the cells that meet in a statement, but for its parts.
fn add_form(
    alloc: Global,
    part: &Component,
    used: &[Marks],
    table: &mut Vec<Marks>,
    form: &Form,
) -> Result<(), Memory>
    requires used { used.now ≡ group_marks (plain_component part.now) }
    requires table { IsTable (length part.now.cells.items) table.old.items }
    ensures value { OnOk result (Joins table.old.items table.new.items
        (form_meets (plain_component part.now) (plain_form form.now))) }
{
    match form {
        Form::If { test, comb, .. } | Form::While { test, comb, .. } => {
            add_test(alloc, part, used, table, *test, *comb)
        }
        Form::Par(arms) => add_arms(alloc, part, used, table, arms.as_slice()),
        Form::StaticPar { parts, .. } => add_arms(alloc, part, used, table, parts.as_slice()),
        Form::Empty
        | Form::Enable(_)
        | Form::Seq(_)
        | Form::Repeat { .. }
        | Form::StaticSeq { .. }
        | Form::StaticIf { .. }
        | Form::StaticRepeat { .. }
        | Form::StaticInvoke(_)
        | Form::Timed(_) => Ok(()),
    }
}

/// Adds the cells that meet in a condition and its comb group.
fn add_test(
    alloc: Global,
    part: &Component,
    used: &[Marks],
    table: &mut Vec<Marks>,
    test: PlacedPort,
    comb: Option<u32>,
) -> Result<(), Memory>
    requires used { used.now ≡ group_marks (plain_component part.now) }
    requires table { IsTable (length part.now.cells.items) table.old.items }
    ensures value { OnOk result
        (Joins table.old.items table.new.items (has_both (test_uses (plain_component part.now) test comb))) }
{
    let mut marks = Marks::new(alloc, part.cells.len())?;
    add_port(&mut marks, test.port);
    add_comb(part, used, &mut marks, comb);
    add_pairs(table, &marks, &marks);
    Ok(())
}

/// Adds the cells of the comb group of a condition, where there is one.
#[tactic(auto, using(crate::proofs::MarkLemmas::adds_none))]
fn add_comb(part: &Component, used: &[Marks], marks: &mut Marks, comb: Option<u32>)
    requires used { used.now ≡ group_marks (plain_component part.now) }
    requires count { length marks.old ≡ length part.now.cells.items }
    ensures value { Adds marks.old marks.new (comb_uses (plain_component part.now) comb) }
{
    if let Some(group) = comb {
        add_group(part, used, marks, group);
    }
}

/// Adds the cells of which two different arms use one each.
fn add_arms(
    alloc: Global,
    part: &Component,
    used: &[Marks],
    table: &mut Vec<Marks>,
    arms: &[Statement],
) -> Result<(), Memory>
    requires used { used.now ≡ group_marks (plain_component part.now) }
    requires table { IsTable (length part.now.cells.items) table.old.items }
    ensures value { OnOk result (Joins table.old.items table.new.items
        (arms_meet (plain_component part.now) (list_of (plain_statements arms.now)))) }
{
    let cells = used_by_arms(alloc, part, used, arms)?;
    add_later(alloc, table, cells.as_slice(), part.cells.len())?;
    add_earlier(alloc, table, cells.as_slice(), part.cells.len())?;
    Ok(())
}
