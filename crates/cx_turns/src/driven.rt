//! The cells that the groups of a statement drive.

ghost use Rattle.std.specs.Prelude.{◌≡◌, true, ◌||◌, ◌&&◌, ◌<◌, ◌≤◌, [], ◌∷◌, ℕ, nat_eq, not, All, length, vec_capacity};
ghost use Rattle.cx_meaning.specs.Control.{form_drives, groups_drive, groups_in, groups_in_all, groups_of, with_comb};
ghost use Rattle.cx_meaning.specs.Instances.{Path, part_of, instance_at, tree_of};
ghost use Rattle.cx_design.specs.PlainForms.{plain_form, plain_statement, plain_statements};
ghost use Rattle.cx_eval_cycle.specs.Passes.{IsAscending, listed_in};
ghost use Rattle.cx_turns.specs.Groups.{IsGroupOf, ListDriven, ListGroup, ListWithin};
ghost use Rattle.cx_turns.specs.Machines.{design_of, IsPlan, IsInstance};
ghost use Rattle.cx_state.specs.Tables.{IsNumber};
ghost use Rattle.cx_turns.specs.Marks.{HasMarks, IsRoomFor, Lists, is_marked, set_count};

use crate::calls::{group_row, instance_part};
use crate::plan::Plan;
use cx_design::{Form, Statement};

/// Lists a cell that is not marked yet, and marks it.
fn mark_cell(cell: u32, marks: &mut [bool], cells: &mut Vec<u32>)
    requires within { cell < length marks.old }
    requires lists { Lists marks.old cells.old.items }
    requires room { length marks.old ≤ vec_capacity cells.old }
    ensures length { length marks.new ≡ length marks.old }
    ensures marked { (c : ℕ) → is_marked marks.new c ≡ (nat_eq cell c || is_marked marks.old c) }
    ensures lists { Lists marks.new cells.new.items }
    ensures room { vec_capacity cells.old ≤ vec_capacity cells.new }
{
    if !marks[cell as usize] {
        marks[cell as usize] = true;
        let _ = cells.push(cell);
    }
}

/// Those of some cells.
fn mark_cells(driven: &[u32], marks: &mut [bool], cells: &mut Vec<u32>)
    requires within { All (λ c. c < length marks.old) driven.now }
    requires lists { Lists marks.old cells.old.items }
    requires room { length marks.old ≤ vec_capacity cells.old }
    ensures length { length marks.new ≡ length marks.old }
    ensures marked { (c : ℕ) → is_marked marks.new c ≡ (listed_in driven.now c || is_marked marks.old c) }
    ensures lists { Lists marks.new cells.new.items }
    ensures room { vec_capacity cells.old ≤ vec_capacity cells.new }
{
    for cell in driven {
        mark_cell(*cell, marks, cells);
    }
}

/// Those that a group of an instance drives.
fn mark_group(
    plan: &Plan<'_>,
    instance: usize,
    group: u32,
    marks: &mut [bool],
    cells: &mut Vec<u32>,
)
    requires plan { IsPlan plan.now }
    requires instance { IsInstance (design_of plan.now) instance }
    requires marks { HasMarks (design_of plan.now) instance marks.old }
    requires lists { Lists marks.old cells.old.items }
    requires room { length marks.old ≤ vec_capacity cells.old }
    ensures length { length marks.new ≡ length marks.old }
    ensures marked { (path : Path) (c : ℕ) → IsNumber (design_of plan.now) instance path
        → is_marked marks.new c ≡ (groups_drive
        (part_of (instance_at (tree_of (design_of plan.now)) path)) (group ∷ []) c ||
        is_marked marks.old c) }
    ensures lists { Lists marks.new cells.new.items }
    ensures room { vec_capacity cells.old ≤ vec_capacity cells.new }
{
    let count = instance_part(plan, instance).groups.len();
    if (group as usize) < count {
        let row = group_row(plan, instance, group);
        mark_cells(row.cells.as_slice(), marks, cells);
    }
}

/// Those that the comb group of a test drives.
fn mark_comb(
    plan: &Plan<'_>,
    instance: usize,
    comb: Option<u32>,
    marks: &mut [bool],
    cells: &mut Vec<u32>,
)
    requires plan { IsPlan plan.now }
    requires instance { IsInstance (design_of plan.now) instance }
    requires marks { HasMarks (design_of plan.now) instance marks.old }
    requires lists { Lists marks.old cells.old.items }
    requires room { length marks.old ≤ vec_capacity cells.old }
    ensures length { length marks.new ≡ length marks.old }
    ensures marked { (path : Path) (c : ℕ) → IsNumber (design_of plan.now) instance path
        → is_marked marks.new c ≡ (groups_drive
        (part_of (instance_at (tree_of (design_of plan.now)) path)) (with_comb comb []) c ||
        is_marked marks.old c) }
    ensures lists { Lists marks.new cells.new.items }
    ensures room { vec_capacity cells.old ≤ vec_capacity cells.new }
{
    if let Some(group) = comb {
        mark_group(plan, instance, group, marks, cells);
    }
}

/// Those that the groups of a form drive.
#[cycle(mark)]
fn mark_form(
    plan: &Plan<'_>,
    instance: usize,
    form: &Form,
    marks: &mut [bool],
    cells: &mut Vec<u32>,
)
    requires plan { IsPlan plan.now }
    requires instance { IsInstance (design_of plan.now) instance }
    requires marks { HasMarks (design_of plan.now) instance marks.old }
    requires lists { Lists marks.old cells.old.items }
    requires room { length marks.old ≤ vec_capacity cells.old }
    ensures length { length marks.new ≡ length marks.old }
    ensures marked { (path : Path) (c : ℕ) → IsNumber (design_of plan.now) instance path
        → is_marked marks.new c ≡ (groups_drive
        (part_of (instance_at (tree_of (design_of plan.now)) path)) (groups_in (plain_form form.now)) c ||
        is_marked marks.old c) }
    ensures lists { Lists marks.new cells.new.items }
    ensures room { vec_capacity cells.old ≤ vec_capacity cells.new }
{
    match form {
        Form::Enable(group) => mark_group(plan, instance, *group, marks, cells),
        Form::Seq(parts) => mark_all(plan, instance, parts, marks, cells),
        Form::Par(parts) => mark_all(plan, instance, parts, marks, cells),
        Form::StaticSeq { parts, .. } => mark_all(plan, instance, parts, marks, cells),
        Form::StaticPar { parts, .. } => mark_all(plan, instance, parts, marks, cells),
        Form::If { comb, yes, no, .. } => {
            mark_comb(plan, instance, *comb, marks, cells);
            mark_form(plan, instance, &yes.form, marks, cells);
            mark_form(plan, instance, &no.form, marks, cells);
        }
        Form::StaticIf { yes, no, .. } => {
            mark_form(plan, instance, &yes.form, marks, cells);
            mark_form(plan, instance, &no.form, marks, cells);
        }
        Form::While { comb, body, .. } => {
            mark_comb(plan, instance, *comb, marks, cells);
            mark_form(plan, instance, &body.form, marks, cells);
        }
        Form::Repeat { body, .. } => mark_form(plan, instance, &body.form, marks, cells),
        Form::StaticRepeat { body, .. } => mark_form(plan, instance, &body.form, marks, cells),
        Form::Empty => {}
        Form::StaticInvoke(_) | Form::Timed(_) => {}
    }
}

/// Those of all parts.
#[cycle(mark)]
fn mark_all(
    plan: &Plan<'_>,
    instance: usize,
    parts: &[Statement],
    marks: &mut [bool],
    cells: &mut Vec<u32>,
)
    requires plan { IsPlan plan.now }
    requires instance { IsInstance (design_of plan.now) instance }
    requires marks { HasMarks (design_of plan.now) instance marks.old }
    requires lists { Lists marks.old cells.old.items }
    requires room { length marks.old ≤ vec_capacity cells.old }
    ensures length { length marks.new ≡ length marks.old }
    ensures marked { (path : Path) (c : ℕ) → IsNumber (design_of plan.now) instance path
        → is_marked marks.new c ≡ (groups_drive
        (part_of (instance_at (tree_of (design_of plan.now)) path))
        (groups_in_all (plain_statements parts.now)) c || is_marked marks.old c) }
    ensures lists { Lists marks.new cells.new.items }
    ensures room { vec_capacity cells.old ≤ vec_capacity cells.new }
{
    for part in parts {
        mark_form(plan, instance, &part.form, marks, cells);
    }
}

/// Takes the marks from listed cells.
fn clear_marks(cells: &[u32], marks: &mut [bool])
    requires within { All (λ c. c < length marks.old) cells.now }
    ensures length { length marks.new ≡ length marks.old }
    ensures cleared { (c : ℕ) → is_marked marks.new c ≡ (not (listed_in cells.now c) && is_marked marks.old c) }
{
    for cell in cells {
        marks[*cell as usize] = false;
    }
}

/// Whether an instance has a group of this number.
fn is_group(plan: &Plan<'_>, instance: usize, group: u32) -> bool
    requires plan { IsPlan plan.now }
    requires instance { IsInstance (design_of plan.now) instance }
    ensures group { result ≡ true → IsGroupOf (design_of plan.now) instance group }
{
    (group as usize) < instance_part(plan, instance).groups.len()
}

/// Puts a list of cells into room that was there before.
fn copy_cells(driven: &[u32], cells: &mut Vec<u32>)
    requires room { length driven.now ≤ vec_capacity cells.old }
    ensures items { cells.new.items ≡ driven.now }
    ensures room { vec_capacity cells.old ≤ vec_capacity cells.new }
{
    cells.clear();
    for cell in driven {
        cells.push_reserved(*cell);
    }
}

/// Lists the cells that a group of an instance drives, ascending, as its row has them.
fn list_group(plan: &Plan<'_>, instance: usize, group: u32, cells: &mut Vec<u32>)
    requires plan { IsPlan plan.now }
    requires instance { IsInstance (design_of plan.now) instance }
    requires group { IsGroupOf (design_of plan.now) instance group }
    requires room { IsRoomFor (design_of plan.now) instance (vec_capacity cells.old) }
    ensures driven { ListGroup (design_of plan.now) instance group cells.new.items }
    ensures ascending { IsAscending cells.new.items }
    ensures within { ListWithin (design_of plan.now) instance cells.new.items }
    ensures room { vec_capacity cells.old ≤ vec_capacity cells.new }
{
    let row = group_row(plan, instance, group);
    copy_cells(row.cells.as_slice(), cells);
}

/// Lists the cells of an instance that the groups of a form drive, ascending. Marks, none of which is set before and
/// after, tell what is listed, so that it takes the time of these groups and not of all cells.
fn list_groups(
    plan: &Plan<'_>,
    instance: usize,
    form: &Form,
    marks: &mut [bool],
    cells: &mut Vec<u32>,
)
    requires plan { IsPlan plan.now }
    requires instance { IsInstance (design_of plan.now) instance }
    requires marks { HasMarks (design_of plan.now) instance marks.old }
    requires clear { set_count marks.old ≡ 0 }
    requires room { length marks.old ≤ vec_capacity cells.old }
    ensures driven { ListDriven (design_of plan.now) instance cells.new.items
        (λ part. form_drives part (plain_form form.now)) }
    ensures ascending { IsAscending cells.new.items }
    ensures within { ListWithin (design_of plan.now) instance cells.new.items }
    ensures length { length marks.new ≡ length marks.old }
    ensures clear { set_count marks.new ≡ 0 }
    ensures room { vec_capacity cells.old ≤ vec_capacity cells.new }
{
    cells.clear();
    mark_form(plan, instance, form, marks, cells);
    clear_marks(cells.as_slice(), marks);
    cells.sort_unstable();
}

/// Lists the cells of an instance that the groups of a form drive, ascending, in the time of these groups and not of all cells.
/// Marks, none of which is set before and after, tell what is listed; the cells of one group stand in its row.
pub fn driven_cells(
    plan: &Plan<'_>,
    instance: usize,
    form: &Form,
    marks: &mut [bool],
    cells: &mut Vec<u32>,
)
    requires plan { IsPlan plan.now }
    requires instance { IsInstance (design_of plan.now) instance }
    requires marks { HasMarks (design_of plan.now) instance marks.old }
    requires clear { set_count marks.old ≡ 0 }
    requires room { length marks.old ≤ vec_capacity cells.old }
    ensures driven { ListDriven (design_of plan.now) instance cells.new.items
        (λ part. form_drives part (plain_form form.now)) }
    ensures ascending { IsAscending cells.new.items }
    ensures within { ListWithin (design_of plan.now) instance cells.new.items }
    ensures length { length marks.new ≡ length marks.old }
    ensures clear { set_count marks.new ≡ 0 }
    ensures room { vec_capacity cells.old ≤ vec_capacity cells.new }
{
    if let Form::Enable(group) = form {
        if is_group(plan, instance, *group) {
            list_group(plan, instance, *group, cells);
            return;
        }
    }
    list_groups(plan, instance, form, marks, cells);
}
