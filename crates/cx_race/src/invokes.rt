//! The cells that the static invokes of a statement drive and name.

ghost use Rattle.std.specs.Prelude.{◌≡◌, ◌++◌, IfNone, IfOk, IfSome, Some, None, slice_get};
ghost use Rattle.cx_meaning.specs.Designs.{group_at};
ghost use Rattle.cx_rules.specs.Invokes.{invoke_at};
ghost use Rattle.cx_design.specs.PlainForms.{plain_assigns, plain_component, plain_invoke, plain_statement};
ghost use Rattle.cx_race.specs.Cells.{invoked_by, met_by, named_in_capture, named_in_invoke, named_in_invokes, targets_in_capture, targets_in_invoke, targets_in_invokes};

use crate::cells::{add_assigns, add_targets, tested};
use crate::forms::invokes;
use cx_design::{Assign, Component, Statement, StaticInvoke};
use cx_design_parts::group_of;
use cx_text::Memory;
use std::alloc::Global;

/// The cells that the static invokes of a statement drive.
pub fn invoked(alloc: Global, part: &Component, statement: &Statement) -> Result<Vec<u32>, Memory>
    ensures value { IfOk result
        (λ cells. cells.items ≡ invoked_by (plain_component part.now) (plain_statement statement.now)) }
{
    let numbers = invokes(alloc, statement)?;
    let mut cells = Vec::new(alloc);
    add_invoked(&mut cells, part, numbers.as_slice())?;
    Ok(cells)
}

/// The cells of a statement's conditions, and those that its static invokes drive or name.
pub fn met(alloc: Global, part: &Component, statement: &Statement) -> Result<Vec<u32>, Memory>
    ensures value { IfOk result
        (λ cells. cells.items ≡ met_by (plain_component part.now) (plain_statement statement.now)) }
{
    let numbers = invokes(alloc, statement)?;
    let mut cells = tested(alloc, statement)?;
    add_invoked(&mut cells, part, numbers.as_slice())?;
    add_fed(alloc, &mut cells, part, numbers.as_slice())?;
    Ok(cells)
}

/// Adds the cells that static invokes drive.
fn add_invoked(cells: &mut Vec<u32>, part: &Component, numbers: &[u32]) -> Result<(), Memory>
    ensures value { IfOk result (λ _.
        cells.new.items ≡ cells.old.items ++ targets_in_invokes (plain_component part.now) numbers.now) }
{
    for number in numbers {
        add_invoke_targets(cells, part, *number)?;
    }
    Ok(())
}

/// Adds the cells that static invokes name.
fn add_fed(
    alloc: Global,
    cells: &mut Vec<u32>,
    part: &Component,
    numbers: &[u32],
) -> Result<(), Memory>
    ensures value { IfOk result
        (λ _. cells.new.items ≡ cells.old.items ++ named_in_invokes (plain_component part.now) numbers.now) }
{
    for number in numbers {
        add_invoke_names(alloc, cells, part, *number)?;
    }
    Ok(())
}

fn add_invoke_targets(cells: &mut Vec<u32>, part: &Component, number: u32) -> Result<(), Memory>
    ensures value { IfOk result (λ _. cells.new.items ≡
        cells.old.items
        ++ targets_in_invoke (plain_component part.now) (invoke_at (plain_component part.now) number)) }
{
    match invoke_of(part, number) {
        Some(invoke) => {
            cells.push(invoke.cell)?;
            add_capture_targets(cells, part, invoke.captures)
        }
        None => Ok(()),
    }
}

fn add_invoke_names(
    alloc: Global,
    cells: &mut Vec<u32>,
    part: &Component,
    number: u32,
) -> Result<(), Memory>
    ensures value { IfOk result (λ _. cells.new.items ≡
        cells.old.items
        ++ named_in_invoke (plain_component part.now) (invoke_at (plain_component part.now) number)) }
{
    match invoke_of(part, number) {
        Some(invoke) => {
            add_assigns(alloc, cells, invoke.inputs.as_slice())?;
            add_capture_names(alloc, cells, part, invoke.captures)
        }
        None => Ok(()),
    }
}

fn add_capture_targets(
    cells: &mut Vec<u32>,
    part: &Component,
    captures: Option<u32>,
) -> Result<(), Memory>
    ensures value { IfOk result
        (λ _. cells.new.items ≡ cells.old.items ++ targets_in_capture (plain_component part.now) captures) }
{
    match captures {
        Some(group) => add_targets(cells, assigns_of(part, group)),
        None => Ok(()),
    }
}

fn add_capture_names(
    alloc: Global,
    cells: &mut Vec<u32>,
    part: &Component,
    captures: Option<u32>,
) -> Result<(), Memory>
    ensures value { IfOk result
        (λ _. cells.new.items ≡ cells.old.items ++ named_in_capture (plain_component part.now) captures) }
{
    match captures {
        Some(group) => add_assigns(alloc, cells, assigns_of(part, group)),
        None => Ok(()),
    }
}

/// The assignments of a group, where the component has it.
#[tactic(auto, using(crate::proofs::AssignLemmas::assigns_of_group))]
fn assigns_of(component: &Component, number: u32) -> &[Assign]
    ensures value { plain_assigns result.now ≡ (group_at (plain_component component.now) number).assigns }
{
    match group_of(component, number) {
        Some(group) => group.assigns.as_slice(),
        None => &[],
    }
}

/// The static invoke of a number, where the component has it.
fn invoke_of(component: &Component, number: u32) -> Option<&StaticInvoke>
    ensures none { IfNone result (slice_get (plain_component component.now).invokes number ≡ None) }
    ensures some { IfSome result (λ invoke.
        slice_get (plain_component component.now).invokes number ≡ Some (plain_invoke invoke.now)) }
{
    component.invokes.as_slice().get(number as usize)
}
