//! Which cells the parts of a component use.

ghost use Rattle.std.specs.Prelude.{◌≡◌, IfOk, OnOk, length, map};
ghost use Rattle.cx_meaning.specs.Control.{targets_cell};
ghost use Rattle.cx_meaning.specs.Instances.{just};
ghost use Rattle.cx_design.specs.PlainForms.{plain_assign, plain_assigns, plain_component, plain_group, plain_statement};
ghost use Rattle.cx_sharing.specs.Uses.{assign_uses, assigns_use, group_uses, uses};
ghost use Rattle.cx_share.specs.Marks.{Adds, any_of, marks_by};
ghost use Rattle.cx_share.specs.Using.{arm_marks, group_marks};

use crate::marks::{Marks, add_port};
use cx_design::{Assign, Component, Group, Statement};
use cx_design_parts::operands;
use cx_meaning::PlacedPort;
use cx_race::{groups, tested};
use cx_text::Memory;
use std::alloc::Global;

/// For each group of a component the cells that it uses.
pub(crate) fn used_by_groups(alloc: Global, part: &Component) -> Result<Vec<Marks>, Memory>
    ensures value { IfOk result (λ used. used.items ≡ group_marks (plain_component part.now)) }
{
    let mut used = Vec::with_capacity(alloc, part.groups.len())?;
    for group in &part.groups {
        used.push(used_by_group(alloc, part.cells.len(), group)?)?;
    }
    Ok(used)
}

fn used_by_group(alloc: Global, count: usize, group: &Group) -> Result<Marks, Memory>
    ensures value { IfOk result (λ marks. marks ≡ marks_by count (assigns_use (plain_group group.now).assigns)) }
{
    let mut marks = Marks::new(alloc, count)?;
    add_assigns(alloc, &mut marks, group.assigns.as_slice())?;
    Ok(marks)
}

/// Adds the cells that assignments use.
pub(crate) fn add_assigns(
    alloc: Global,
    marks: &mut Marks,
    assigns: &[Assign],
) -> Result<(), Memory>
    ensures value { OnOk result (Adds marks.old marks.new (assigns_use (plain_assigns assigns.now))) }
{
    for assign in assigns {
        add_assign(alloc, marks, assign)?;
    }
    Ok(())
}

fn add_assign(alloc: Global, marks: &mut Marks, assign: &Assign) -> Result<(), Memory>
    ensures value { OnOk result (Adds marks.old marks.new (assign_uses (plain_assign assign.now))) }
{
    let operands = operands(alloc, &assign.guard)?;
    add_port(marks, assign.target);
    add_port(marks, assign.source.port);
    add_ports(marks, operands.as_slice());
    Ok(())
}

/// Adds the cells of ports.
fn add_ports(marks: &mut Marks, ports: &[PlacedPort])
    ensures value { Adds marks.old marks.new (any_of (λ p. targets_cell p.port) ports.now) }
{
    for port in ports {
        add_port(marks, port.port);
    }
}

/// Adds the cells that a group uses. A number that names no group uses none.
pub(crate) fn add_group(part: &Component, used: &[Marks], marks: &mut Marks, group: u32)
    requires used { used.now ≡ group_marks (plain_component part.now) }
    requires count { length marks.old ≡ length part.now.cells.items }
    ensures value { Adds marks.old marks.new (group_uses (plain_component part.now) group) }
{
    if let Some(cells) = used.get(group as usize) {
        marks.join(cells);
    }
}

/// For each arm of a `par` the cells that it uses.
pub(crate) fn used_by_arms(
    alloc: Global,
    part: &Component,
    used: &[Marks],
    arms: &[Statement],
) -> Result<Vec<Marks>, Memory>
    requires used { used.now ≡ group_marks (plain_component part.now) }
    ensures value { IfOk result
        (λ cells. cells.items ≡ arm_marks (plain_component part.now) (map plain_statement arms.now)) }
{
    let mut cells = Vec::with_capacity(alloc, arms.len())?;
    for arm in arms {
        cells.push(used_by_statement(alloc, part, used, arm)?)?;
    }
    Ok(cells)
}

/// The cells that a statement uses.
fn used_by_statement(
    alloc: Global,
    part: &Component,
    used: &[Marks],
    statement: &Statement,
) -> Result<Marks, Memory>
    requires used { used.now ≡ group_marks (plain_component part.now) }
    ensures value { IfOk result (λ marks. marks ≡
        marks_by (length part.now.cells.items)
        (uses (plain_component part.now) (plain_statement statement.now))) }
{
    let groups = groups(alloc, statement)?;
    let tested = tested(alloc, statement)?;
    let mut marks = Marks::new(alloc, part.cells.len())?;
    add_groups(part, used, &mut marks, groups.as_slice());
    add_tested(&mut marks, tested.as_slice());
    Ok(marks)
}

/// Adds the cells that groups use.
fn add_groups(part: &Component, used: &[Marks], marks: &mut Marks, groups: &[u32])
    requires used { used.now ≡ group_marks (plain_component part.now) }
    requires count { length marks.old ≡ length part.now.cells.items }
    ensures value { Adds marks.old marks.new (any_of (group_uses (plain_component part.now)) groups.now) }
{
    for group in groups {
        add_group(part, used, marks, *group);
    }
}

/// Adds the cells of a list.
fn add_tested(marks: &mut Marks, cells: &[u32])
    ensures value { Adds marks.old marks.new (any_of just cells.now) }
{
    for cell in cells {
        marks.put(*cell as usize);
    }
}
