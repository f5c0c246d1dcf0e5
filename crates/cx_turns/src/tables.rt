//! What is known of each group of each component.

ghost use Rattle.std.specs.Prelude.{◌≡◌, ℕ, ◌<◌, IfOk, List, length};
ghost use Rattle.cx_meaning.specs.Designs.{component_at, group_at};
ghost use Rattle.cx_meaning.specs.Instances.{part_of};
ghost use Rattle.cx_meaning.specs.Islands.{kind_length};
ghost use Rattle.cx_rules.specs.Ports.{component_of};
ghost use Rattle.cx_design.specs.PlainForms.{plain_group};
ghost use Rattle.cx_design.specs.PlainDesigns.{plain_design};
ghost use Rattle.cx_state.specs.declared.tables.InstanceRow.{InstanceRow};
ghost use Rattle.cx_state.specs.Tables.{IsTable};
ghost use Rattle.cx_turns.specs.GroupRows.{AreGroups, AreTables, IsGroup, IsTableOf};

use crate::calling::{drive_enables, first_callee};
use crate::driving::driven_cells;
use cx_design::{Design, Group, GroupKind};
use cx_design_parts::component;
use cx_text::Memory;
use std::alloc::Global;

/// The cells of which a group drives a port, in order, the component cell that it calls, whether it captures, and the
/// cycles of a static group.
#[derive(Debug, Drop)]
pub struct GroupRow {
    pub cells: Vec<u32>,
    pub callee: Option<u32>,
    pub captures: bool,
    pub length: Option<u64>,
}

/// What is known of the groups of a component.
#[derive(Debug, Drop)]
pub struct GroupTable {
    pub rows: Vec<GroupRow>,
}

/// A group of a component, both by their numbers.
fn group_of(design: &Design, number: usize, group: usize) -> &Group
    requires within { number < length design.now.components.items }
    requires there { group < length (component_at (plain_design design.now) number).groups }
    ensures value { plain_group result.now ≡ group_at (part_of (component_of (plain_design design.now) number)) group }
{
    &component(design, number).groups.as_slice()[group]
}

/// The cycles of a static group.
fn timed_length(kind: GroupKind) -> Option<u64>
    ensures { result ≡ kind_length kind }
{
    match kind {
        GroupKind::Timed(cycles) => Some(cycles),
        GroupKind::Plain | GroupKind::Comb => None,
    }
}

/// What is known of a group of a component, both by their numbers.
fn group_row(
    alloc: Global,
    design: &Design,
    number: usize,
    group: usize,
) -> Result<GroupRow, Memory>
    requires within { number < length design.now.components.items }
    requires there { group < length (component_at (plain_design design.now) number).groups }
    ensures value { IfOk result (λ row. IsGroup (component_of (plain_design design.now) number) group row) }
{
    let found = group_of(design, number, group);
    let assigns = found.assigns.as_slice();
    Ok(GroupRow {
        cells: driven_cells(alloc, assigns)?,
        callee: first_callee(design, number, assigns),
        captures: drive_enables(design, number, assigns),
        length: timed_length(found.kind),
    })
}

/// What is known of the groups of a component.
fn group_table(alloc: Global, design: &Design, number: usize) -> Result<GroupTable, Memory>
    requires within { number < length design.now.components.items }
    ensures value { IfOk result (λ table. IsTableOf (component_of (plain_design design.now) number) table) }
{
    let count = component(design, number).groups.len();
    let mut rows = Vec::new(alloc);
    for group in 0..count {
        rows.push(group_row(alloc, design, number, group)?)?;
    }
    Ok(GroupTable { rows })
}

/// What is known of the groups of each component.
fn component_tables(alloc: Global, design: &Design) -> Result<Vec<GroupTable>, Memory>
    ensures value { IfOk result (λ tables. AreTables (plain_design design.now) tables.items) }
{
    let mut tables = Vec::new(alloc);
    for number in 0..design.components.len() {
        tables.push(group_table(alloc, design, number)?)?;
    }
    Ok(tables)
}

/// What is known of the groups of each component, which is that of the groups of each of its instances, as a table of the
/// instances tells their components.
pub fn group_tables(alloc: Global, design: &Design) -> Result<Vec<GroupTable>, Memory>
    ensures value { IfOk result (λ tables. (rows : List InstanceRow) (children : List ℕ)
        → IsTable (plain_design design.now) rows children
        → AreGroups (plain_design design.now) rows tables.items) }
{
    component_tables(alloc, design)
}
