//! The table of components, and what stands at the cells of one by it.

ghost use Rattle.std.specs.Prelude.{◌≡◌, ◌+◌, IfOk, get_or, is_some, length, map, option_map};
ghost use Rattle.cx_meaning.specs.Designs.{component_at};
ghost use Rattle.cx_rules.specs.Counts as counts;
ghost use Rattle.cx_rules.specs.Items.{statements_in};
ghost use Rattle.cx_rules.specs.Sizes as sizes;
ghost use Rattle.cx_design.specs.PlainDesigns.{plain_design};
ghost use Rattle.cx_design.specs.PlainForms.{plain_cell, plain_component};
ghost use Rattle.cx_design_sizes.specs.Capped.{capped};
ghost use Rattle.cx_limits.specs.Inners.{capped_inner, needs_of};
ghost use Rattle.cx_limits.specs.Rows.{AreRows, IsCounted, IsRowWith, beside as beside_of, inner_by, inners_by, no_row, plain_inner, plain_inners, tree_above, tree_by, trees_by};

use crate::counting::{ControlCounts, control_counts};
use crate::inners::{Inner, always_in, cells_in, copies_for, groups_for};
use crate::needed::{Needed, needed_groups};
use crate::order::children_first;
use crate::rows::{NO_ROW, NO_TREES, Row, TreeCounts};
use cx_design::{Cell, CellKind, Component, Design};
use cx_design_sizes::{assigns_size, groups_size};
use cx_text::Memory;
use std::alloc::Global;

/// The row of a component.
pub fn row_at(rows: &[Row], component: u32) -> Row
    ensures { result ≡ get_or rows.now component no_row }
{
    match rows.get(component as usize) {
        Some(row) => *row,
        None => NO_ROW,
    }
}

/// Whether a component has a latency.
fn is_static(design: &Design, component: u32) -> bool
    ensures { result ≡ is_some (component_at (plain_design design.now) component).latency }
{
    match design.components.get(component as usize) {
        Some(part) => part.latency.is_some(),
        None => false,
    }
}

/// What a cell of a static component counts; None for another cell.
fn cell_inner(design: &Design, rows: &[Row], cell: &Cell) -> Option<Inner>
    ensures { option_map plain_inner result ≡ inner_by (plain_design design.now) rows.now (plain_cell cell.now).kind }
{
    let CellKind::Part(component) = &cell.kind else {
        return None;
    };
    if !is_static(design, *component) {
        return None;
    }
    Some(row_at(rows, *component).inner)
}

/// What stands at each cell of a component.
pub fn below(
    alloc: Global,
    design: &Design,
    rows: &[Row],
    part: &Component,
) -> Result<Vec<Option<Inner>>, Memory>
    ensures { IfOk result (λ below. plain_inners below.items ≡
        inners_by (plain_design design.now) rows.now (plain_component part.now).cells) }
{
    let mut below = Vec::new(alloc);
    for cell in part.cells.as_slice() {
        below.push(cell_inner(design, rows, cell))?;
    }
    Ok(below)
}

/// The counts of trees beside others.
fn beside(one: TreeCounts, other: TreeCounts) -> TreeCounts
    ensures { result ≡ beside_of one other }
{
    TreeCounts {
        instances: one.instances.saturating_add(other.instances),
        depth: one.depth.max(other.depth),
        weight: one.weight.saturating_add(other.weight),
    }
}

/// The counts of a component with the trees of its cells.
pub fn above(row: Row) -> TreeCounts
    ensures { result ≡ tree_above row }
{
    TreeCounts {
        instances: row.trees.instances.saturating_add(1),
        depth: row.trees.depth.saturating_add(1),
        weight: row.size.saturating_add(1).saturating_add(row.trees.weight),
    }
}

/// The counts of the tree at a cell: a static component has nothing of its own in it.
fn cell_trees(design: &Design, rows: &[Row], cell: &Cell) -> TreeCounts
    ensures { result ≡ tree_by (plain_design design.now) rows.now (plain_cell cell.now).kind }
{
    let CellKind::Part(component) = &cell.kind else {
        return NO_TREES;
    };
    let row = row_at(rows, *component);
    if is_static(design, *component) {
        row.trees
    } else {
        above(row)
    }
}

/// The counts of the trees at cells.
fn cells_trees(design: &Design, rows: &[Row], cells: &[Cell]) -> TreeCounts
    ensures { result ≡ trees_by (plain_design design.now) rows.now (map plain_cell cells.now) }
{
    let mut trees = NO_TREES;
    for cell in cells {
        trees = beside(trees, cell_trees(design, rows, cell));
    }
    trees
}

/// The cells of a component, with those of its static components.
fn cell_count(part: &Component, below: &[Option<Inner>]) -> u64
    requires sized { length below.now ≡ length part.now.cells.items }
    ensures { result ≡ capped (counts.cells_in (plain_component part.now).cells (plain_inners below.now)) }
{
    cells_in(below)
}

/// The continuous assignments of a component and of its static components.
fn always_count(part: &Component, below: &[Option<Inner>]) -> u64
    ensures { result ≡ capped
        (sizes.assigns_size (plain_component part.now).always + counts.always_in (plain_inners below.now)) }
{
    assigns_size(&part.always).saturating_add(always_in(below))
}

/// The groups that are copied for the static invokes of a component.
fn group_copies(part: &Component, below: &[Option<Inner>]) -> u64
    ensures { result ≡ capped (counts.groups_for (plain_inners below.now) (plain_component part.now).invokes) }
{
    groups_for(below, &part.invokes)
}

/// The same with what is in the groups.
fn copies(part: &Component, below: &[Option<Inner>]) -> u64
    ensures { result ≡ capped (counts.copies_for (plain_inners below.now) (plain_component part.now).invokes) }
{
    copies_for(below, &part.invokes)
}

/// What a component counts, were it static.
fn inner_of(
    part: &Component,
    below: &[Option<Inner>],
    needed: Needed,
    control: ControlCounts,
) -> Inner
    requires sized { length below.now ≡ length part.now.cells.items }
    requires groups { needed.groups ≡ capped (length (counts.needed_groups (plain_component part.now))) }
    requires copies { needed.size ≡ capped (sizes.groups_size (counts.needed_groups (plain_component part.now))) }
    requires control { IsCounted (plain_component part.now) (plain_inners below.now)
        (statements_in (plain_component part.now)) control }
    ensures { plain_inner result ≡ capped_inner (counts.inner (plain_component part.now) (plain_inners below.now)) }
{
    let wires = part.outputs.len() as u64;
    Inner {
        cells: cell_count(part, below).saturating_add(wires),
        always: always_count(part, below),
        groups: needed.groups.saturating_add(group_copies(part, below)),
        copies: needed.size.saturating_add(copies(part, below)),
        statements: control.statements,
        occurrences: control.occurrences,
    }
}

/// The size of a component with its static components written out.
fn size_of(part: &Component, below: &[Option<Inner>], control: ControlCounts) -> u64
    requires sized { length below.now ≡ length part.now.cells.items }
    requires control { IsCounted (plain_component part.now) (plain_inners below.now)
        (statements_in (plain_component part.now)) control }
    ensures { result ≡ capped (counts.size_with (plain_component part.now) (plain_inners below.now)) }
{
    let ports = (part.inputs.len() as u64).saturating_add(part.outputs.len() as u64);
    let groups = groups_size(&part.groups).saturating_add(copies(part, below));
    ports
        .saturating_add(cell_count(part, below))
        .saturating_add(groups)
        .saturating_add(always_count(part, below))
        .saturating_add(control.statements)
        .saturating_add(control.occurrences)
}

/// The row of a component, by those of the components of its cells.
fn component_row(
    alloc: Global,
    design: &Design,
    rows: &[Row],
    part: &Component,
) -> Result<Row, Memory>
    requires needs { needs_of (plain_component part.now) ≡ counts.needed_groups (plain_component part.now) }
    ensures { IfOk result (λ row. IsRowWith (plain_component part.now)
        (inners_by (plain_design design.now) rows.now (plain_component part.now).cells)
        (trees_by (plain_design design.now) rows.now (plain_component part.now).cells) row) }
{
    let below = below(alloc, design, rows, part)?;
    let control = control_counts(part, below.as_slice());
    let needed = needed_groups(alloc, part)?;
    Ok(Row {
        inner: inner_of(part, below.as_slice(), needed, control),
        size: size_of(part, below.as_slice(), control),
        trees: cells_trees(design, rows, part.cells.as_slice()),
    })
}

/// The rows of all components.
pub fn table(alloc: Global, design: &Design) -> Result<Vec<Row>, Memory>
    ensures { IfOk result (λ rows. AreRows (plain_design design.now) rows.items) }
{
    let order = children_first(alloc, design)?;
    let components = design.components.as_slice();
    let mut rows = vec![in alloc; NO_ROW; components.len()]?;
    for component in order.as_slice() {
        let number = *component as usize;
        rows[number] = component_row(alloc, design, rows.as_slice(), &components[number])?;
    }
    Ok(rows)
}
