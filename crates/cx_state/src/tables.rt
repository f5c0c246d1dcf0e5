//! The instances of a design by their numbers in pre-order.

ghost use Rattle.std.specs.Prelude.{◌≡◌, ℕ, ◌+◌, ◌^◌, ◌<◌, ◌≤◌, ◌++◌, IfOk, map, length};
ghost use Rattle.cx_meaning.specs.Designs.{OfComponent};
ghost use Rattle.cx_meaning.specs.Instances.{tree_of};
ghost use Rattle.cx_rules.specs.Sizes.{instances_below};
ghost use Rattle.cx_rules.specs.Flat.{IsFlat};
ghost use Rattle.cx_design.specs.PlainForms.{plain_cell, plain_kind};
ghost use Rattle.cx_design.specs.PlainDesigns.{plain_design};
ghost use Rattle.cx_design_sizes.specs.Orders.{IsChildrenFirst};
ghost use Rattle.cx_design_sizes.specs.Tallies.{AreTallied};
ghost use Rattle.cx_state.specs.Steps as steps;
ghost use Rattle.cx_state.specs.Tables.{IsTable, child_of};
ghost use Rattle.cx_state.specs.Filling.{HaveSome, numbered, placed, row_placed, total};

use cx_design::{Cell, CellKind, Checked, Design};
use cx_design_sizes::{LimitTally, children_first, component_tallies};
use cx_text::Memory;
use std::alloc::Global;

/// An instance: the number of its component, the number of the instance above it and its cell there, and where its cells
/// begin among those of all instances. Main counts as above itself.
#[derive(Clone, Copy, Debug, PartialEq, Eq)]
pub struct InstanceRow {
    pub component: u32,
    pub parent: usize,
    pub cell: usize,
    pub first: usize,
}

/// All instances in pre-order, and for each cell of each a number, which at a component's cell is that of its instance.
#[derive(Debug, Drop)]
pub struct InstanceTable {
    pub rows: Vec<InstanceRow>,
    pub children: Vec<usize>,
}

impl InstanceTable {
    /// What stands for a cell of an instance; 0 where the table has nothing.
    pub fn child_of(&self, instance: usize, cell: u32) -> usize
        ensures value { result ≡ child_of self.now.rows.items self.now.children.items instance cell }
    {
        let first = match self.rows.get(instance) {
            Some(row) => row.first,
            None => 0,
        };
        match self.children.get(first.saturating_add(cell as usize)) {
            Some(child) => *child,
            None => 0,
        }
    }
}

/// The instances at a cell, with all below; 0 for a primitive.
fn instances_at(tallies: &[LimitTally], cell: &Cell) -> usize
    ensures { result ≡ steps.instances_at tallies.now (plain_cell cell.now).kind }
{
    match &cell.kind {
        CellKind::Prim(_) => 0,
        CellKind::Part(component) => match tallies.get(*component as usize) {
            Some(tally) => tally.instances as usize,
            None => 0,
        },
    }
}

/// Gives the instance at a component's cell its row.
fn place(rows: &mut [InstanceRow], kind: &CellKind, number: usize, cell: usize, next: usize)
    requires within { (k : ℕ) → plain_kind kind.now ≡ OfComponent k → next < length rows.old }
    ensures { rows.new ≡ row_placed (plain_kind kind.now) number cell next rows.old }
{
    if let CellKind::Part(component) = kind {
        rows[next] = InstanceRow {
            component: *component,
            parent: number,
            cell,
            first: 0,
        };
    }
}

/// Gives the instances at the cells of an instance their numbers and rows.
fn add_cells(
    rows: &mut [InstanceRow],
    children: &mut Vec<usize>,
    tallies: &[LimitTally],
    cells: &[Cell],
    number: usize,
) -> Result<(), Memory>
    requires some { HaveSome tallies.now (map plain_cell cells.now) }
    requires room { number + 1 + total tallies.now (map plain_cell cells.now) ≤ length rows.old }
    ensures children { IfOk result (λ done.
        children.new.items ≡
        children.old.items ++ numbered tallies.now (map plain_cell cells.now) (number + 1)) }
    ensures rows { IfOk result
        (λ done. rows.new ≡ placed tallies.now (map plain_cell cells.now) number 0 (number + 1) rows.old) }
{
    let mut next = number + 1;
    for cell in 0..cells.len() {
        children.push(next)?;
        place(rows, &cells[cell].kind, number, cell, next);
        next += instances_at(tallies, &cells[cell]);
    }
    Ok(())
}

/// The number of all instances.
fn instance_count(design: &Design, order: &[u32], tallies: &[LimitTally]) -> usize
    requires first { IsChildrenFirst (plain_design design.now) order.now }
    requires known { AreTallied (plain_design design.now) (length order.now) tallies.now order.now }
    requires sized { length tallies.now ≡ length design.now.components.items }
    requires few { instances_below (tree_of (plain_design design.now)) ≤ 4096 }
    ensures { result ≡ instances_below (tree_of (plain_design design.now)) }
{
    let main = design.main as usize;
    tallies[main].instances as usize
}

/// The table, by the counts of instances below each component.
fn table(
    alloc: Global,
    design: &Design,
    order: &[u32],
    tallies: &[LimitTally],
) -> Result<InstanceTable, Memory>
    requires first { IsChildrenFirst (plain_design design.now) order.now }
    requires known { AreTallied (plain_design design.now) (length order.now) tallies.now order.now }
    requires sized { length tallies.now ≡ length design.now.components.items }
    requires few { instances_below (tree_of (plain_design design.now)) ≤ 4096 }
    ensures { IfOk result (λ table. IsTable (plain_design design.now) table.rows.items table.children.items) }
{
    let components = design.components.as_slice();
    let count = instance_count(design, order, tallies);
    let main = InstanceRow {
        component: design.main,
        parent: 0,
        cell: 0,
        first: 0,
    };
    let mut rows = vec![in alloc; main; count]?;
    let mut children = Vec::new(alloc);
    for number in 0..count {
        let component = rows[number].component as usize;
        rows[number].first = children.len();
        let cells = components[component].cells.as_slice();
        add_cells(&mut rows, &mut children, tallies, cells, number)?;
    }
    Ok(InstanceTable { rows, children })
}

/// The table of the instance tree of an accepted design without static components.
pub fn instances(alloc: Global, design: &Checked) -> Result<InstanceTable, Memory>
    requires flat { IsFlat (plain_design design.now) }
    ensures value { IfOk result (λ table. IsTable (plain_design design.now) table.rows.items table.children.items) }
{
    let design = design.design();
    let order = children_first(alloc, design)?;
    let tallies = component_tallies(alloc, design, &order)?;
    table(alloc, design, &order, &tallies)
}
