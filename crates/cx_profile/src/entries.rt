//! The entries of a profile: which group of which instance each count is of.

ghost use Rattle.std.specs.Prelude.{◌≡◌, ◌+◌, ◌<◌, ◌++◌, ◌∷◌, IfOk, [], length, map};
ghost use Rattle.cx_meaning.specs.Instances.{add_cell, cells_for, no_cells, tree_of, tree_within};
ghost use Rattle.cx_design.specs.PlainForms.{plain_cell, plain_group, plain_kind};
ghost use Rattle.cx_design.specs.PlainDesigns.{plain_design};
ghost use Rattle.cx_profile.specs.Renumbering.{AreThere, IsThereKind};
ghost use Rattle.cx_profile.specs.Walks.{IsPast, IsPastCells, counted_row, counted_rows};
ghost use Rattle.cx_profile.specs.Rows as rows;

use crate::counted::is_counted;
use cx_design::{Cell, CellKind, Component, Design, Group};
use cx_design_copies::sum;
use cx_text::{Memory, Name};
use std::alloc::Global;

/// A group of an instance, by their numbers: the instance in pre-order of the tree of main, the group in its component. The path is
/// the names of the cells that lead from main to the instance, and that of the group, joined by points.
#[derive(Debug, Drop)]
pub struct ProfiledGroup {
    pub instance: u32,
    pub group: u32,
    pub path: Name,
}

/// A walk through the tree of instances: the groups so far, and the number of the next instance.
#[derive(Drop)]
struct Walk {
    groups: Vec<ProfiledGroup>,
    instance: u32,
}

/// The counted groups of all instances, in pre-order of the tree, and of each in source order.
pub(crate) fn profiled_groups(alloc: Global, design: &Design) -> Result<Vec<ProfiledGroup>, Memory>
    ensures value { IfOk result (λ groups. groups.items ≡ rows.rows_in (tree_of (plain_design design.now)) 0 []) }
{
    let walk = Walk {
        groups: Vec::new(alloc),
        instance: 0,
    };
    let levels = design.components.len();
    let walk = past_instance(alloc, design, levels, design.main, &[], walk)?;
    Ok(walk.groups)
}

/// Goes past an instance of a component and all below it, with fewer levels than so many. No chain of components is longer than
/// there are components.
#[cycle(walk)]
fn past_instance(
    alloc: Global,
    design: &Design,
    levels: usize,
    component: u32,
    names: &[u8],
    walk: Walk,
) -> Result<Walk, Memory>
    requires there { component < length design.now.components.items }
    ensures value { IfOk result (IsPast (tree_within (plain_design design.now) levels component) names.now walk) }
{
    if levels == 0 {
        return Err(Memory);
    }
    let part = &design.components.as_slice()[component as usize];
    let past = past_groups(alloc, part, names, walk)?;
    past_cells(alloc, design, levels - 1, &part.cells, names, past)
}

/// Goes past the instances of the components of cells, in order.
#[cycle(walk)]
fn past_cells(
    alloc: Global,
    design: &Design,
    levels: usize,
    cells: &[Cell],
    names: &[u8],
    walk: Walk,
) -> Result<Walk, Memory>
    requires there { AreThere (length design.now.components.items) (map plain_cell cells.now) }
    ensures value { IfOk result (IsPastCells
        (cells_for (tree_within (plain_design design.now) levels) (map plain_cell cells.now))
        (map plain_cell cells.now) names.now walk) }
{
    let mut past = walk;
    for cell in cells {
        past = past_cell(alloc, design, levels, cell, names, past)?;
    }
    Ok(past)
}

/// Goes past the instance of a cell's component, if it has one.
#[cycle(walk)]
fn past_cell(
    alloc: Global,
    design: &Design,
    levels: usize,
    cell: &Cell,
    names: &[u8],
    walk: Walk,
) -> Result<Walk, Memory>
    requires there { IsThereKind (length design.now.components.items) (plain_kind cell.now.kind) }
    ensures value { IfOk result (IsPastCells
        (add_cell (tree_within (plain_design design.now) levels) (plain_kind cell.now.kind) no_cells)
        (map plain_cell (cell.now ∷ [])) names.now walk) }
{
    match &cell.kind {
        CellKind::Prim(_) => Ok(walk),
        CellKind::Part(component) => {
            let below = names_below(alloc, names, cell.name.bytes())?;
            past_instance(alloc, design, levels, *component, &below, walk)
        }
    }
}

/// Names, and one more with a point behind it.
fn names_below(alloc: Global, names: &[u8], name: &[u8]) -> Result<Vec<u8>, Memory>
    ensures value { IfOk result (λ all. all.items ≡ rows.names_below names.now name.now) }
{
    let mut all = Vec::from_slice(alloc, names)?;
    all.extend_from_slice(name)?;
    all.push(b'.')?;
    Ok(all)
}

/// Goes past an instance itself, with its counted groups.
fn past_groups(alloc: Global, part: &Component, names: &[u8], walk: Walk) -> Result<Walk, Memory>
    ensures groups { IfOk result (λ past. past.groups.items ≡
        walk.groups.items ++ counted_rows (map plain_cell part.now.cells.items) walk.instance names.now 0
        (map plain_group part.now.groups.items)) }
    ensures instance { IfOk result (λ past. past.instance ≡ walk.instance + 1) }
{
    let instance = sum(walk.instance, 1)?;
    let groups = with_own_groups(alloc, walk.groups, part, names, walk.instance)?;
    Ok(Walk { groups, instance })
}

/// Appends the counted groups of an instance of a component.
fn with_own_groups(
    alloc: Global,
    groups: Vec<ProfiledGroup>,
    part: &Component,
    names: &[u8],
    instance: u32,
) -> Result<Vec<ProfiledGroup>, Memory>
    ensures value { IfOk result (λ all. all.items ≡
        groups.items ++ counted_rows (map plain_cell part.now.cells.items) instance names.now 0
        (map plain_group part.now.groups.items)) }
{
    let mut all = groups;
    let mut group = 0u32;
    for own in &part.groups {
        all = with_own_group(alloc, all, part, own, names, instance, group)?;
        group = sum(group, 1)?;
    }
    Ok(all)
}

/// Appends a group of an instance, where it is counted.
fn with_own_group(
    alloc: Global,
    groups: Vec<ProfiledGroup>,
    part: &Component,
    own: &Group,
    names: &[u8],
    instance: u32,
    group: u32,
) -> Result<Vec<ProfiledGroup>, Memory>
    ensures value { IfOk result (λ all. all.items ≡
        groups.items
        ++ counted_row (map plain_cell part.now.cells.items) instance names.now group (plain_group own.now)) }
{
    if !is_counted(&part.cells, own) {
        return Ok(groups);
    }
    let path = path_of(alloc, names, own.name.bytes())?;
    let mut all = groups;
    all.push(ProfiledGroup {
        instance,
        group,
        path,
    })?;
    Ok(all)
}

/// Names, and behind them one more.
fn path_of(alloc: Global, names: &[u8], name: &[u8]) -> Result<Name, Memory>
    ensures value { IfOk result (λ path. path ≡ names.now ++ name.now) }
{
    let mut path = Vec::from_slice(alloc, names)?;
    path.extend_from_slice(name)?;
    Name::from_bytes(alloc, path.as_slice())
}
