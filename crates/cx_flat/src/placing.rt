//! Where the groups of a child stand in the flat component of its caller.

ghost use Rattle.std.specs.Prelude.{◌≡◌, ◌∷◌, ◌++◌, [], ℕ, IfOk, map};
ghost use Rattle.cx_meaning.specs.Control.{groups_of};
ghost use Rattle.cx_design.specs.PlainForms.{plain_component};
ghost use Rattle.cx_flattening.specs.Copies.{enabled_below};
ghost use Rattle.cx_flattening.specs.Flattened.{first_copy, kid_at};
ghost use Rattle.cx_profiling.specs.FlatEntries.{entry_at, invokes_of, placed_entry};
ghost use Rattle.cx_flat.specs.Callers.{AreFirsts, IsCaller, kids_in, part_of};
ghost use Rattle.cx_flat.specs.Enabling.{below_by};
ghost use Rattle.cx_flat.specs.Placing.{copies_at, copies_by, inlined_by, placed_by, placed_list, plain_places};

use crate::callers::Caller;
use crate::enabled::{Enabled, copy_number, enabled_counts, groups_enabled, is_enabled};
use crate::kids::kid_at_cell;
use crate::stands::Stand;
use cx_design::Component;
use cx_design_copies::sum;
use cx_text::Memory;
use std::alloc::Global;

/// A group of an instance of a flat design: the cells that lead from main to the instance, and the number of the group in its
/// component.
#[derive(Debug, Drop)]
pub struct FlatPlace {
    pub path: Vec<u32>,
    pub group: u32,
}

/// Where the groups of the child at a cell, and those of all below it, stand in the flat component of its caller.
#[derive(Debug, Drop)]
pub(crate) enum Placing {
    /// Below the cell of a child that is kept, by its number.
    Kept(u32),
    /// As copies, or below the cells that stand for those of a static child.
    Inlined(Inlining),
}

/// Where the groups of a static child, and those of all below it, stand in the flat component of its caller.
#[derive(Debug, Drop)]
pub(crate) struct Inlining {
    /// The number of the first of the child's cells.
    pub cells: u32,
    /// For each invoke of the child, the number of the first copy of a group.
    pub firsts: Vec<u32>,
    /// The groups that the child's control enables.
    pub used: Vec<u32>,
    /// How many of these are below each number.
    pub enabled: Enabled,
}

/// Where the groups of the child at a cell stand, if the first copies of groups for invokes have these numbers.
pub(crate) fn placing_at(
    alloc: Global,
    caller: Caller<'_>,
    firsts: &[u32],
    cell: u32,
) -> Result<Placing, Memory>
    requires caller { IsCaller caller }
    requires firsts { AreFirsts caller firsts.now }
    ensures value { IfOk result (λ p. placed_by p ≡
        placed_entry (kids_in caller.entry) (part_of caller.entry) cell (kid_at (kids_in caller.entry) cell)) }
{
    match (
        kid_at_cell(caller.table, &caller.part.cells, cell),
        caller.stands.get(cell as usize),
    ) {
        (Some(child), Some(Stand::Inlined(block))) => {
            let inlined = inlining_at(alloc, caller, firsts, cell, block.cells, child)?;
            Ok(Placing::Inlined(inlined))
        }
        (None, Some(Stand::Kept(number))) => Ok(Placing::Kept(*number)),
        (Some(_), Some(Stand::Kept(_)) | None) | (None, Some(Stand::Inlined(_)) | None) => {
            Err(Memory)
        }
    }
}

/// Where the groups of the static child at a cell stand, of whose cells the first has this number.
fn inlining_at(
    alloc: Global,
    caller: Caller<'_>,
    firsts: &[u32],
    cell: u32,
    cells: u32,
    child: &Component,
) -> Result<Inlining, Memory>
    requires firsts { AreFirsts caller firsts.now }
    ensures cells { IfOk result (λ i. i.cells ≡ cells) }
    ensures firsts { IfOk result (λ i. i.firsts.items ≡
        map (first_copy (kids_in caller.entry) (part_of caller.entry))
        (invokes_of cell 0 (part_of caller.entry).invokes)) }
    ensures used { IfOk result (λ i. i.used.items ≡ groups_of (plain_component child.now).control) }
    ensures enabled { IfOk result (λ i. (g : ℕ)
        → below_by i.enabled.below.items i.enabled.count g ≡
        enabled_below (groups_of (plain_component child.now).control) g) }
{
    Ok(Inlining {
        cells,
        firsts: firsts_of(alloc, caller, firsts, cell)?,
        used: groups_enabled(alloc, &child.control)?,
        enabled: enabled_counts(alloc, &child.control)?,
    })
}

/// The numbers of the first copies of groups for the invokes of a cell.
fn firsts_of(
    alloc: Global,
    caller: Caller<'_>,
    firsts: &[u32],
    cell: u32,
) -> Result<Vec<u32>, Memory>
    requires firsts { AreFirsts caller firsts.now }
    ensures value { IfOk result (λ all. all.items ≡
        map (first_copy (kids_in caller.entry) (part_of caller.entry))
        (invokes_of cell 0 (part_of caller.entry).invokes)) }
{
    let mut all = Vec::new(alloc);
    let mut number = 0u32;
    for invoke in &caller.part.invokes {
        if invoke.cell == cell {
            all.push(first_of(caller, firsts, number)?)?;
        }
        number = sum(number, 1)?;
    }
    Ok(all)
}

/// The number of the first copy of a group for an invoke.
fn first_of(caller: Caller<'_>, firsts: &[u32], number: u32) -> Result<u32, Memory>
    requires firsts { AreFirsts caller firsts.now }
    ensures value { IfOk result (λ n. n ≡ first_copy (kids_in caller.entry) (part_of caller.entry) number) }
{
    match firsts.get(number as usize) {
        Some(first) => Ok(*first),
        None => Err(Memory),
    }
}

/// Where the places of a group of the child stand.
pub(crate) fn placed(
    alloc: Global,
    placing: &Placing,
    places: &[FlatPlace],
) -> Result<Vec<FlatPlace>, Memory>
    ensures value { IfOk result
        (λ all. plain_places all.items ≡ placed_list (placed_by placing.now) (plain_places places.now)) }
{
    let mut all = Vec::with_capacity(alloc, places.len())?;
    for place in places {
        all = with_placed(alloc, all, placing, place)?;
    }
    Ok(all)
}

/// Appends where a place stands.
fn with_placed(
    alloc: Global,
    front: Vec<FlatPlace>,
    placing: &Placing,
    place: &FlatPlace,
) -> Result<Vec<FlatPlace>, Memory>
    ensures value { IfOk result (λ all. plain_places all.items ≡
        plain_places front.items ++ placed_by placing.now place.now.path.items place.now.group) }
{
    match placing {
        Placing::Kept(cell) => with_place(alloc, front, *cell, &place.path, place.group),
        Placing::Inlined(child) => with_inlined(alloc, front, child, &place.path, place.group),
    }
}

/// Appends where a place of a static child stands.
fn with_inlined(
    alloc: Global,
    front: Vec<FlatPlace>,
    child: &Inlining,
    path: &[u32],
    group: u32,
) -> Result<Vec<FlatPlace>, Memory>
    ensures value { IfOk result
        (λ all. plain_places all.items ≡ plain_places front.items ++ inlined_by child.now path.now group) }
{
    match path.split_first() {
        None => with_copies(alloc, front, child, group),
        Some((cell, rest)) => with_place(alloc, front, sum(child.cells, *cell)?, rest, group),
    }
}

/// Appends the copies of a group of a static child.
fn with_copies(
    alloc: Global,
    front: Vec<FlatPlace>,
    child: &Inlining,
    group: u32,
) -> Result<Vec<FlatPlace>, Memory>
    ensures value { IfOk result
        (λ all. plain_places all.items ≡ plain_places front.items ++ copies_by child.now group) }
{
    if is_enabled(&child.used, group) {
        with_each_copy(alloc, front, child, group)
    } else {
        Ok(front)
    }
}

/// Appends the copies of a group of a static child, for each of its invokes.
fn with_each_copy(
    alloc: Global,
    front: Vec<FlatPlace>,
    child: &Inlining,
    group: u32,
) -> Result<Vec<FlatPlace>, Memory>
    ensures value { IfOk result (λ all. plain_places all.items ≡
        plain_places front.items ++ copies_at child.now.enabled group child.now.firsts.items) }
{
    let mut all = front;
    for first in &child.firsts {
        all.push(FlatPlace {
            path: Vec::new(alloc),
            group: copy_number(*first, &child.enabled, group)?,
        })?;
    }
    Ok(all)
}

/// Appends the place of a group below a cell.
fn with_place(
    alloc: Global,
    front: Vec<FlatPlace>,
    cell: u32,
    path: &[u32],
    group: u32,
) -> Result<Vec<FlatPlace>, Memory>
    ensures value { IfOk result
        (λ all. plain_places all.items ≡ plain_places front.items ++ entry_at (cell ∷ path.now) group ∷ []) }
{
    let path = path_below(alloc, cell, path)?;
    let mut all = front;
    all.push(FlatPlace { path, group })?;
    Ok(all)
}

/// A path, and a cell in front of it.
fn path_below(alloc: Global, cell: u32, path: &[u32]) -> Result<Vec<u32>, Memory>
    ensures value { IfOk result (λ below. below.items ≡ cell ∷ path.now) }
{
    let mut below = Vec::new(alloc);
    below.push(cell)?;
    below.extend_from_slice(path)?;
    Ok(below)
}
