//! Where the groups of all instances of a design stand in its flat design.

ghost use Rattle.std.specs.Prelude.{◌≡◌, ◌<◌, ◌++◌, ◌∷◌, [], IfOk, length, map};
ghost use Rattle.cx_meaning.specs.Instances.{tree_of};
ghost use Rattle.cx_design.specs.PlainForms.{plain_component, plain_kind};
ghost use Rattle.cx_design.specs.PlainDesigns.{plain_design};
ghost use Rattle.cx_design_sizes.specs.Orders.{IsChildrenFirst};
ghost use Rattle.cx_profiling.specs.FlatEntries.{entry_at};
ghost use Rattle.cx_flat.specs.Callers.{AreFirsts, IsCaller, kids_in, part_of};
ghost use Rattle.cx_flat.specs.Lasts.{AreLasts};
ghost use Rattle.cx_flat.specs.Places as definitions;
ghost use Rattle.cx_flat.specs.Places.{ArePlacesTo, cell_places, kind_places, listed, places_in, plain_instance, plain_instances};
ghost use Rattle.cx_flat.specs.Placing.{placed_by, placed_list, plain_places};
ghost use Rattle.cx_flat.specs.Tables.{kids_of, plain_table};

use crate::callers::Caller;
use crate::flattening::{kids_behind, no_kids};
use crate::groups::groups_again;
use crate::lasts::last_callers;
use crate::placing::{FlatPlace, Placing, placed, placing_at};
use crate::stands::stands;
use cx_design::{CellKind, Checked, Component, Design};
use cx_design_copies::{number, sum};
use cx_design_sizes::children_first;
use cx_text::Memory;
use std::alloc::Global;

/// Of each group of an instance, by its number, the groups of the flat design that stand for it.
#[derive(Debug, Drop)]
pub struct InstancePlaces {
    pub groups: Vec<Vec<FlatPlace>>,
}

/// For each instance of an accepted design, in pre-order, the groups of the flat design that stand for its groups. Want of memory is
/// answered too where 32 bits do not number the parts of a flat component.
pub fn flat_places(alloc: Global, design: &Checked) -> Result<Vec<InstancePlaces>, Memory>
    ensures value { IfOk result (λ all. plain_instances all.items ≡ places_in (tree_of (plain_design design.now))) }
{
    design_places(alloc, design.design())
}

/// The same of a design.
fn design_places(alloc: Global, design: &Design) -> Result<Vec<InstancePlaces>, Memory>
    ensures value { IfOk result (λ all. plain_instances all.items ≡ places_in (tree_of (plain_design design.now))) }
{
    let order = children_first(alloc, design)?;
    let lasts = last_callers(alloc, design, &order)?;
    let mut lists = lists_in_order(alloc, design, &order, &lasts)?;
    Ok(lists.swap_remove(design.main as usize))
}

/// The lists of the components of an order in which those of a component's cells come before it, by number. The flat components of
/// static ones are made beside them.
fn lists_in_order(
    alloc: Global,
    design: &Design,
    order: &[u32],
    lasts: &[usize],
) -> Result<Vec<Vec<InstancePlaces>>, Memory>
    requires first { IsChildrenFirst (plain_design design.now) order.now }
    requires lasts { AreLasts (plain_design design.now) order.now (length order.now) lasts.now }
    ensures value { IfOk result
        (λ lists. ArePlacesTo (plain_design design.now) order.now (length order.now) lists.items) }
{
    let components = design.components.as_slice();
    let mut kids = no_kids(alloc, components.len())?;
    let mut lists = no_lists(alloc, components.len())?;
    for place in 0..order.len() {
        let number = order[place] as usize;
        let list = component_places(alloc, &kids, &lists, &components[number])?;
        lists[number] = list;
        kids = kids_behind(alloc, kids, design, order, lasts, place)?;
    }
    Ok(lists)
}

/// No places, for each of so many numbers.
fn no_lists(alloc: Global, count: usize) -> Result<Vec<Vec<InstancePlaces>>, Memory>
    ensures value { IfOk result (λ lists. length lists.items ≡ count) }
{
    let mut lists = Vec::with_capacity(alloc, count)?;
    for _number in 0..count {
        lists.push(Vec::new(alloc))?;
    }
    Ok(lists)
}

/// The places of a component and all below it, where the flat components and the places of its children are given by number.
fn component_places(
    alloc: Global,
    kids: &[Option<Component>],
    lists: &[Vec<InstancePlaces>],
    part: &Component,
) -> Result<Vec<InstancePlaces>, Memory>
    ensures value { IfOk result (λ all. plain_instances all.items ≡
        definitions.component_places (kids_of (plain_table kids.now) (plain_component part.now).cells)
        (plain_component part.now) (listed lists.now)) }
{
    let stands = stands(alloc, kids, &part.cells)?;
    let caller = Caller {
        table: kids,
        part,
        stands: &stands,
    };
    caller_places(alloc, caller, lists)
}

/// The places of a caller and all below it.
fn caller_places(
    alloc: Global,
    caller: Caller<'_>,
    lists: &[Vec<InstancePlaces>],
) -> Result<Vec<InstancePlaces>, Memory>
    requires caller { IsCaller caller }
    ensures value { IfOk result (λ all. plain_instances all.items ≡
        definitions.component_places (kids_in caller.entry) (part_of caller.entry) (listed lists.now)) }
{
    let flat = groups_again(alloc, caller)?;
    let mut all = Vec::new(alloc);
    all.push(own_places(alloc, caller.part.groups.len())?)?;
    with_cells(alloc, all, caller, &flat.firsts, lists)
}

/// The places of so many groups of a component's own.
fn own_places(alloc: Global, count: usize) -> Result<InstancePlaces, Memory>
    ensures value { IfOk result (λ own. plain_instance own ≡ definitions.own_places count) }
{
    let mut groups = Vec::with_capacity(alloc, count)?;
    for group in 0..number(count)? {
        groups.push(own_place(alloc, group)?)?;
    }
    Ok(InstancePlaces { groups })
}

/// The place of a group of a component's own.
fn own_place(alloc: Global, group: u32) -> Result<Vec<FlatPlace>, Memory>
    ensures value { IfOk result (λ own. plain_places own.items ≡ entry_at [] group ∷ []) }
{
    let mut own = Vec::new(alloc);
    let path = Vec::new(alloc);
    own.push(FlatPlace { path, group })?;
    Ok(own)
}

/// Appends the places of what is below the cells of a caller.
fn with_cells(
    alloc: Global,
    front: Vec<InstancePlaces>,
    caller: Caller<'_>,
    firsts: &[u32],
    lists: &[Vec<InstancePlaces>],
) -> Result<Vec<InstancePlaces>, Memory>
    requires caller { IsCaller caller }
    requires firsts { AreFirsts caller firsts.now }
    ensures value { IfOk result (λ all. plain_instances all.items ≡
        plain_instances front.items ++ cell_places (kids_in caller.entry) (part_of caller.entry)
        (listed lists.now) 0 (part_of caller.entry).cells) }
{
    let mut all = front;
    let mut number = 0u32;
    for cell in &caller.part.cells {
        all = with_kind(alloc, all, caller, firsts, lists, &cell.kind, number)?;
        number = sum(number, 1)?;
    }
    Ok(all)
}

/// Appends the places of what is below a cell of a kind.
fn with_kind(
    alloc: Global,
    front: Vec<InstancePlaces>,
    caller: Caller<'_>,
    firsts: &[u32],
    lists: &[Vec<InstancePlaces>],
    kind: &CellKind,
    cell: u32,
) -> Result<Vec<InstancePlaces>, Memory>
    requires caller { IsCaller caller }
    requires firsts { AreFirsts caller firsts.now }
    ensures value { IfOk result (λ all. plain_instances all.items ≡
        plain_instances front.items ++ kind_places (kids_in caller.entry) (part_of caller.entry)
        (listed lists.now) cell (plain_kind kind.now)) }
{
    match kind {
        CellKind::Prim(_) => Ok(front),
        CellKind::Part(component) => {
            let placing = placing_at(alloc, caller, firsts, cell)?;
            with_list(alloc, front, &placing, lists, *component)
        }
    }
}

/// Appends where the places that are listed for a component stand.
fn with_list(
    alloc: Global,
    front: Vec<InstancePlaces>,
    placing: &Placing,
    lists: &[Vec<InstancePlaces>],
    component: u32,
) -> Result<Vec<InstancePlaces>, Memory>
    ensures value { IfOk result (λ all. plain_instances all.items ≡
        plain_instances front.items
        ++ map (map (placed_list (placed_by placing.now))) (listed lists.now component)) }
{
    match lists.get(component as usize) {
        Some(list) => with_instances(alloc, front, placing, list),
        None => Ok(front),
    }
}

/// Appends where the places of instances stand.
fn with_instances(
    alloc: Global,
    front: Vec<InstancePlaces>,
    placing: &Placing,
    instances: &[InstancePlaces],
) -> Result<Vec<InstancePlaces>, Memory>
    ensures value { IfOk result (λ all. plain_instances all.items ≡
        plain_instances front.items
        ++ map (map (placed_list (placed_by placing.now))) (plain_instances instances.now)) }
{
    let mut all = front;
    for instance in instances {
        all.push(placed_instance(alloc, placing, instance)?)?;
    }
    Ok(all)
}

/// Where the places of an instance stand.
fn placed_instance(
    alloc: Global,
    placing: &Placing,
    instance: &InstancePlaces,
) -> Result<InstancePlaces, Memory>
    ensures value { IfOk result (λ all.
        plain_instance all ≡ map (placed_list (placed_by placing.now)) (plain_instance instance.now)) }
{
    let mut groups = Vec::with_capacity(alloc, instance.groups.len())?;
    for group in &instance.groups {
        groups.push(placed(alloc, placing, group)?)?;
    }
    Ok(InstancePlaces { groups })
}
