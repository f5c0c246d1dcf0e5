//! The flat design.

ghost use Rattle.std.specs.Prelude.{◌≡◌, ◌<◌, ◌+◌, ◌++◌, ◌&&◌, IfOk, get_or, is_none, is_some, length, map, option_map};
ghost use Rattle.cx_design.specs.PlainForms.{plain_cell, plain_component, plain_kind};
ghost use Rattle.cx_design.specs.PlainDesigns.{plain_design};
ghost use Rattle.cx_design_sizes.specs.Orders.{IsChildrenFirst};
ghost use Rattle.cx_rules.specs.Accepted.{IsAccepted};
ghost use Rattle.cx_rules.specs.Externals.{external_rows};
ghost use Rattle.cx_rules.specs.Flat.{ArePlainNames, IsFlat};
ghost use Rattle.cx_flattening.specs.Ends.{NoneNamesDone};
ghost use Rattle.cx_flattening.specs.FlatDesign as definitions;
ghost use Rattle.cx_flattening.specs.Flattened.{flat_component, kid_if};
ghost use Rattle.cx_flat.specs.Flats.{AreKids, AreKidsTo, AreMarks, cell_by, kept_for, kind_by, numbers_of, renumbered_by};
ghost use Rattle.cx_flat.specs.Lasts.{AreLasts};
ghost use Rattle.cx_design_copies.specs.Reaching.{AreMadeOf};
ghost use Rattle.cx_flat.specs.Keeping.{TellsAs};
ghost use Rattle.cx_flat.specs.Tables.{kids_of, plain_table};

use crate::components::component_again;
use crate::lasts::{last_callers, without_done};
use crate::levels::fits;
use cx_design::{Cell, CellKind, Checked, Component, Design};
use cx_design_copies::{copied_name, made_of, sum};
use cx_design_sizes::children_first;
use cx_flattening::laws::{
    accepted_designs_keep_their_runs, flat_designs_are_accepted, flat_designs_are_designs,
    flat_designs_are_flat,
};
use cx_text::Memory;
use std::alloc::Global;

/// Control that nests deeper than so many levels is not made.
const LEVELS: u32 = 1024;

/// The flat design of an accepted one: it is accepted, no component of it is static, and it does what the design does. It has the
/// external memories of the design, and on all data and under each budget its run tells what the design tells by its own meaning: the
/// same turns and words, the same kind of fault at the port of the same name in the same turn, or that more turns are needed.
///
/// It asks for what the design of every text keeps: that no name of a cell or a port is empty or holds a point (`ArePlainNames`), and that
/// nothing looks at the done of a static component's cell (`NoneNamesDone`). Want of memory is answered too where 32 bits do not number
/// the parts of a flat component, and where control would nest deeper than 1,024 levels.
pub fn flatten(alloc: Global, design: &Checked) -> Result<Checked, Memory>
    requires undone { NoneNamesDone (plain_design design.now) }
    requires plain { ArePlainNames (plain_design design.now) }
    ensures design { IfOk result (λ flat. plain_design flat ≡ definitions.flat_design (plain_design design.now)) }
    ensures flat { IfOk result (λ flat. IsFlat (plain_design flat)) }
    ensures rows { IfOk result (λ flat. external_rows (plain_design flat) ≡ external_rows (plain_design design.now)) }
    ensures runs { IfOk result (λ flat. TellsAs (plain_design flat) (plain_design design.now)) }
{
    flat_designs_are_flat();
    flat_designs_are_accepted();
    accepted_designs_keep_their_runs();
    let flat = flat_design(alloc, design.design())?;
    Ok(Checked::new(flat))
}

/// The flat design, which keeps what every design keeps.
fn flat_design(alloc: Global, design: &Design) -> Result<Design, Memory>
    requires accepted { IsAccepted (plain_design design.now) }
    requires undone { NoneNamesDone (plain_design design.now) }
    requires plain { ArePlainNames (plain_design design.now) }
    ensures design { IfOk result (λ flat. plain_design flat ≡ definitions.flat_design (plain_design design.now)) }
{
    flat_designs_are_designs();
    let kids = static_kids(alloc, design)?;
    let marks = kept_marks(alloc, design)?;
    let numbers = new_numbers(alloc, &marks)?;
    let components = kept_components(alloc, design, &kids, &marks, &numbers)?;
    let main = new_number(&numbers, design.main);
    Ok(Design { components, main })
}

/// The new number of a component.
fn new_number(numbers: &[u32], number: u32) -> u32
    requires there { number < length numbers.now }
    ensures value { result ≡ get_or numbers.now number 0 }
{
    numbers[number as usize]
}

/// The flat components of the static components of which one that is not static has a cell, by number.
fn static_kids(alloc: Global, design: &Design) -> Result<Vec<Option<Component>>, Memory>
    ensures value { IfOk result (λ kids. AreKids (plain_design design.now) (plain_table kids.items)) }
{
    let order = children_first(alloc, design)?;
    let lasts = last_callers(alloc, design, &order)?;
    kids_in_order(alloc, design, &order, &lasts)
}

/// The flat components of the static components of an order, made one after the other, as far as one that is not static has a cell of
/// them.
fn kids_in_order(
    alloc: Global,
    design: &Design,
    order: &[u32],
    lasts: &[usize],
) -> Result<Vec<Option<Component>>, Memory>
    requires first { IsChildrenFirst (plain_design design.now) order.now }
    requires lasts { AreLasts (plain_design design.now) order.now (length order.now) lasts.now }
    ensures value { IfOk result (λ kids.
        AreKidsTo (plain_design design.now) order.now lasts.now (length order.now) kids.items) }
{
    let mut kids = no_kids(alloc, design.components.len())?;
    for place in 0..order.len() {
        kids = kids_behind(alloc, kids, design, order, lasts, place)?;
    }
    Ok(kids)
}

/// The flat components with that of the next of an order, where it is static, and without those that none behind it needs.
pub(crate) fn kids_behind(
    alloc: Global,
    before: Vec<Option<Component>>,
    design: &Design,
    order: &[u32],
    lasts: &[usize],
    place: usize,
) -> Result<Vec<Option<Component>>, Memory>
    requires there { place < length order.now }
    requires first { IsChildrenFirst (plain_design design.now) order.now }
    requires lasts { AreLasts (plain_design design.now) order.now (length order.now) lasts.now }
    requires kids { AreKidsTo (plain_design design.now) order.now lasts.now place before.items }
    ensures value { IfOk result (λ kids.
        AreKidsTo (plain_design design.now) order.now lasts.now (place + 1) kids.items) }
{
    let components = design.components.as_slice();
    let number = order[place] as usize;
    let part = &components[number];
    let kid = kid_again(alloc, &before, part)?;
    let mut kids = before;
    kids[number] = kid;
    Ok(without_done(kids, lasts, &part.cells, place))
}

/// No flat component, for each of so many numbers.
pub(crate) fn no_kids(alloc: Global, count: usize) -> Result<Vec<Option<Component>>, Memory>
    ensures value { IfOk result (λ kids. length kids.items ≡ count) }
{
    let mut kids = Vec::with_capacity(alloc, count)?;
    for _number in 0..count {
        kids.push(None)?;
    }
    Ok(kids)
}

/// The flat component, where the component is static.
fn kid_again(
    alloc: Global,
    kids: &[Option<Component>],
    part: &Component,
) -> Result<Option<Component>, Memory>
    ensures value { IfOk result (λ kid. option_map plain_component kid ≡
        kid_if (is_some (plain_component part.now).latency)
        (flat_component (kids_of (plain_table kids.now) (plain_component part.now).cells)
        (plain_component part.now))) }
{
    if part.latency.is_some() {
        Ok(Some(flat_part(alloc, kids, part)?))
    } else {
        Ok(None)
    }
}

/// The flat component, where its control nests in so many levels.
fn flat_part(
    alloc: Global,
    kids: &[Option<Component>],
    part: &Component,
) -> Result<Component, Memory>
    ensures value { IfOk result (λ flat. plain_component flat ≡
        flat_component (kids_of (plain_table kids.now) (plain_component part.now).cells)
        (plain_component part.now)) }
{
    let flat = component_again(alloc, kids, part)?;
    if fits(LEVELS, &flat.control) {
        Ok(flat)
    } else {
        Err(Memory)
    }
}

/// Of each component whether the flat main reaches it: those that main is made of and that are not static.
fn kept_marks(alloc: Global, design: &Design) -> Result<Vec<bool>, Memory>
    ensures value { IfOk result (λ marks. AreMarks (plain_design design.now) marks.items) }
{
    let made = made_of(alloc, design)?;
    dynamic_marks(alloc, design, &made)
}

/// Of each component whether main is made of it, as told, and it is not static.
fn dynamic_marks(alloc: Global, design: &Design, made: &[bool]) -> Result<Vec<bool>, Memory>
    requires made { AreMadeOf (plain_design design.now) made.now }
    ensures value { IfOk result (λ marks. AreMarks (plain_design design.now) marks.items) }
{
    let components = design.components.as_slice();
    let mut marks = Vec::with_capacity(alloc, made.len())?;
    for number in 0..components.len() {
        marks.push(is_kept(made[number], components[number].latency))?;
    }
    Ok(marks)
}

/// Whether a component is kept that main is made of, as told: one that is not static.
fn is_kept(made: bool, latency: Option<u64>) -> bool
    ensures value { result ≡ made && is_none latency }
{
    made && latency.is_none()
}

/// The new number of each component: how many are kept before it.
fn new_numbers(alloc: Global, marks: &[bool]) -> Result<Vec<u32>, Memory>
    ensures value { IfOk result (λ numbers. numbers.items ≡ numbers_of 0 marks.now) }
{
    let mut numbers = Vec::with_capacity(alloc, marks.len())?;
    let mut next = 0u32;
    for mark in marks {
        numbers.push(next)?;
        if *mark {
            next = sum(next, 1)?;
        }
    }
    Ok(numbers)
}

/// The flat components that are kept, in their order, each with the new numbers.
fn kept_components(
    alloc: Global,
    design: &Design,
    kids: &[Option<Component>],
    marks: &[bool],
    numbers: &[u32],
) -> Result<Vec<Component>, Memory>
    requires kids { AreKids (plain_design design.now) (plain_table kids.now) }
    requires marks { AreMarks (plain_design design.now) marks.now }
    requires numbers { numbers.now ≡ numbers_of 0 marks.now }
    ensures value { IfOk result (λ all.
        map plain_component all.items ≡ (definitions.flat_design (plain_design design.now)).components) }
{
    let mut all = Vec::new(alloc);
    for number in 0..design.components.len() {
        all = with_kept(alloc, all, design, kids, marks, numbers, number)?;
    }
    Ok(all)
}

/// Appends the flat component of a number, where it is kept.
fn with_kept(
    alloc: Global,
    front: Vec<Component>,
    design: &Design,
    kids: &[Option<Component>],
    marks: &[bool],
    numbers: &[u32],
    number: usize,
) -> Result<Vec<Component>, Memory>
    requires there { number < length design.now.components.items }
    requires kids { AreKids (plain_design design.now) (plain_table kids.now) }
    requires marks { AreMarks (plain_design design.now) marks.now }
    requires numbers { numbers.now ≡ numbers_of 0 marks.now }
    ensures value { IfOk result (λ all. map plain_component all.items ≡
        map plain_component front.items ++ kept_for (plain_design design.now) number) }
{
    if marks[number] {
        let components = design.components.as_slice();
        let flat = flat_part(alloc, kids, &components[number])?;
        let part = renumbered_part(alloc, flat, numbers)?;
        let mut all = front;
        all.push(part)?;
        Ok(all)
    } else {
        Ok(front)
    }
}

/// The component with new numbers of the components of its cells.
fn renumbered_part(alloc: Global, part: Component, numbers: &[u32]) -> Result<Component, Memory>
    ensures value { IfOk result (λ new. plain_component new ≡ renumbered_by numbers.now (plain_component part)) }
{
    let cells = renumbered_cells(alloc, &part.cells, numbers)?;
    Ok(Component {
        name: part.name,
        latency: part.latency,
        inputs: part.inputs,
        outputs: part.outputs,
        cells,
        groups: part.groups,
        invokes: part.invokes,
        always: part.always,
        control: part.control,
        place: part.place,
    })
}

/// The cells with new numbers of their components.
fn renumbered_cells(alloc: Global, cells: &[Cell], numbers: &[u32]) -> Result<Vec<Cell>, Memory>
    ensures value { IfOk result
        (λ all. map plain_cell all.items ≡ map (cell_by numbers.now) (map plain_cell cells.now)) }
{
    let mut all = Vec::with_capacity(alloc, cells.len())?;
    for cell in cells {
        all.push(renumbered_cell(alloc, cell, numbers)?)?;
    }
    Ok(all)
}

/// The cell with the new number of its component.
fn renumbered_cell(alloc: Global, cell: &Cell, numbers: &[u32]) -> Result<Cell, Memory>
    ensures value { IfOk result (λ new. plain_cell new ≡ cell_by numbers.now (plain_cell cell.now)) }
{
    Ok(Cell {
        name: copied_name(alloc, &cell.name)?,
        kind: renumbered_kind(&cell.kind, numbers)?,
        external: cell.external,
        place: cell.place,
    })
}

/// The kind with the new number of its component.
fn renumbered_kind(kind: &CellKind, numbers: &[u32]) -> Result<CellKind, Memory>
    ensures value { IfOk result (λ new. plain_kind new ≡ kind_by numbers.now (plain_kind kind.now)) }
{
    match kind {
        CellKind::Prim(primitive) => Ok(CellKind::Prim(primitive.copied())),
        CellKind::Part(part) => match numbers.get(*part as usize) {
            Some(number) => Ok(CellKind::Part(*number)),
            None => Err(Memory),
        },
    }
}
