//! Counters: a register and an adder for each counted group, and what drives them.

ghost use Rattle.std.specs.Prelude.{◌≡◌, ◌≢◌, ◌++◌, ◌∷◌, [], false, IfOk, length, map};
ghost use Rattle.cx_prim.specs.declared.names.PrimitiveName.TheVariants as primitives;
ghost use Rattle.cx_design.specs.PlainForms.{plain_assign, plain_assigns, plain_cell, plain_group};
ghost use Rattle.cx_profiling.specs.Instrumented as instrumented;
ghost use Rattle.cx_profile.specs.Renumbering.{renumber};
ghost use Rattle.cx_profile.specs.Growing as growing;

use crate::counted::is_counted;
use crate::renumbering::{NewDone, NewPorts};
use cx_design::{Assign, Cell, CellKind, Component, Group, Guard, PlacedPort, PortRef};
use cx_design_copies::{copied_name, moved_assigns, moved_group, number, sum};
use cx_names_scopes::primitive_row;
use cx_prim::PrimitiveName;
use cx_text::{Memory, Name, Place};
use std::alloc::Global;

/// `target = source`, at a place.
pub(crate) fn drive(place: Place, target: PortRef, source: PortRef) -> Assign
    ensures value { plain_assign result ≡ instrumented.drive place target source }
{
    Assign {
        target,
        guard: Guard::True,
        source: PlacedPort {
            port: source,
            place,
        },
        place,
    }
}

/// Appends the assignments of a counter, whose register is a cell and whose adder is the cell behind it:
/// `a.left = r.out; a.right = 64'd1; r.in = a.out; r.write_en = 1'd1;`.
fn with_counter(assigns: Vec<Assign>, place: Place, register: u32) -> Result<Vec<Assign>, Memory>
    ensures value { IfOk result (λ all.
        plain_assigns all.items ≡ plain_assigns assigns.items ++ instrumented.counter_assigns place register) }
{
    let adder = sum(register, 1)?;
    let mut all = assigns;
    all.push(drive(place, PortRef::Cell(adder, 0), PortRef::Cell(register, 2)))?;
    all.push(drive(place, PortRef::Cell(adder, 1), PortRef::Literal(64, 1)))?;
    all.push(drive(place, PortRef::Cell(register, 0), PortRef::Cell(adder, 2)))?;
    all.push(drive(place, PortRef::Cell(register, 1), PortRef::Literal(1, 1)))?;
    Ok(all)
}

/// A counted group with renumbered ports and the assignments of its counter.
fn grown_group(
    alloc: Global,
    dones: &[NewDone],
    place: Place,
    group: &Group,
    register: u32,
) -> Result<Group, Memory>
    ensures value { IfOk result (λ g.
        plain_group g ≡ growing.grown_group (renumber dones.now) place register (plain_group group.now)) }
{
    let assigns = moved_assigns(alloc, &NewPorts { dones }, &group.assigns)?;
    let assigns = with_counter(assigns, place, register)?;
    let name = copied_name(alloc, &group.name)?;
    Ok(Group {
        name,
        kind: group.kind,
        assigns,
        place: group.place,
    })
}

/// A group with renumbered ports, and with the assignments of its counter where it is counted.
fn counted_group(
    alloc: Global,
    dones: &[NewDone],
    part: &Component,
    group: &Group,
    register: u32,
) -> Result<Group, Memory>
    ensures value { IfOk result (λ g. plain_group g ≡
        growing.counted_group (renumber dones.now)
        (map plain_cell part.now.cells.items) part.now.place register (plain_group group.now)) }
{
    if is_counted(&part.cells, group) {
        grown_group(alloc, dones, part.place, group, register)
    } else {
        moved_group(alloc, &NewPorts { dones }, group)
    }
}

/// The register of the next counter, behind a group.
fn next_register(part: &Component, group: &Group, register: u32) -> Result<u32, Memory>
    ensures value { IfOk result (λ next.
        next ≡ growing.next_register (map plain_cell part.now.cells.items) register (plain_group group.now)) }
{
    if is_counted(&part.cells, group) {
        sum(register, 2)
    } else {
        Ok(register)
    }
}

/// The groups of a component with renumbered ports, each counted one with the assignments of its counter. Registers and adders
/// stand behind the cells of the component, in the order of the groups.
pub(crate) fn counted_groups(
    alloc: Global,
    dones: &[NewDone],
    part: &Component,
) -> Result<Vec<Group>, Memory>
    ensures value { IfOk result (λ gs. map plain_group gs.items ≡
        growing.counted_groups (renumber dones.now) (map plain_cell part.now.cells.items) part.now.place
        (length part.now.cells.items) (map plain_group part.now.groups.items)) }
{
    let mut groups = Vec::with_capacity(alloc, part.groups.len())?;
    let mut register = number(part.cells.len())?;
    for group in &part.groups {
        groups.push(counted_group(alloc, dones, part, group, register)?)?;
        register = next_register(part, group, register)?;
    }
    Ok(groups)
}

/// A name of a list again.
pub(crate) fn name_again(alloc: Global, names: &[Name], number: usize) -> Result<Name, Memory>
    ensures value { IfOk result (λ name. name ≡ instrumented.name_at names.now number) }
{
    match names.get(number) {
        Some(name) => copied_name(alloc, name),
        None => Err(Memory),
    }
}

/// A cell of a primitive, with the name of a number in a list.
pub(crate) fn new_cell(
    alloc: Global,
    place: Place,
    name: Name,
    primitive: PrimitiveName,
    numbers: &[u64],
    external: bool,
) -> Result<Cell, Memory>
    requires named { primitive ≢ primitives.Timer }
    ensures value { IfOk result
        (λ cell. plain_cell cell ≡ instrumented.new_cell place name primitive numbers.now external) }
{
    match primitive_row(primitive, numbers) {
        Some(primitive) => Ok(Cell {
            name,
            kind: CellKind::Prim(primitive),
            external,
            place,
        }),
        None => Err(Memory),
    }
}

/// The register or the adder of a counter.
fn counter_cell(
    alloc: Global,
    place: Place,
    names: &[Name],
    number: usize,
    primitive: PrimitiveName,
) -> Result<Cell, Memory>
    requires named { primitive ≢ primitives.Timer }
    ensures value { IfOk result (λ cell. plain_cell cell ≡
        instrumented.new_cell place (instrumented.name_at names.now number) primitive (64 ∷ []) false) }
{
    let name = name_again(alloc, names, number)?;
    new_cell(alloc, place, name, primitive, &[64], false)
}

/// Appends the registers and adders of so many counters, with the names from the first on.
pub(crate) fn with_counter_cells(
    alloc: Global,
    cells: Vec<Cell>,
    place: Place,
    names: &[Name],
    counters: u32,
) -> Result<Vec<Cell>, Memory>
    ensures value { IfOk result (λ all. map plain_cell all.items ≡
        map plain_cell cells.items ++ instrumented.counter_cells place names.now 0 counters) }
{
    let mut all = cells;
    for counter in 0..counters {
        let first = 2 * counter as usize;
        all.push(counter_cell(alloc, place, names, first, PrimitiveName::Reg)?)?;
        all.push(counter_cell(alloc, place, names, first + 1, PrimitiveName::Add)?)?;
    }
    Ok(all)
}
