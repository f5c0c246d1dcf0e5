//! Names that no port, cell or group of a component has.

ghost use Rattle.std.specs.Prelude.{◌≡◌, ◌+◌, ◌++◌, IfOk, map};
ghost use Rattle.cx_design.specs.PlainForms.{plain_cell, plain_component, plain_group};
ghost use Rattle.cx_names_scopes.specs.Numbered.{AreNumbersOf};
ghost use Rattle.cx_profiling.specs.FreeNames as specs;
ghost use Rattle.cx_profile.specs.Naming.{first_free};

use cx_design::{Cell, Component, Group, PortDecl};
use cx_design_copies::{copied_name, number, sum};
use cx_names_scopes::Numbers;
use cx_text::{Memory, Name};
use itoa::Buffer;
use std::alloc::Global;

/// The first names of `profile_0`, `profile_1`, and so on, that no part of a component has, so many of them.
pub(crate) fn free_names(alloc: Global, part: &Component, count: u32) -> Result<Vec<Name>, Memory>
    ensures value { IfOk result
        (λ names. names.items ≡ specs.free_names (specs.names_of (plain_component part.now)) count) }
{
    let names = part_names(alloc, part)?;
    let taken = taken_names(alloc, &names)?;
    let last = sum(count, number(names.len())?)?;
    untaken(alloc, &taken, count, last)
}

/// The first so many names with numbers below a bound that are not taken.
fn untaken(alloc: Global, taken: &Numbers, count: u32, last: u32) -> Result<Vec<Name>, Memory>
    ensures value { IfOk result (λ names. names.items ≡ first_free taken.now count last) }
{
    let mut names = Vec::new(alloc);
    for number in 0..last {
        names = with_name(alloc, names, taken, count, number)?;
    }
    Ok(names)
}

/// The first free names below one more number: its name is one where it is not taken, and they are fewer than are wanted.
fn with_name(
    alloc: Global,
    names: Vec<Name>,
    taken: &Numbers,
    count: u32,
    number: u32,
) -> Result<Vec<Name>, Memory>
    requires free { names.items ≡ first_free taken.now count number }
    ensures value { IfOk result (λ all. all.items ≡ first_free taken.now count (number + 1)) }
{
    if names.len() >= count as usize {
        return Ok(names);
    }
    let name = profile_name(alloc, number)?;
    if taken.has(&name) {
        return Ok(names);
    }
    let mut all = names;
    all.push(name)?;
    Ok(all)
}

/// `profile_` and a number.
fn profile_name(alloc: Global, number: u32) -> Result<Name, Memory>
    ensures value { IfOk result (λ name. name ≡ specs.profile_name number) }
{
    let mut text = Vec::from_slice(alloc, b"profile_".as_slice())?;
    let mut buffer = Buffer::new();
    text.extend_from_slice(buffer.format(number).as_bytes())?;
    Name::from_bytes(alloc, text.as_slice())
}

/// Names by which each of a list is found.
fn taken_names(alloc: Global, names: &[Name]) -> Result<Numbers, Memory>
    ensures value { IfOk result (AreNumbersOf names.now) }
{
    let mut taken = Numbers::new(alloc);
    for (number, name) in names.iter().enumerate() {
        taken.add(alloc, name, number)?;
    }
    Ok(taken)
}

/// The names of the ports, cells and groups of a component.
fn part_names(alloc: Global, part: &Component) -> Result<Vec<Name>, Memory>
    ensures value { IfOk result (λ names. names.items ≡ specs.names_of (plain_component part.now)) }
{
    let names = with_port_names(alloc, Vec::new(alloc), &part.inputs)?;
    let names = with_port_names(alloc, names, &part.outputs)?;
    let names = with_cell_names(alloc, names, &part.cells)?;
    with_group_names(alloc, names, &part.groups)
}

/// Appends the names of ports.
fn with_port_names(alloc: Global, names: Vec<Name>, ports: &[PortDecl]) -> Result<Vec<Name>, Memory>
    ensures value { IfOk result (λ all. all.items ≡ names.items ++ map (λ port. port.name) ports.now) }
{
    let mut all = names;
    for port in ports {
        all.push(copied_name(alloc, &port.name)?)?;
    }
    Ok(all)
}

/// Appends the names of cells.
fn with_cell_names(alloc: Global, names: Vec<Name>, cells: &[Cell]) -> Result<Vec<Name>, Memory>
    ensures value { IfOk result (λ all. all.items ≡ names.items ++ map (λ cell. cell.name) (map plain_cell cells.now)) }
{
    let mut all = names;
    for cell in cells {
        all.push(copied_name(alloc, &cell.name)?)?;
    }
    Ok(all)
}

/// Appends the names of groups.
fn with_group_names(alloc: Global, names: Vec<Name>, groups: &[Group]) -> Result<Vec<Name>, Memory>
    ensures value { IfOk result
        (λ all. all.items ≡ names.items ++ map (λ group. group.name) (map plain_group groups.now)) }
{
    let mut all = names;
    for group in groups {
        all.push(copied_name(alloc, &group.name)?)?;
    }
    Ok(all)
}
