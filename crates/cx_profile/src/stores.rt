//! The memory of the counts, and the groups that store them.

ghost use Rattle.std.specs.Prelude.{◌≡◌, ◌+◌, ◌++◌, ℕ, IfOk, map};
ghost use Rattle.cx_meaning.specs.Designs.{Enable, Placed};
ghost use Rattle.cx_design.specs.PlainForms.{plain_assigns, plain_cell, plain_group, plain_statement};
ghost use Rattle.cx_profiling.specs.Instrumented as instrumented;
ghost use Rattle.cx_profile.specs.Growing as growing;

use crate::counters::{drive, name_again, new_cell};
use cx_design::{Assign, Cell, Form, Group, GroupKind, PortRef, Statement};
use cx_design_copies::sum;
use cx_prim::PrimitiveName;
use cx_text::{Memory, Name, Place};
use std::alloc::Global;

/// The least width of an address, at least 1, with which so many words are named.
pub(crate) fn address_width(words: u32) -> Result<u32, Memory>
    ensures value { IfOk result (λ width. width ≡ instrumented.address_width words) }
{
    let mut width = 1u32;
    let mut named = 2u64;
    for step in 0..words {
        if u64::from(words) <= named {
            return Ok(width);
        }
        width = sum(width, 1)?;
        named *= 2;
    }
    Ok(width)
}

/// The external memory of so many counts.
pub(crate) fn memory_cell(
    alloc: Global,
    place: Place,
    name: Name,
    words: u32,
) -> Result<Cell, Memory>
    ensures value { IfOk result (λ cell. plain_cell cell ≡ instrumented.memory_cell place name words) }
{
    let width = address_width(words)?;
    let numbers = [64, u64::from(words), u64::from(width)];
    new_cell(alloc, place, name, PrimitiveName::StdMemD1, &numbers, true)
}

/// A memory by its cell, and the width of its address.
#[derive(Clone, Copy, Debug, PartialEq, Eq)]
pub(crate) struct CountMemory {
    pub cell: u32,
    pub address_width: u32,
}

/// The assignments that store a count as a word:
/// `mem.addr0 = j; mem.write_data = count; mem.write_en = 1'd1; g[done] = mem.done;`.
fn store_assigns(
    alloc: Global,
    place: Place,
    memory: CountMemory,
    group: u32,
    word: u32,
    count: PortRef,
) -> Result<Vec<Assign>, Memory>
    ensures value { IfOk result (λ assigns.
        plain_assigns assigns.items ≡
        instrumented.store_assigns place memory.cell memory.address_width group word count) }
{
    let address = PortRef::Literal(memory.address_width, u128::from(word));
    let mut assigns = Vec::with_capacity(alloc, 4)?;
    assigns.push(drive(place, PortRef::Cell(memory.cell, 0), address))?;
    assigns.push(drive(place, PortRef::Cell(memory.cell, 1), count))?;
    assigns.push(drive(place, PortRef::Cell(memory.cell, 2), PortRef::Literal(1, 1)))?;
    assigns.push(drive(place, PortRef::Done(group), PortRef::Cell(memory.cell, 4)))?;
    Ok(assigns)
}

/// Where stores begin: the number of the first one's name among the names, and that of the first one among the groups.
#[derive(Clone, Copy, Debug, PartialEq, Eq)]
pub(crate) struct FirstStore {
    pub name: u32,
    pub group: u32,
}

/// The group that stores a count as a word.
fn store_group(
    alloc: Global,
    place: Place,
    names: &[Name],
    memory: CountMemory,
    first: FirstStore,
    word: u32,
    count: PortRef,
) -> Result<Group, Memory>
    ensures value { IfOk result (λ g. plain_group g ≡
        growing.store_group place names.now memory.cell memory.address_width first.name first.group word
        count) }
{
    let name = name_again(alloc, names, sum(first.name, word)? as usize)?;
    let group = sum(first.group, word)?;
    let assigns = store_assigns(alloc, place, memory, group, word, count)?;
    Ok(Group {
        name,
        kind: GroupKind::Plain,
        assigns,
        place,
    })
}

/// Appends a group for each count, which stores it.
pub(crate) fn with_stores(
    alloc: Global,
    groups: Vec<Group>,
    place: Place,
    names: &[Name],
    memory: CountMemory,
    first: FirstStore,
    counts: &[PortRef],
) -> Result<Vec<Group>, Memory>
    ensures value { IfOk result (λ all. map plain_group all.items ≡
        map plain_group groups.items ++ growing.store_groups place names.now memory.cell memory.address_width
        first.name first.group 0 counts.now) }
{
    let mut all = groups;
    let mut word = 0u32;
    for count in counts {
        all.push(store_group(alloc, place, names, memory, first, word, *count)?)?;
        word = sum(word, 1)?;
    }
    Ok(all)
}

/// A statement, and behind it an enable of each of so many groups from one on.
pub(crate) fn then_stores(
    alloc: Global,
    place: Place,
    statement: Statement,
    first: u32,
    count: u32,
) -> Result<Statement, Memory>
    ensures value { IfOk result
        (λ s. plain_statement s ≡ growing.then_stores place (plain_statement statement) first count) }
{
    let mut parts = Vec::new(alloc);
    parts.push(statement)?;
    for number in 0..count {
        parts.push(enable(place, sum(first, number)?))?;
    }
    Ok(Statement {
        form: Form::Seq(parts),
        place,
    })
}

/// An enable of a group.
fn enable(place: Place, group: u32) -> Statement
    ensures value { plain_statement result ≡ Placed (Enable group) place }
{
    Statement {
        form: Form::Enable(group),
        place,
    }
}
