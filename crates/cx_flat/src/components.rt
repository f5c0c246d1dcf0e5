//! Flat components.

ghost use Rattle.std.specs.Prelude.{◌≡◌, ◌<◌, ◌++◌, IfOk, length, map};
ghost use Rattle.cx_rewrites.specs.Moving.{moved_assign};
ghost use Rattle.cx_design.specs.PlainForms.{plain_assigns, plain_component, plain_statement};
ghost use Rattle.cx_flattening.specs.Flattened.{always_from, always_if, flat_component, flat_statement, kid_at, own_port};
ghost use Rattle.cx_flat.specs.Callers.{AreFirsts, IsCaller, kids_in, part_of};
ghost use Rattle.cx_flat.specs.Tables.{kids_of, plain_table};

use crate::callers::Caller;
use crate::cells::cells_again;
use crate::control::flat_statement_again;
use crate::groups::groups_again;
use crate::kids::kid;
use crate::ports::PortMap;
use crate::stands::{Stand, stands};
use cx_design::{Assign, Component, Statement};
use cx_design_copies::{copied_name, copied_ports, with_moved_assigns};
use cx_text::Memory;
use std::alloc::Global;

/// The flat component, where the table has those of its static children.
pub(crate) fn component_again(
    alloc: Global,
    table: &[Option<Component>],
    part: &Component,
) -> Result<Component, Memory>
    ensures value { IfOk result (λ flat. plain_component flat ≡
        flat_component (kids_of (plain_table table.now) (plain_component part.now).cells)
        (plain_component part.now)) }
{
    let stands = stands(alloc, table, &part.cells)?;
    let caller = Caller {
        table,
        part,
        stands: &stands,
    };
    flat_component_again(alloc, caller)
}

/// The flat component of a caller.
fn flat_component_again(alloc: Global, caller: Caller<'_>) -> Result<Component, Memory>
    requires caller { IsCaller caller }
    ensures value { IfOk result
        (λ flat. plain_component flat ≡ flat_component (kids_in caller.entry) (part_of caller.entry)) }
{
    let part = caller.part;
    let all = groups_again(alloc, caller)?;
    Ok(Component {
        name: copied_name(alloc, &part.name)?,
        latency: None,
        inputs: copied_ports(alloc, &part.inputs)?,
        outputs: copied_ports(alloc, &part.outputs)?,
        cells: cells_again(alloc, caller.table, &part.cells)?,
        control: control_again(alloc, caller, &all.firsts)?,
        groups: all.groups,
        invokes: Vec::new(alloc),
        always: always_again(alloc, caller)?,
        place: part.place,
    })
}

/// The control of the flat component, where the first copies of groups for the static invokes have these numbers.
fn control_again(alloc: Global, caller: Caller<'_>, firsts: &[u32]) -> Result<Statement, Memory>
    requires caller { IsCaller caller }
    requires firsts { AreFirsts caller firsts.now }
    ensures value { IfOk result (λ s. plain_statement s ≡
        flat_statement (kids_in caller.entry) (part_of caller.entry) (part_of caller.entry).control) }
{
    flat_statement_again(alloc, caller, firsts, &caller.part.control)
}

/// The continuous assignments of the flat component: its own, and those of its static children.
fn always_again(alloc: Global, caller: Caller<'_>) -> Result<Vec<Assign>, Memory>
    requires caller { IsCaller caller }
    ensures value { IfOk result (λ all. plain_assigns all.items ≡
        map (moved_assign (own_port (kids_in caller.entry) (part_of caller.entry)))
        (part_of caller.entry).always
        ++ always_from (kids_in caller.entry) (part_of caller.entry) 0 (kids_in caller.entry)) }
{
    let own = PortMap::Own(caller.stands);
    let all = with_moved_assigns(alloc, Vec::new(alloc), &own, &caller.part.always)?;
    with_inner_always(alloc, all, caller)
}

/// Appends the continuous assignments of static children, in the order of their cells.
fn with_inner_always(
    alloc: Global,
    front: Vec<Assign>,
    caller: Caller<'_>,
) -> Result<Vec<Assign>, Memory>
    requires caller { IsCaller caller }
    ensures value { IfOk result (λ all. plain_assigns all.items ≡
        plain_assigns front.items
        ++ always_from (kids_in caller.entry) (part_of caller.entry) 0 (kids_in caller.entry)) }
{
    let mut all = front;
    for number in 0..caller.part.cells.len() {
        all = with_cell_always(alloc, all, caller, number)?;
    }
    Ok(all)
}

/// Appends the continuous assignments of the static child at a cell.
fn with_cell_always(
    alloc: Global,
    front: Vec<Assign>,
    caller: Caller<'_>,
    number: usize,
) -> Result<Vec<Assign>, Memory>
    requires caller { IsCaller caller }
    requires there { number < length (part_of caller).cells }
    ensures value { IfOk result (λ all. plain_assigns all.items ≡
        plain_assigns front.items ++ always_if (kids_in caller.entry) (part_of caller.entry)
        (kid_at (kids_in caller.entry) number) number) }
{
    let cell = &caller.part.cells[number];
    match (kid(caller.table, &cell.kind), caller.stands.get(number)) {
        (Some(child), Some(Stand::Inlined(block))) => {
            with_moved_assigns(alloc, front, &PortMap::Inner(*block), &child.always)
        }
        (None, _) => Ok(front),
        (Some(_), Some(Stand::Kept(_)) | None) => Err(Memory),
    }
}
