//! Static invokes, and the groups that take their outputs into registers.

ghost use Rattle.std.specs.Prelude.{◌≡◌, ◌++◌, OnOk, IfOk, length, flat_map, map};
ghost use Rattle.cx_design.specs.PlainForms.{plain_assign, plain_assigns, plain_group, plain_invoke};
ghost use Rattle.cx_numbering.specs.Names.{cell_names};
ghost use Rattle.cx_numbering.specs.DesignOf as design;
ghost use Rattle.cx_numbering.specs.DesignOf.{number_or_0, captures_number};
ghost use Rattle.cx_names.specs.Sites.{IsSite, tree_at, part_at};
ghost use Rattle.cx_names.specs.Calls.{invoke_of, static_enable_of};

use crate::invokes::{Call, ONE, add_inputs, capture, register_port};
use crate::numbers::{number, number_or_zero};
use crate::sites::Site;
use cx_ast::BindItem;
use cx_design::{Assign, Group, Guard, StaticInvoke};
use cx_meaning::{GroupKind, PlacedPort};
use cx_text::{Memory, Name};
use std::alloc::Global;

// The assignment of the enable of an output's register.
fn enable(alloc: Global, site: &Site, call: Call, bind: &BindItem) -> Result<Assign, Memory>
    requires { IsSite site.now }
    ensures { IfOk result (λ a. plain_assign a ≡
        static_enable_of (tree_at site.now) (part_at site.now) (invoke_of call.entry) bind.now) }
{
    let target = register_port(alloc, site, bind, b"write_en")?;
    Ok(Assign {
        target,
        guard: Guard::True,
        source: PlacedPort {
            port: ONE,
            place: call.place,
        },
        place: call.place,
    })
}

// Adds the two assignments of each output.
fn add_captures(
    alloc: Global,
    site: &Site,
    assigns: &mut Vec<Assign>,
    call: Call,
) -> Result<(), Memory>
    requires { IsSite site.now }
    ensures { OnOk result (plain_assigns assigns.new.items ≡
        plain_assigns assigns.old.items ++ flat_map
        (design.static_capture (tree_at site.now) (part_at site.now) (invoke_of call.entry))
        call.entry.outputs.now) }
{
    for bind in call.outputs {
        assigns.push(capture(alloc, site, call, bind)?)?;
        assigns.push(enable(alloc, site, call, bind)?)?;
    }
    Ok(())
}

// The group that captures.
fn capture_group(alloc: Global, site: &Site, call: Call) -> Result<Group, Memory>
    requires { IsSite site.now }
    ensures { IfOk result (λ g.
        plain_group g ≡ design.capture_group (tree_at site.now) (part_at site.now) (invoke_of call.entry)) }
{
    let mut assigns = Vec::new(alloc);
    add_captures(alloc, site, &mut assigns, call)?;
    let name = Name::from_bytes(alloc, b"")?;
    Ok(Group {
        name,
        kind: GroupKind::Timed(1),
        assigns,
        place: call.place,
    })
}

/// The number of the group that captures, which is added; none where there are no outputs.
pub(crate) fn captures(
    alloc: Global,
    site: &Site,
    groups: &mut Vec<Group>,
    call: Call,
) -> Result<Option<u32>, Memory>
    requires { IsSite site.now }
    ensures value { IfOk result (λ n. n ≡ captures_number (tree_at site.now) (part_at site.now)
        (length (map plain_group groups.old.items)) call.entry.outputs.now) }
    ensures groups { OnOk result (map plain_group groups.new.items ≡
        map plain_group groups.old.items ++ design.captures_for (tree_at site.now) (part_at site.now)
        (invoke_of call.entry) call.entry.outputs.now) }
{
    if call.outputs.is_empty() {
        return Ok(None);
    }
    let number = number(groups.len())?;
    groups.push(capture_group(alloc, site, call)?)?;
    Ok(Some(number))
}

// The number of a cell.
fn cell_number(site: &Site, cell: &Name) -> Result<u32, Memory>
    requires { IsSite site.now }
    ensures { IfOk result (λ n. n ≡ number_or_0 cell.now (cell_names (part_at site.now))) }
{
    number_or_zero(site.scope.own.cells.find(cell))
}

/// A static invoke, with the latency of its cell's component and the number of the group that captures.
pub(crate) fn static_invoke(
    alloc: Global,
    site: &Site,
    call: Call,
    latency: Option<u64>,
    captures: Option<u32>,
) -> Result<StaticInvoke, Memory>
    requires { IsSite site.now }
    ensures { IfOk result (λ v. plain_invoke v ≡ record {
      cell = number_or_0 call.entry.cell.now (cell_names (part_at site.now));
      written = call.entry.is_written;
      length = call.entry.length;
      latency = latency;
      inputs = map (design.input_assign (tree_at site.now) (part_at site.now) (invoke_of call.entry)) call.entry.inputs.now;
      captures = captures;
    }) }
{
    let cell = cell_number(site, call.cell)?;
    let mut inputs = Vec::new(alloc);
    add_inputs(site, &mut inputs, call)?;
    Ok(StaticInvoke {
        cell,
        written: call.is_written,
        length: call.length,
        latency,
        inputs,
        captures,
    })
}
