//! What a static invoke becomes: a copy of the control of its child, and behind it the group that captures.

ghost use Rattle.std.specs.Prelude.{◌≡◌, ◌+◌, ℕ, IfOk, Some};
ghost use Rattle.cx_meaning.specs.Control.{groups_of};
ghost use Rattle.cx_meaning.specs.Designs.{Empty, PlainComponent};
ghost use Rattle.cx_design.specs.PlainForms.{plain_component, plain_form, plain_invoke, plain_statement};
ghost use Rattle.cx_flattening.specs.Flattened.{first_copy, inlined, invoke_port, kid_at, with_capture};
ghost use Rattle.cx_flat.specs.Callers.{AreFirsts, IsCaller, kids_in, part_of};
ghost use Rattle.cx_flattening.specs.Copies.{copied_statement as statement_copied, enabled_below};
ghost use Rattle.cx_flat.specs.Controls.{inlined_at};
ghost use Rattle.cx_flat.specs.Maps.{map_by};

use crate::callers::Caller;
use crate::enabled::{CopyNumbers, enabled_counts};
use crate::kids::kid_at_cell;
use crate::ports::PortMap;
use crate::stands::Stand;
use cx_design::{Component, Form, Statement, StaticInvoke};
use cx_design_copies::copied_statement;
use cx_text::{Memory, Place};
use std::alloc::Global;

/// What a static invoke becomes, by its number.
pub(crate) fn inlined_form(
    alloc: Global,
    caller: Caller<'_>,
    firsts: &[u32],
    number: u32,
) -> Result<Form, Memory>
    requires caller { IsCaller caller }
    requires firsts { AreFirsts caller firsts.now }
    ensures value { IfOk result (λ f. plain_form f ≡ inlined_at (kids_in caller.entry) (part_of caller.entry) number) }
{
    let index = number as usize;
    match (caller.part.invokes.get(index), firsts.get(index)) {
        (Some(invoke), Some(first)) => inlined_invoke(alloc, caller, *first, invoke),
        _ => Err(Memory),
    }
}

/// What a static invoke becomes, where the first of its copies has a number.
fn inlined_invoke(
    alloc: Global,
    caller: Caller<'_>,
    first: u32,
    invoke: &StaticInvoke,
) -> Result<Form, Memory>
    requires caller { IsCaller caller }
    ensures value { IfOk result (λ f. (k : ℕ)
        → first ≡ first_copy (kids_in caller.entry) (part_of caller.entry) k
        → plain_form f ≡ inlined (kids_in caller.entry) (part_of caller.entry)
        (kid_at (kids_in caller.entry) invoke.now.cell) k (plain_invoke invoke.now)) }
{
    match kid_at_cell(caller.table, &caller.part.cells, invoke.cell) {
        Some(child) => {
            let copy = copied_control(alloc, caller, first, invoke, child)?;
            with_capture_again(alloc, invoke.captures, copy)
        }
        None => Ok(nothing()),
    }
}

/// Control that does nothing.
fn nothing() -> Form
    ensures value { plain_form result ≡ Empty }
{
    Form::Empty
}

/// A copy of the control of a static child for an invoke.
fn copied_control(
    alloc: Global,
    caller: Caller<'_>,
    first: u32,
    invoke: &StaticInvoke,
    child: &Component,
) -> Result<Statement, Memory>
    requires caller { IsCaller caller }
    requires child { kid_at (kids_in caller) invoke.now.cell ≡ Some (plain_component child.now) }
    ensures value { IfOk result (λ s. plain_statement s ≡
        statement_copied (invoke_port (kids_in caller.entry) (part_of caller.entry)
        (plain_component child.now) (plain_invoke invoke.now))
        (λ g. first + enabled_below (groups_of (plain_component child.now).control) g)
        (plain_component child.now).control) }
{
    let enabled = enabled_counts(alloc, &child.control)?;
    let moves = invoked(caller, invoke)?;
    let groups = CopyNumbers {
        first,
        enabled: &enabled,
    };
    copied_statement(alloc, &moves, &groups, &child.control)
}

/// Where the ports of the static child at the cell of an invoke stand.
pub(crate) fn invoked<'a>(
    caller: Caller<'a>,
    invoke: &'a StaticInvoke,
) -> Result<PortMap<'a>, Memory>
    requires caller { IsCaller caller }
    ensures value { IfOk result (λ moves. (child : PlainComponent)
        → kid_at (kids_in caller.entry) invoke.now.cell ≡ Some child
        → map_by moves ≡
        invoke_port (kids_in caller.entry) (part_of caller.entry) child (plain_invoke invoke.now)) }
{
    match caller.stands.get(invoke.cell as usize) {
        Some(Stand::Inlined(block)) => Ok(PortMap::Invoked(*block, caller.stands, invoke)),
        Some(Stand::Kept(_)) | None => Err(Memory),
    }
}

/// A statement, and behind it the group that captures, where there is one.
fn with_capture_again(alloc: Global, captures: Option<u32>, copy: Statement) -> Result<Form, Memory>
    ensures value { IfOk result (λ f. plain_form f ≡ with_capture captures (plain_statement copy)) }
{
    let Some(group) = captures else {
        return Ok(copy.form);
    };
    let mut parts = Vec::new(alloc);
    parts.push(copy)?;
    parts.push(Statement {
        form: Form::Enable(group),
        place: Place { line: 1, column: 1 },
    })?;
    Ok(Form::StaticSeq {
        length: None,
        parts,
    })
}
