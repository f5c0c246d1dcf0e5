//! What is kept of a group that calls.

ghost use Rattle.std.specs.Prelude.{◌≡◌, ◌<◌, ◌&&◌, IfOk, length, map, nat_eq, not};
ghost use Rattle.std.specs.List.{list_any};
ghost use Rattle.cx_rules.specs.Ports.{component_of};
ghost use Rattle.cx_rules.specs.Items as items;
ghost use Rattle.cx_design.specs.PlainForms.{plain_group};
ghost use Rattle.cx_design.specs.PlainDesigns.{plain_design};
ghost use Rattle.cx_callees.specs.Callees.{plain_callee};
ghost use Rattle.cx_shape_calls.specs.Forms as forms;
ghost use Rattle.cx_shape_calls.specs.Forms.{IsForm};

use crate::captures::captured;
use crate::dones::{dones, is_wrong_done};
use crate::tallies::{PortTally, tally_targets, times};
use cx_callees::{Callee, called};
use cx_design::{Design, Group, GroupKind};
use cx_design_parts::component;
use cx_text::Memory;
use std::alloc::Global;

/// What is kept of a group that calls.
#[derive(Drop)]
pub struct CallForm<'a> {
    /// The component cells whose ports it drives, none twice in a row.
    pub called: Vec<Callee<'a>>,
    /// How often it drives each port of a cell.
    pub driven: PortTally,
    /// Whether its done is not as it has to be for one of the cells.
    pub wrong_done: bool,
    /// Whether it does not drive its done, or the go of one of the cells.
    pub lacks: bool,
}

/// What is kept of a group, where it is plain and calls.
pub fn form<'a>(
    alloc: Global,
    design: &'a Design,
    number: usize,
    place: usize,
    group: &Group,
) -> Result<Option<CallForm<'a>>, Memory>
    requires within { number < length design.now.components.items }
    ensures value { IfOk result
        (λ form. IsForm (component_of (plain_design design.now) number) place (plain_group group.now) form) }
{
    let assigns = group.assigns.as_slice();
    let called = called(alloc, design, number, assigns)?;
    if called.is_empty() || !is_plain(group) {
        return Ok(None);
    }
    let driven = tally_targets(alloc, assigns)?;
    let captured = captured(alloc, component(design, number), assigns)?;
    let dones = dones(alloc, place, assigns)?;
    let wrong_done = is_wrong_done(
        alloc,
        called.as_slice(),
        captured.as_slice(),
        dones.as_slice(),
    )?;
    let lacks = lacks(called.as_slice(), &driven, !dones.is_empty());
    Ok(Some(CallForm {
        called,
        driven,
        wrong_done,
        lacks,
    }))
}

/// Whether control makes a group active until its done.
fn is_plain(group: &Group) -> bool
    ensures value { result ≡ items.is_plain group.now.kind }
{
    matches!(group.kind, GroupKind::Plain)
}

/// Whether the done, or the go of one of the called cells, is not driven.
fn lacks(called: &[Callee<'_>], driven: &PortTally, has_done: bool) -> bool
    ensures value { result ≡ list_any
        (λ k. not (not (nat_eq (forms.times driven.now k.cell 0) 0) && has_done))
        (map plain_callee called.now) }
{
    for callee in called {
        if times(driven, callee.cell, 0) == 0 || !has_done {
            return true;
        }
    }
    false
}
