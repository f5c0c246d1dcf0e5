//! Static invokes with renumbered ports.

ghost use Rattle.std.specs.Prelude.{◌≡◌, IfOk, map};
ghost use Rattle.cx_design.specs.PlainForms.{plain_invoke};
ghost use Rattle.cx_profile.specs.Renumbering.{renumbered_invoke};

use crate::renumbering::{NewDone, NewPorts};
use cx_design::StaticInvoke;
use cx_design_copies::moved_assigns;
use cx_text::Memory;
use std::alloc::Global;

/// The static invoke with renumbered ports.
fn moved_invoke(
    alloc: Global,
    dones: &[NewDone],
    invoke: &StaticInvoke,
) -> Result<StaticInvoke, Memory>
    ensures value { IfOk result (λ copy. plain_invoke copy ≡ renumbered_invoke dones.now (plain_invoke invoke.now)) }
{
    Ok(StaticInvoke {
        cell: invoke.cell,
        written: invoke.written,
        length: invoke.length,
        latency: invoke.latency,
        inputs: moved_assigns(alloc, &NewPorts { dones }, &invoke.inputs)?,
        captures: invoke.captures,
    })
}

/// The static invokes with renumbered ports.
pub(crate) fn moved_invokes(
    alloc: Global,
    dones: &[NewDone],
    invokes: &[StaticInvoke],
) -> Result<Vec<StaticInvoke>, Memory>
    ensures value { IfOk result (λ copies.
        map plain_invoke copies.items ≡ map (renumbered_invoke dones.now) (map plain_invoke invokes.now)) }
{
    let mut copies = Vec::with_capacity(alloc, invokes.len())?;
    for invoke in invokes {
        copies.push(moved_invoke(alloc, dones, invoke)?)?;
    }
    Ok(copies)
}
