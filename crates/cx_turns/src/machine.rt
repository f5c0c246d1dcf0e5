//! What a run changes, and the tests of control.

ghost use Rattle.std.specs.Prelude.{◌≡◌, ◌<◌, ◌^◌};
ghost use Rattle.cx_meaning.specs.Truths as truths;
ghost use Rattle.cx_eval.specs.Evaluated.{CanAct, IsPort};
ghost use Rattle.cx_turns.specs.Machines.{design_of, rows_of, IsPlan, IsAt, IsInstance};
ghost use Rattle.cx_turns.specs.Tests.{TellsTruth, Tested, comb_active};
ghost use Rattle.cx_turns.specs.Islands.{TellsUnclear};
ghost use Rattle.cx_turns.specs.Sights.{unclear_fault};

use crate::plan::Plan;
use crate::rooms::Room;
use crate::sights::{Sight, Unclear};
use cx_design::{Active, FaultKind, PortFault, PortRef, Seen};
use cx_eval_drives::{Truth, truth_of};

/// The sight of the state, and the room for the islands of its design.
#[derive(Drop)]
pub struct Machine<'a> {
    pub sight: Sight<'a>,
    pub room: Room,
}

/// A fault of a port of an instance.
pub(crate) fn port_fault(kind: FaultKind, instance: usize, port: PortRef) -> PortFault
    requires { instance < 2 ^ 32 }
    ensures { result ≡ record { kind = kind; instance = instance; port = port } }
{
    PortFault {
        kind,
        instance: instance as u32,
        port,
    }
}

/// The fault of a port of an instance that was found unclear.
pub fn fault_in(instance: usize, unclear: Option<Unclear>) -> Option<PortFault>
    requires { instance < 2 ^ 32 }
    ensures { TellsUnclear instance result (unclear_fault unclear) }
{
    match unclear {
        Some(unclear) => Some(port_fault(unclear.kind, instance, unclear.port)),
        None => None,
    }
}

/// What is active in a test.
fn active_with(comb: Option<u32>) -> Active
    ensures { result ≡ comb_active comb }
{
    match comb {
        Some(group) => Active::Group(group),
        None => Active::Nothing,
    }
}

/// Whether a port is 1, or its fault.
fn verdict(instance: usize, port: PortRef, seen: Seen) -> Result<bool, PortFault>
    requires { instance < 2 ^ 32 }
    ensures { TellsTruth instance port result (truths.truth_of seen) }
{
    match truth_of(seen) {
        Truth::One => Ok(true),
        Truth::Zero => Ok(false),
        Truth::Conflict => Err(port_fault(FaultKind::Conflict, instance, port)),
        Truth::Undefined => Err(port_fault(FaultKind::Undefined, instance, port)),
    }
}

/// Whether a port is 1 under the continuous assignments and a comb group.
pub fn test(
    plan: &Plan<'_>,
    machine: &mut Machine<'_>,
    instance: usize,
    port: PortRef,
    comb: Option<u32>,
) -> Result<bool, PortFault>
    requires plan { IsPlan plan.now }
    requires machine { IsAt plan.now machine.old }
    requires instance { IsInstance (design_of plan.now) instance }
    requires port { IsPort (design_of plan.now) instance port }
    requires comb { CanAct (design_of plan.now) instance (comb_active comb) }
    ensures tested { Tested (design_of plan.now) (rows_of machine.old) instance port comb result }
    ensures same { machine.new ≡ machine.old }
{
    let _ = plan;
    let active = active_with(comb);
    let sight = &mut machine.sight;
    let seen = sight.evaluator.seen(&sight.state, instance, &active, port);
    verdict(instance, port, seen)
}
