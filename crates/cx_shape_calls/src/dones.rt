//! The done of a group that calls.

ghost use Rattle.std.specs.Prelude.{◌≡◌, ◌∷◌, [], Some, IfOk, length, map, not, nat_eq};
ghost use Rattle.std.specs.List.{list_all};
ghost use Rattle.cx_meaning.specs.declared.ports.PortRef.TheVariants as refs;
ghost use Rattle.cx_meaning.specs.Active.{same_port};
ghost use Rattle.cx_rules.specs.CallShape as shape;
ghost use Rattle.cx_rules.specs.CallShape.{wanted_dones, with_target};
ghost use Rattle.cx_design.specs.PlainForms.{plain_assign, plain_assigns};
ghost use Rattle.cx_callees.specs.Callees.{plain_callee, done_of};
ghost use Rattle.cx_shape_calls.specs.Forms as forms;

use crate::guards::{conjuncts, is_always, is_one};
use crate::tallies::{PortTally, tally, times};
use cx_callees::Callee;
use cx_design::{Assign, PortRef};
use cx_text::Memory;
use std::alloc::Global;

/// The number of the done of a `std_reg`, whose ports are `in`, `write_en`, `out` and `done`.
const REGISTER_DONE: u32 = 3;

/// Whether ports are those whose conjunction the done has to be, each once: the done of the cell where nothing is captured,
/// else the dones of the captured registers.
fn are_dones(
    alloc: Global,
    callee: Callee<'_>,
    captured: &[u32],
    ports: &[PortRef],
) -> Result<bool, Memory>
    ensures value { IfOk result (λ right. right ≡
        shape.are_dones (wanted_dones (done_of (plain_callee callee.entry)) captured.now) (Some ports.now)) }
{
    if captured.is_empty() {
        return Ok(is_done_alone(callee, ports));
    }
    if ports.len() != captured.len() {
        return Ok(false);
    }
    let tally = tally(alloc, ports)?;
    Ok(have_dones(&tally, captured))
}

/// Whether the only port is the done of a cell.
fn is_done_alone(callee: Callee<'_>, ports: &[PortRef]) -> bool
    ensures value { result ≡ shape.are_dones (done_of (plain_callee callee.entry) ∷ []) (Some ports.now) }
{
    match ports {
        [port] => callee.is_done(*port),
        _ => false,
    }
}

/// Whether the done of each of some registers was counted.
fn have_dones(tally: &PortTally, registers: &[u32]) -> bool
    ensures value { result ≡ list_all (λ r. not (nat_eq (forms.times tally.now r 3) 0)) registers.now }
{
    for register in registers {
        if times(tally, *register, REGISTER_DONE) == 0 {
            return false;
        }
    }
    true
}

/// Whether an assignment of the done is as it has to be.
fn is_right_done_assign(
    alloc: Global,
    callee: Callee<'_>,
    captured: &[u32],
    assign: &Assign,
) -> Result<bool, Memory>
    ensures value { IfOk result (λ right. right ≡
        shape.is_right_done_assign (wanted_dones (done_of (plain_callee callee.entry)) captured.now)
        (plain_assign assign.now)) }
{
    if is_always(&assign.guard) {
        return are_dones(alloc, callee, captured, &[assign.source.port]);
    }
    if !is_one(assign.source.port) {
        return Ok(false);
    }
    match conjuncts(alloc, &assign.guard)? {
        Some(ports) => are_dones(alloc, callee, captured, ports.as_slice()),
        None => Ok(false),
    }
}

/// The assignments of the done of a group.
pub fn dones<'a>(
    alloc: Global,
    group: usize,
    assigns: &'a [Assign],
) -> Result<Vec<&'a Assign>, Memory>
    ensures value { IfOk result (λ list.
        map (λ a. plain_assign a.now) list.items ≡ with_target (refs.Done group) (plain_assigns assigns.now)) }
{
    let mut list = Vec::new(alloc);
    for assign in assigns {
        if is_done_of(group, assign.target) {
            list.push(assign)?;
        }
    }
    Ok(list)
}

/// Whether a port is the done of a group.
fn is_done_of(group: usize, port: PortRef) -> bool
    ensures value { result ≡ same_port port (refs.Done group) }
{
    match port {
        PortRef::Done(done) => done as usize == group,
        PortRef::Cell(_, _) | PortRef::Input(_) | PortRef::Output(_) | PortRef::Literal(_, _) => {
            false
        }
    }
}

/// Whether the done, which these assignments drive, is not as it has to be for one of the called cells. Where a register is
/// captured, it is the same for all of them.
pub fn is_wrong_done(
    alloc: Global,
    called: &[Callee<'_>],
    captured: &[u32],
    dones: &[&Assign],
) -> Result<bool, Memory>
    ensures value { IfOk result (λ wrong. wrong ≡
        forms.is_wrong_done (map plain_callee called.now) captured.now
        (map (λ a. plain_assign a.now) dones.now)) }
{
    if captured.is_empty() {
        return is_wrong_for_one(alloc, called, captured, dones);
    }
    match called.first() {
        Some(callee) => Ok(!is_right_done(alloc, *callee, captured, dones)?),
        None => Ok(false),
    }
}

fn is_wrong_for_one(
    alloc: Global,
    called: &[Callee<'_>],
    captured: &[u32],
    dones: &[&Assign],
) -> Result<bool, Memory>
    ensures value { IfOk result (λ wrong. wrong ≡
        forms.is_wrong_done (map plain_callee called.now) captured.now
        (map (λ a. plain_assign a.now) dones.now)) }
{
    for callee in called {
        if !is_right_done(alloc, *callee, captured, dones)? {
            return Ok(true);
        }
    }
    Ok(false)
}

fn is_right_done(
    alloc: Global,
    callee: Callee<'_>,
    captured: &[u32],
    dones: &[&Assign],
) -> Result<bool, Memory>
    ensures value { IfOk result (λ right. right ≡
        shape.is_right_done (wanted_dones (done_of (plain_callee callee.entry)) captured.now)
        (map (λ a. plain_assign a.now) dones.now)) }
{
    match dones {
        [assign] => is_right_done_assign(alloc, callee, captured, assign),
        _ => Ok(false),
    }
}
