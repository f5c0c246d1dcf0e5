//! Guards and assignments as marks show the ports of their instance, by the numbers of these.

ghost use Rattle.std.specs.Prelude.{◌≡◌, ℕ, ◌∷◌, [], IfNone, IfSome, List, false};
ghost use Rattle.cx_meaning.specs.declared.sights.Seen.{Seen};
ghost use Rattle.cx_meaning.specs.Active.{Owned};
ghost use Rattle.cx_meaning.specs.Instances.{Instance};
ghost use Rattle.cx_meaning.specs.Sights as sights;
ghost use Rattle.cx_meaning.specs.Sights.{Look};
ghost use Rattle.cx_eval_drives.specs.Drives.{acting_of, offset_by, with_assign, with_driver};
ghost use Rattle.cx_eval_drives.specs.Plain.{plain_truth};
ghost use Rattle.cx_eval_network.specs.Demands.{Looked, known_at};
ghost use Rattle.cx_eval_network.specs.Evaluated.{Agree, Gives, IsLacking, port_found, port_shown, truth_shown};
ghost use Rattle.cx_eval_network.specs.LeadPorts.{named_by};
ghost use Rattle.cx_eval_network.specs.Lacking.{unknown_in};
ghost use Rattle.cx_eval_network.specs.Planned.{StandFor, assign_plan, numbered_assign, numbered_guard, numbers_of};
ghost use Rattle.cx_eval_network.specs.declared.planned.PlannedPort.TheVariants.{Numbered};

use crate::marked::{OwnMarks, found_at, is_known, shown_at};
use crate::network::Found;
use crate::planned::{DrivenPlan, PlannedAssign, PlannedGuard, PlannedPort};
use cx_design::{Active, Seen};
use cx_eval_drives::{
    Drive, Truth, add_source, and_truth, compared, not_truth, of_bit, offset_of, or_truth, truth_of,
};

/// What a planned port is seen as.
fn port_seen(own: &OwnMarks<'_>, port: PlannedPort) -> Seen
    ensures value { result ≡ port_shown own.now port }
{
    match port {
        PlannedPort::Numbered(number) => shown_at(own, number as usize),
        PlannedPort::Fixed(seen) => seen,
    }
}

/// What is known of a planned port, or its number.
fn source_found(own: &OwnMarks<'_>, source: PlannedPort) -> Found
    ensures value { result ≡ port_found own.now source }
{
    match source {
        PlannedPort::Numbered(number) => found_at(own, number as usize),
        PlannedPort::Fixed(seen) => Found::Worth(seen),
    }
}

/// What a planned guard is, at an offset of its group. Guards of a text are at most 64 levels deep.
fn planned_truth(own: &OwnMarks<'_>, offset: u64, guard: &PlannedGuard) -> Truth
    ensures value { plain_truth result ≡ truth_shown own.now offset (numbered_guard guard.now) }
{
    match guard {
        PlannedGuard::True => Truth::One,
        PlannedGuard::Port(port) => truth_of(port_seen(own, *port)),
        PlannedGuard::Not(guard) => not_truth(planned_truth(own, offset, guard)),
        PlannedGuard::And(parts) => {
            let mut all = Truth::One;
            for part in parts {
                all = and_truth(all, planned_truth(own, offset, part));
            }
            all
        }
        PlannedGuard::Or(parts) => {
            let mut any = Truth::Zero;
            for part in parts {
                any = or_truth(any, planned_truth(own, offset, part));
            }
            any
        }
        PlannedGuard::Compare(comparison, left, right) => {
            compared(*comparison, port_seen(own, *left), port_seen(own, *right))
        }
        PlannedGuard::During(from, to) => of_bit(*from <= offset && offset < *to),
    }
}

/// The first of some ports that is not known.
fn unknown_number(own: &OwnMarks<'_>, numbers: &[u32]) -> Option<usize>
    ensures value { result ≡ unknown_in own.now numbers.now }
{
    for number in numbers {
        if !is_known(own, *number as usize) {
            return Some(*number as usize);
        }
    }
    None
}

/// Puts a driver before what the drive has already; or answers the number of its source, where that is needed and not known.
fn add_driver(
    drive: &mut Drive,
    own: &OwnMarks<'_>,
    guard: Truth,
    source: PlannedPort,
) -> Option<usize>
    ensures waits { IfSome result (λ number. (source ≡ Numbered number) × (known_at own.now number ≡ false)) }
    ensures value { IfNone result ((x : Seen) → Gives x (port_found own.now source) →
        drive.new ≡ with_driver (plain_truth guard) x drive.old) }
{
    match guard {
        Truth::One => match source_found(own, source) {
            Found::Worth(seen) => add_source(drive, seen),
            Found::Waits(number) => return Some(number),
        },
        Truth::Zero => {}
        Truth::Conflict => *drive = Drive::Stopped(Seen::Conflict),
        Truth::Undefined => *drive = Drive::Stopped(Seen::Undefined),
    }
    None
}

/// Puts an assignment before what the drive has already, where it is active; or answers the number of a port that it needs and that
/// is not known.
fn add_assign(
    drive: &mut Drive,
    own: &OwnMarks<'_>,
    active: &Active,
    assign: &PlannedAssign,
) -> Option<usize>
    ensures waits { IfSome result (λ number.
        (i : Instance) (a : Owned) → numbered_assign assign.now ≡ assign_plan i a
        → IsLacking own.now i (offset_by active.now) (a ∷ []) number) }
    ensures value { IfNone result ((i : Instance) (a : Owned) (look : Look) →
        numbered_assign assign.now ≡ assign_plan i a → Agree i look own.now →
        drive.new ≡ with_assign look (offset_by active.now a.owner) a drive.old) }
{
    let offset = offset_of(active, assign.owner)?;
    match unknown_number(own, assign.named.as_slice()) {
        Some(number) => Some(number),
        None => {
            let guard = planned_truth(own, offset, &assign.guard);
            add_driver(drive, own, guard, assign.source)
        }
    }
}

/// What a driven port is seen as, or the number of a port that it needs and that is not known. It takes no memory.
pub fn driven_found(own: &OwnMarks<'_>, active: &Active, plan: &DrivenPlan) -> Found
    ensures value { (i : Instance) (owned : List Owned) (look : Look) →
        StandFor i plan.now.assigns.items owned → Agree i look own.now
        → Looked (numbers_of i (named_by (acting_of (offset_by active.now) owned)))
        (sights.target_seen plan.now.undriven look (acting_of (offset_by active.now) owned)) own.now
        result }
{
    let mut drive = Drive::Nothing;
    let mut left = plan.assigns.len();
    while left > 0 {
        left -= 1;
        if let Some(number) = add_assign(&mut drive, own, active, &plan.assigns[left]) {
            return Found::Waits(number);
        }
    }
    match drive {
        Drive::Stopped(by) => Found::Worth(by),
        Drive::Nothing => Found::Worth(plan.undriven),
        Drive::Gives(seen) => Found::Worth(seen),
    }
}
