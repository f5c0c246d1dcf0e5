//! The sources of driven ports while a group is active.

ghost use Rattle.std.specs.Prelude.{◌≡◌, ℕ, IfSome, List, Some, true};
ghost use Rattle.cx_design.specs.declared.actives.Active as actives;
ghost use Rattle.cx_eval_network.specs.declared.planned.PortPlan as planned;
ghost use Rattle.cx_eval_network.specs.declared.planned.PortPlan.TheVariants as plans;
ghost use Rattle.cx_meaning.specs.declared.ports.PortRef as refs;
ghost use Rattle.cx_meaning.specs.Active.{Owned};
ghost use Rattle.cx_meaning.specs.Instances.{Instance};
ghost use Rattle.cx_meaning.specs.Sights.{Look};
ghost use Rattle.cx_eval_drives.specs.declared.targets.Drive.{Drive};
ghost use Rattle.cx_eval_drives.specs.Drives.{drive_of, offset_by, with_assign};
ghost use Rattle.cx_eval_network.specs.declared.marks.NodeMark.{NodeMark};
ghost use Rattle.cx_eval_network.specs.Evaluated.{Agree};
ghost use Rattle.cx_eval_network.specs.Lists.{ActsAs, IsFoundBy, IsSeenAs, IsSole, IsSource};
ghost use Rattle.cx_eval_network.specs.Planned.{Always, StandFor, assign_plan, numbered_assign, numbered_guard};

use crate::listed::FoundBy;
use crate::planned::{DrivenPlan, PlannedAssign, PlannedGuard, PlannedPort, PortPlan};
use cx_design::{Active, PortRef};
use cx_eval_drives::offset_of;

/// How many assignments to a port are gone through for each group that drives it. A port that thousands of groups drive costs
/// no square so.
pub const FEW: usize = 64;

/// What of the assignments to a port is active: none, one without a guard, by its source, or others.
#[derive(Clone, Copy, Debug, PartialEq, Eq)]
pub enum Sole {
    Nothing,
    Source(PlannedPort),
    Others,
}

/// How a port is found while an active set is, by its plan.
pub fn found_by(active: &Active, port: PortRef, plan: &PortPlan) -> FoundBy
    ensures value { IsFoundBy active.now port plan.now result }
{
    match plan {
        PortPlan::Driven(plan) => match driven_source(active, plan) {
            Some(source) => by_source(source),
            None => FoundBy::Look,
        },
        PortPlan::Output(reads) => output_by(port, *reads),
        PortPlan::Apart => FoundBy::Look,
    }
}

/// How a port is found that is seen as a source.
fn by_source(source: PlannedPort) -> FoundBy
    ensures value { (active : actives.Active) (port : refs.PortRef) (plan : planned.PortPlan) →
        IsSource active plan source → IsFoundBy active port plan result }
{
    match source {
        PlannedPort::Numbered(number) => FoundBy::Port(number),
        PlannedPort::Fixed(seen) => FoundBy::Fixed(seen),
    }
}

/// The same of an output of a primitive, by how many inputs it reads.
fn output_by(port: PortRef, reads: usize) -> FoundBy
    ensures value { (active : actives.Active) → IsFoundBy active port (plans.Output reads) result }
{
    match port {
        PortRef::Cell(cell, port) if reads == 0 => FoundBy::State { cell, port },
        PortRef::Cell(cell, port) => FoundBy::Inputs { cell, port, reads },
        PortRef::Input(_) | PortRef::Output(_) | PortRef::Done(_) | PortRef::Literal(_, _) =>
            FoundBy::Look,
    }
}

/// What a driven port is seen as while an active set is, where this is known from its plan.
fn driven_source(active: &Active, plan: &DrivenPlan) -> Option<PlannedPort>
    ensures value { IfSome result (IsSeenAs active.now plan.now) }
{
    match sole_of(active, plan.assigns.as_slice()) {
        Sole::Nothing => Some(PlannedPort::Fixed(plan.undriven)),
        Sole::Source(source) => Some(source),
        Sole::Others => None,
    }
}

/// What of some assignments is active, where they are few.
fn sole_of(active: &Active, assigns: &[PlannedAssign]) -> Sole
    ensures value { (other : actives.Active) → ActsAs active.now other →
        (i : Instance) (owned : List Owned) (look : Look) (own : List NodeMark) →
        StandFor i assigns.now owned → Agree i look own
        → IsSole own result (drive_of look (offset_by other) owned) }
{
    if assigns.len() > FEW {
        return Sole::Others;
    }
    let mut sole = Sole::Nothing;
    let mut left = assigns.len();
    while left > 0 {
        left -= 1;
        sole = sole_with(active, &assigns[left], sole);
    }
    sole
}

/// The same with one more before them.
fn sole_with(active: &Active, assign: &PlannedAssign, rest: Sole) -> Sole
    ensures value { (other : actives.Active) → ActsAs active.now other →
        (i : Instance) (a : Owned) (look : Look) (own : List NodeMark) (drive : Drive) →
        numbered_assign assign.now ≡ assign_plan i a → Agree i look own → IsSole own rest drive
        → IsSole own result (with_assign look (offset_by other a.owner) a drive) }
{
    match offset_of(active, assign.owner) {
        Some(_) => acting_sole(assign, rest),
        None => rest,
    }
}

/// The same of one that is active.
fn acting_sole(assign: &PlannedAssign, rest: Sole) -> Sole
    ensures value { (i : Instance) (a : Owned) (look : Look) (own : List NodeMark) (drive : Drive)
        (offset : ℕ) → numbered_assign assign.now ≡ assign_plan i a → Agree i look own → IsSole own rest drive
        → IsSole own result (with_assign look (Some offset) a drive) }
{
    if !is_true(&assign.guard) {
        return Sole::Others;
    }
    match rest {
        Sole::Nothing => Sole::Source(assign.source),
        Sole::Source(_) | Sole::Others => Sole::Others,
    }
}

/// Whether a guard is none.
fn is_true(guard: &PlannedGuard) -> bool
    ensures value { result ≡ true → numbered_guard guard.now ≡ Always }
{
    matches!(guard, PlannedGuard::True)
}
