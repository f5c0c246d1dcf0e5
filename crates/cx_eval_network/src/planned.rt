//! What is known of each port of a component before any run.

ghost use Rattle.std.specs.Prelude.{◌≡◌, IfNone, IfSome, None, Some, slice_get};

use cx_design::{Comparison, Seen};

/// A port by its number in the component; of a literal, and of a port that is not there, what it is seen as.
#[derive(Clone, Copy, Debug, PartialEq, Eq)]
pub enum PlannedPort {
    Numbered(u32),
    Fixed(Seen),
}

/// A guard over ports by their numbers.
#[derive(Debug, Drop)]
pub enum PlannedGuard {
    True,
    Port(PlannedPort),
    Not(Box<PlannedGuard>),
    And(Vec<PlannedGuard>),
    Or(Vec<PlannedGuard>),
    Compare(Comparison, PlannedPort, PlannedPort),
    During(u64, u64),
}

/// An assignment to a port: the group that it stands in, its guard, the numbers of the ports that its guard names, and its source.
#[derive(Debug, Drop)]
pub struct PlannedAssign {
    pub owner: Option<usize>,
    pub named: Vec<u32>,
    pub guard: PlannedGuard,
    pub source: PlannedPort,
}

/// The assignments to a port in source order, and what it is seen as where no guard is 1.
#[derive(Debug, Drop)]
pub struct DrivenPlan {
    pub assigns: Vec<PlannedAssign>,
    pub undriven: Seen,
}

/// What decides a port.
#[derive(Debug, Drop)]
pub enum PortPlan {
    /// The assignments to it.
    Driven(DrivenPlan),
    /// The state of its primitive, and so many inputs of this, the first.
    Output(usize),
    /// No port of its instance.
    Apart,
}

/// The plans of the ports of a component, in the order of their numbers.
#[derive(Debug, Drop)]
pub struct PartPlans {
    pub ports: Vec<PortPlan>,
}

/// The plan of a port, where it is there.
pub fn port_plan(plans: &[PortPlan], number: usize) -> Option<&PortPlan>
    ensures none { IfNone result (slice_get plans.now number ≡ None) }
    ensures some { IfSome result (λ plan. slice_get plans.now number ≡ Some plan.now) }
{
    plans.get(number)
}
