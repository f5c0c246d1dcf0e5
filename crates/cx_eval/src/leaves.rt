//! Ports that are seen as a value, or as an output that reads no input.

ghost use Rattle.std.specs.Prelude.{◌≡◌, [], IfSome};
ghost use Rattle.cx_meaning.specs.Instances.{Instance};
ghost use Rattle.cx_eval_network.specs.Nodes.{IsInList};
ghost use Rattle.cx_eval.specs.Sources.{IsNumberSeen, IsPartGroup};

use crate::sources::Source;
use cx_design::Active;
use cx_eval_network::{FoundBy, ListedPort, PartNodes, PartPlans, found_by, port_plan};

/// A component by its ports and their plans, and what is active in it.
#[derive(Clone, Copy)]
pub(crate) struct PartGroup<'a> {
    pub(crate) part: &'a PartNodes,
    pub(crate) plans: &'a PartPlans,
    pub(crate) active: &'a Active,
}

/// The port of a number, by how it is found.
fn listed_at(of: &PartGroup<'_>, number: usize) -> Option<ListedPort>
    ensures number { IfSome result (λ listed. listed.number ≡ number) }
    ensures found { IfSome result (λ listed. (i : Instance) → IsPartGroup i of.now →
        IsInList i of.now.active.now listed) }
{
    let port = of.part.ports.get(number)?;
    let plan = port_plan(&of.plans.ports, number)?;
    Some(ListedPort {
        number,
        found_by: found_by(of.active, *port, plan),
    })
}

/// What a port is seen as at once, by its number.
fn leaf_at(of: &PartGroup<'_>, number: usize) -> Option<Source>
    ensures value { IfSome result (λ source. (i : Instance) → IsPartGroup i of.now →
        IsNumberSeen i of.now.active.now [] number source) }
{
    let listed = listed_at(of, number)?;
    match listed.found_by {
        FoundBy::Fixed(seen) => Some(Source::Fixed(seen)),
        FoundBy::State { cell, port } => Some(Source::State { cell, port }),
        FoundBy::Port(_) | FoundBy::Inputs { .. } | FoundBy::Look => None,
    }
}

/// What a port is seen as at once, or as another port that is seen so.
pub(crate) fn leaf(of: &PartGroup<'_>, number: usize) -> Option<Source>
    ensures value { IfSome result (λ source. (i : Instance) → IsPartGroup i of.now →
        IsNumberSeen i of.now.active.now [] number source) }
{
    let listed = listed_at(of, number)?;
    match listed.found_by {
        FoundBy::Port(other) => leaf_at(of, other as usize),
        FoundBy::Fixed(seen) => Some(Source::Fixed(seen)),
        FoundBy::State { cell, port } => Some(Source::State { cell, port }),
        FoundBy::Inputs { .. } | FoundBy::Look => None,
    }
}
