//! What a look at a node finds.

ghost use Rattle.std.specs.Prelude.{◌≡◌, ◌+◌, ◌^◌, ◌<◌, ℕ, Some};
ghost use Rattle.cx_eval_network.specs.Askings.{IsAsking, IsFound, asked_of};
ghost use Rattle.cx_eval_network.specs.Demands.{IsRight, Looked};
ghost use Rattle.cx_eval_network.specs.Evaluated.{placed};
ghost use Rattle.cx_eval_network.specs.Networks.{leads_at, leads_of, value_at, value_of};
ghost use Rattle.cx_eval_network.specs.Nodes.{first_node, part_at};
ghost use Rattle.cx_eval_network.specs.Plans.{IsPlanOf};
ghost use Rattle.cx_eval_network.specs.declared.network.Found.TheVariants.{Waits};

use crate::apart::apart_found;
use crate::asking::Asking;
use crate::evaluating::driven_found;
use crate::marks::MarkTable;
use crate::outputs::output_found;
use crate::places::{active_of, asked_port};
use crate::planned::PortPlan;
use crate::{Found, NodePort};
use cx_design::Seen;

/// The value of a node, or a node that it needs and that is not known. It takes no memory.
pub fn look_at_node(asking: &Asking<'_>, marks: &MarkTable, node: usize) -> Found
    requires can { IsAsking asking.now }
    requires right { IsRight (value_at (asked_of asking.now) asking.now.nodes.now) marks.now }
    ensures found { Looked (leads_at (asked_of asking.now) asking.now.nodes.now node)
        (value_at (asked_of asking.now) asking.now.nodes.now node) marks.now result }
{
    match asked_port(asking, node) {
        Some(found) => look_at_port(asking, marks, node, found),
        None => Found::Worth(Seen::Undefined),
    }
}

/// What a port is seen as that is found at a node, or a node that it needs and that is not known.
fn look_at_port(asking: &Asking<'_>, marks: &MarkTable, node: usize, found: NodePort) -> Found
    requires can { IsAsking asking.now }
    requires found { IsFound (asked_of asking.now) found }
    requires node { first_node (asked_of asking.now).design (asked_of asking.now).rows found.instance +
        found.number ≡ node }
    requires right { IsRight (value_at (asked_of asking.now) asking.now.nodes.now) marks.now }
    ensures found { Looked (leads_of (asked_of asking.now) (Some found))
        (value_of (asked_of asking.now) (Some found)) marks.now result }
{
    let first = node - found.number;
    match found_plan(asking, found) {
        PortPlan::Driven(plan) => {
            let active = active_of(asking, found.instance);
            from_first(first, driven_found(&marks.own_from(first), active, plan))
        }
        PortPlan::Output(reads) => from_first(
            first,
            output_found(asking, &marks.own_from(first), found, *reads),
        ),
        PortPlan::Apart => apart_found(asking, marks, found),
    }
}

/// What is found in an instance, with its nodes from the first one on.
fn from_first(first: usize, found: Found) -> Found
    requires fits { (n : ℕ) → found ≡ Waits n → first + n < 2 ^ 64 }
    ensures value { result ≡ placed first found }
{
    match found {
        Found::Worth(seen) => Found::Worth(seen),
        Found::Waits(number) => Found::Waits(first + number),
    }
}

/// The plan of a port that is found.
fn found_plan<'b>(asking: &Asking<'b>, found: NodePort) -> &'b PortPlan
    requires can { IsAsking asking.now }
    requires found { IsFound (asked_of asking.now) found }
    ensures value { IsPlanOf (part_at (asked_of asking.now).design
        (asked_of asking.now).rows found.instance) found.port result.now }
{
    match asking.nodes.plan(found.component, found.number) {
        Some(plan) => plan,
        None => unreachable!(),
    }
}
