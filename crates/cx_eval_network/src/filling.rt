//! The listed ports of a group, found one behind the other.

ghost use Rattle.std.specs.Prelude.{◌≡◌, IfSome, length};
ghost use Rattle.cx_design.specs.declared.actives.Active.TheVariants.{Group};
ghost use Rattle.cx_eval_network.specs.Lists.{ActsAs, IsOnly};
ghost use Rattle.cx_design.specs.PlainDesigns.{plain_design};
ghost use Rattle.cx_eval_network.specs.Askings.{IsAsking, asked_of};
ghost use Rattle.cx_eval_network.specs.Demands.{Keeps, Ready};
ghost use Rattle.cx_eval_network.specs.Networks.{value_at};
ghost use Rattle.cx_eval_network.specs.Nodes.{IsInList, IsListOf, IsPlaceOf, part_at};

use crate::asking::Asking;
use crate::listed::{FoundBy, InstanceList, ListedPort};
use crate::looking::look_at_node;
use crate::marks::MarkTable;
use crate::network::Found;
use crate::numbering::{InstanceNodes, NodePort};
use crate::outputs::{cell_output, state_seen};
use cx_design::{Active, ActiveEntry, PortRef};

/// The group whose lists serve what is active: the only one. Where islands have several, these may drive the same ports; and a
/// call that captures needs few of its own.
pub fn listed_group(active: &Active) -> Option<u32>
    ensures value { IfSome result (λ group. ActsAs (Group group) active.now) }
{
    match active {
        Active::Group(group) => Some(*group),
        Active::Entries(entries) => only_entry(entries.as_slice()),
        Active::Nothing | Active::CallEnd(_) => None,
    }
}

/// The group of the only entry, where there is one.
fn only_entry(entries: &[ActiveEntry]) -> Option<u32>
    ensures value { IfSome result (IsOnly entries.now) }
{
    if entries.len() == 1 {
        Some(entries[0].group)
    } else {
        None
    }
}

/// Finds the listed ports of the asked instance, as far as what they rest on is known. It takes no memory.
pub fn fill(asking: &Asking<'_>, marks: &mut MarkTable, list: InstanceList<'_>)
    requires can { IsAsking asking.now }
    requires list { IsListOf (plain_design asking.now.design.now) asking.now.table.now.rows.items
        asking.now.instance asking.now.active.now list }
    requires ready { Ready (value_at (asked_of asking.now) asking.now.nodes.now) marks.old }
    ensures ready { Ready (value_at (asked_of asking.now) asking.now.nodes.now) marks.new }
    ensures kept { Keeps marks.old marks.new }
    ensures count { length marks.new ≡ length marks.old }
{
    for port in list.ports {
        fill_port(asking, marks, list.place, port);
    }
}

/// Finds a listed port: as its source, where that is known, by the state of its cell, or by a look at it, where nothing is known of
/// it, that finds a value.
#[inline(always)]
fn fill_port(asking: &Asking<'_>, marks: &mut MarkTable, place: InstanceNodes, port: &ListedPort)
    requires can { IsAsking asking.now }
    requires place { IsPlaceOf (asked_of asking.now).design (asked_of asking.now).rows asking.now.instance place }
    requires port { IsInList (part_at (asked_of asking.now).design
        (asked_of asking.now).rows asking.now.instance) asking.now.active.now port.now }
    requires ready { Ready (value_at (asked_of asking.now) asking.now.nodes.now) marks.old }
    ensures ready { Ready (value_at (asked_of asking.now) asking.now.nodes.now) marks.new }
    ensures kept { Keeps marks.old marks.new }
    ensures count { length marks.new ≡ length marks.old }
{
    let node = place.first + port.number;
    match port.found_by {
        FoundBy::Port(number) => marks.follow(node, place.first, number as usize),
        FoundBy::Fixed(seen) => marks.know(node, seen),
        FoundBy::State { cell, port } => {
            let seen = state_seen(asking, asking.instance, place.component, cell, port);
            marks.know(node, seen);
        }
        FoundBy::Inputs {
            cell,
            port: output,
            reads,
        } => {
            let found = NodePort {
                instance: asking.instance,
                component: place.component,
                port: PortRef::Cell(cell, output),
                number: port.number,
            };
            let own = marks.own_from(place.first);
            if let Found::Worth(seen) = cell_output(asking, &own, found, cell, output, reads) {
                marks.know(node, seen);
            }
        }
        FoundBy::Look => fill_looked(asking, marks, node),
    }
}

/// Finds a node by a look at it, where nothing is known of it, and what it rests on is known.
fn fill_looked(asking: &Asking<'_>, marks: &mut MarkTable, node: usize)
    requires can { IsAsking asking.now }
    requires ready { Ready (value_at (asked_of asking.now) asking.now.nodes.now) marks.old }
    ensures ready { Ready (value_at (asked_of asking.now) asking.now.nodes.now) marks.new }
    ensures kept { Keeps marks.old marks.new }
    ensures count { length marks.new ≡ length marks.old }
{
    if !marks.is_known(node) {
        if let Found::Worth(seen) = look_at_node(asking, marks, node) {
            marks.know(node, seen);
        }
    }
}
