//! Ports that depend on no port of their instance.

ghost use Rattle.std.specs.Prelude.{◌≡◌, ◌≤◌, ◌<◌, Some, get_or, length};
ghost use Rattle.cx_meaning.specs.declared.ports.PortRef.TheVariants.{Cell};
ghost use Rattle.cx_meaning.specs.declared.sights.Seen.TheVariants as views;
ghost use Rattle.cx_meaning.specs.Sights as sights;
ghost use Rattle.cx_design.specs.PlainForms.{plain_component};
ghost use Rattle.cx_eval_network.specs.Askings.{IsAsking, IsFound, asked_of, decided_by};
ghost use Rattle.cx_eval_network.specs.Below.{HasOutput, PartStands, child_seen};
ghost use Rattle.cx_eval_network.specs.Demands.{IsRight, Looked};
ghost use Rattle.cx_eval_network.specs.Networks.{active_at, instance_of, leads_of, output_node, value_at, value_of};
ghost use Rattle.cx_eval_network.specs.Nodes.{part_at};
ghost use Rattle.cx_eval_network.specs.Plans.{Apart};

use crate::asking::Asking;
use crate::called::called;
use crate::children::child_in;
use crate::marked::node_found;
use crate::marks::MarkTable;
use crate::places::{active_of, held_of};
use crate::{Found, NodePort};
use cx_design::{Active, Component, PortRef, Seen};
use cx_design_parts::{At, PartPort, part_port, stands_at};
use cx_prim::bit;

/// What a port is seen as that depends on no port of its instance, or the node below that it needs, where that is not known.
pub fn apart_found(asking: &Asking<'_>, marks: &MarkTable, found: NodePort) -> Found
    requires can { IsAsking asking.now }
    requires found { IsFound (asked_of asking.now) found }
    requires apart { decided_by (asked_of asking.now) found ≡ Apart }
    requires right { IsRight (value_at (asked_of asking.now) asking.now.nodes.now) marks.now }
    ensures found { Looked (leads_of (asked_of asking.now) (Some found))
        (value_of (asked_of asking.now) (Some found)) marks.now result }
{
    match found.port {
        PortRef::Input(input) => Found::Worth(held_seen(held_of(asking, found.instance), input)),
        PortRef::Cell(cell, port) => cell_found(asking, marks, found, cell, port),
        PortRef::Output(_) | PortRef::Done(_) | PortRef::Literal(_, _) => unreachable!(),
    }
}

/// What an input is held as.
fn held_seen(held: &[Seen], input: u32) -> Seen
    ensures value { result ≡ get_or held.now input views.Undefined }
{
    match held.get(input as usize) {
        Some(seen) => *seen,
        None => Seen::Undefined,
    }
}

/// The same of a port of a cell.
fn cell_found(
    asking: &Asking<'_>,
    marks: &MarkTable,
    found: NodePort,
    cell: u32,
    port: u32,
) -> Found
    requires can { IsAsking asking.now }
    requires found { IsFound (asked_of asking.now) found }
    requires port { found.port ≡ Cell cell port }
    requires apart { decided_by (asked_of asking.now) found ≡ Apart }
    requires right { IsRight (value_at (asked_of asking.now) asking.now.nodes.now) marks.now }
    ensures found { Looked (leads_of (asked_of asking.now) (Some found))
        (value_of (asked_of asking.now) (Some found)) marks.now result }
{
    match stands_at(asking.design, found.component as usize, cell) {
        At::Part(part) => part_found(asking, marks, found, cell, port, part),
        At::Nothing => Found::Worth(Seen::Undefined),
        At::Primitive(_) => unreachable!(),
    }
}

/// The same of a port of a component cell.
fn part_found(
    asking: &Asking<'_>,
    marks: &MarkTable,
    found: NodePort,
    cell: u32,
    port: u32,
    part: &Component,
) -> Found
    requires can { IsAsking asking.now }
    requires found { IsFound (asked_of asking.now) found }
    requires port { found.port ≡ Cell cell port }
    requires part { PartStands
        (part_at (asked_of asking.now).design (asked_of asking.now).rows found.instance) cell
        (plain_component part.now) }
    requires apart { decided_by (asked_of asking.now) found ≡ Apart }
    requires right { IsRight (value_at (asked_of asking.now) asking.now.nodes.now) marks.now }
    ensures found { Looked (leads_of (asked_of asking.now) (Some found))
        (value_of (asked_of asking.now) (Some found)) marks.now result }
{
    match part_port(part, port) {
        PartPort::Output(output) => child_found(asking, marks, found.instance, cell, output),
        PartPort::Done => Found::Worth(bit_seen(is_done(asking, found, cell))),
        PartPort::Go | PartPort::Input(_) => unreachable!(),
    }
}

/// What is known of an output of the instance at a cell, or its node.
fn child_found(
    asking: &Asking<'_>,
    marks: &MarkTable,
    instance: usize,
    cell: u32,
    output: u32,
) -> Found
    requires can { IsAsking asking.now }
    requires from { asking.now.instance ≤ instance }
    requires within { instance < length (asked_of asking.now).rows }
    requires output { HasOutput (instance_of (asked_of asking.now) instance) cell output }
    requires right { IsRight (value_at (asked_of asking.now) asking.now.nodes.now) marks.now }
    ensures found { Looked (output_node (asked_of asking.now) instance cell (sights.AnOutput output))
        (child_seen (asked_of asking.now) instance cell output) marks.now result }
{
    match child_in(asking.table, instance, cell) {
        Some(child) => match asking.nodes.node(child, PortRef::Output(output)) {
            Some(node) => node_found(marks, node),
            None => unreachable!(),
        },
        None => unreachable!(),
    }
}

/// A bit as it is seen.
pub fn bit_seen(truth: bool) -> Seen
    ensures value { result ≡ sights.bit_of truth }
{
    Seen::Value(bit(truth))
}

/// Whether the done of a component cell is 1: in the capture cycle of a group that calls it.
fn is_done(asking: &Asking<'_>, found: NodePort, cell: u32) -> bool
    requires can { IsAsking asking.now }
    requires found { IsFound (asked_of asking.now) found }
    ensures value { result ≡ sights.is_done_cell (active_at (asked_of asking.now) found.instance).done_cell cell }
{
    match active_of(asking, found.instance) {
        Active::CallEnd(group) => is_called(
            called(asking.design, found.component as usize, *group),
            cell,
        ),
        Active::Nothing | Active::Group(_) | Active::Entries(_) => false,
    }
}

/// Whether a cell is the one that is called.
fn is_called(called: Option<u32>, cell: u32) -> bool
    ensures value { result ≡ sights.is_done_cell called cell }
{
    match called {
        Some(called) => called == cell,
        None => false,
    }
}
