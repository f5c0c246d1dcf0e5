//! The widths of what is driven, in bits.

ghost use Rattle.std.specs.Prelude.{◌≡◌, slice_get};
ghost use Rattle.cx_design.specs.PlainForms.{plain_component, plain_kind};
ghost use Rattle.cx_design_parts.specs.Cells.{plain_part_port};
ghost use Rattle.cx_net.specs.PlainNets.{plain_net_target};
ghost use Rattle.cx_rules.specs.Ports as ports;
ghost use Rattle.cx_static.specs.Islands.{PlainLowered};
ghost use Rattle.cx_static.specs.PlainLowered.{plain_lowered, plain_lowereds};
ghost use Rattle.cx_wiring.specs.Wiring as wired;
ghost use Rattle.cx_fsm.specs.KnownWidths as known;
ghost use Rattle.cx_fsm.specs.KnownWidths.{KnowsWidths};

use cx_design::{Cell, CellKind, Component, PortDecl, PortRef, Primitive};
use cx_design_parts::{PartPort, part_port};
use cx_net::NetTarget;
use cx_prim::Cycle;
use cx_static::{Lowered, LoweredComponent};

/// A component of a design, with the widths of its registers, and of its wires but for those of trees.
#[derive(Clone, Copy)]
pub(crate) struct Widths<'a> {
    pub design: &'a Lowered,
    pub component: &'a LoweredComponent,
    pub registers: &'a [u8],
    pub wires: &'a [u8],
}

impl Widths<'_> {
    /// The width of a target. What is not there counts as one bit.
    pub fn of(&self, target: NetTarget) -> u8
        requires { KnowsWidths self.now }
        ensures value { result ≡ known.width_in self.now (plain_net_target target) }
    {
        self.known(target).unwrap_or(1)
    }

    /// The width of a target that is there.
    fn known(&self, target: NetTarget) -> Option<u8>
        requires { KnowsWidths self.now }
        ensures value { result ≡ wired.known_width (plain_lowereds self.now.design.now)
            (plain_lowered self.now.component.now) (plain_net_target target) }
    {
        let part = &self.component.part;
        match target {
            NetTarget::Port(PortRef::Cell(cell, port)) => {
                cell_width(self.design, part.cells.get(cell as usize)?, port)
            }
            NetTarget::Port(PortRef::Output(port)) => declared(&part.outputs, port),
            NetTarget::Register(register) => listed(self.registers, register),
            NetTarget::Wire(wire) => listed(self.wires, wire),
            NetTarget::Port(PortRef::Input(_) | PortRef::Done(_) | PortRef::Literal(_, _))
            | NetTarget::Hole(_)
            | NetTarget::Done => None,
        }
    }
}

/// The width in a list.
fn listed(widths: &[u8], number: u32) -> Option<u8>
    ensures value { result ≡ slice_get widths.now number }
{
    widths.get(number as usize).copied()
}

/// The width of a declared port.
fn declared(list: &[PortDecl], number: u32) -> Option<u8>
    ensures value { result ≡ ports.declared_width list.now number }
{
    Some(list.get(number as usize)?.width)
}

/// The width of a port of a cell.
fn cell_width(design: &Lowered, cell: &Cell, port: u32) -> Option<u8>
    ensures value { (lowered : PlainLowered) →
        result ≡ wired.kind_width (plain_lowereds design.now) lowered (plain_kind cell.now.kind) port }
{
    match &cell.kind {
        CellKind::Prim(primitive) => primitive_width(primitive, port as usize),
        CellKind::Part(part) => {
            let child = &design.components().get(*part as usize)?.part;
            part_width(child, part_port(child, port))
        }
    }
}

/// The width of a port of a primitive.
fn primitive_width(primitive: &Primitive, port: usize) -> Option<u8>
    ensures value { result ≡ known.primitive_width primitive.now port }
{
    if port < primitive.port_count() {
        Some(primitive.port(port).width)
    } else {
        None
    }
}

/// The width of a port of a component's cell.
fn part_width(part: &Component, port: PartPort) -> Option<u8>
    ensures value { result ≡ ports.part_width (plain_component part.now) (plain_part_port port) }
{
    match port {
        PartPort::Go | PartPort::Done => Some(1),
        PartPort::Input(number) => declared(&part.inputs, number),
        PartPort::Output(number) => declared(&part.outputs, number),
    }
}
