//! Widths of ports, in bits.

ghost use Rattle.std.specs.Prelude.{◌≡◌, ◌<◌, length};
ghost use Rattle.cx_rules.specs.Ports as ports;
ghost use Rattle.cx_rules.specs.Ports.{component_of};
ghost use Rattle.cx_meaning.specs.Instances.{cells_of, cell_at};
ghost use Rattle.cx_design.specs.PlainForms.{plain_component};
ghost use Rattle.cx_design.specs.PlainDesigns.{plain_design};
ghost use Rattle.cx_design_parts.specs.Cells.{plain_part_port};

use crate::cells::{At, component, port_row, stands_at};
use crate::parts::{PartPort, part_port};
use cx_design::{Component, Design, PortDecl, PortRef};

/// The width of a port. A literal has its width where it is one of 1 to 128 bits that the value fits.
pub fn width(design: &Design, number: usize, port: PortRef) -> Option<u32>
    requires within { number < length design.now.components.items }
    ensures value { result ≡ ports.width_of (component_of (plain_design design.now) number) port }
{
    match port {
        PortRef::Cell(cell, port) => cell_width(design, number, cell, port),
        PortRef::Input(port) => declared_width(component(design, number).inputs.as_slice(), port),
        PortRef::Output(port) => declared_width(component(design, number).outputs.as_slice(), port),
        PortRef::Done(_) => Some(1),
        PortRef::Literal(width, value) => if keeps_literal(width, value) {
            Some(width)
        } else {
            None
        },
    }
}

/// The width of a port, and of a literal as it is written.
pub fn written_width(design: &Design, number: usize, port: PortRef) -> Option<u32>
    requires within { number < length design.now.components.items }
    ensures value { result ≡ ports.written_width (component_of (plain_design design.now) number) port }
{
    match port {
        PortRef::Literal(width, _) => Some(width),
        PortRef::Cell(_, _) | PortRef::Input(_) | PortRef::Output(_) | PortRef::Done(_) => {
            width(design, number, port)
        }
    }
}

/// Whether a literal has 1 to 128 bits, and its value fits.
pub fn keeps_literal(width: u32, value: u128) -> bool
    ensures value { result ≡ ports.keeps_literal width value }
{
    1 <= width && width <= 128 && (width == 128 || value < 1u128 << width)
}

fn cell_width(design: &Design, number: usize, cell: u32, port: u32) -> Option<u32>
    requires within { number < length design.now.components.items }
    ensures value { result ≡
        ports.cell_width (cell_at (cells_of (component_of (plain_design design.now) number)) cell) port }
{
    match stands_at(design, number, cell) {
        At::Nothing => None,
        At::Primitive(primitive) => port_row(primitive, port).map(|row| row.width as u32),
        At::Part(part) => part_width(part, part_port(part, port)),
    }
}

fn part_width(part: &Component, port: PartPort) -> Option<u32>
    ensures value { result ≡ ports.part_width (plain_component part.now) (plain_part_port port) }
{
    match port {
        PartPort::Go | PartPort::Done => Some(1),
        PartPort::Input(port) => declared_width(part.inputs.as_slice(), port),
        PartPort::Output(port) => declared_width(part.outputs.as_slice(), port),
    }
}

fn declared_width(decls: &[PortDecl], port: u32) -> Option<u32>
    ensures value { result ≡ ports.declared_width decls.now port }
{
    decls.get(port as usize).map(|decl| decl.width as u32)
}
