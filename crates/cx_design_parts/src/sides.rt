//! What may be driven, and what may be read.

ghost use Rattle.std.specs.Prelude.{◌≡◌, ◌<◌, length};
ghost use Rattle.cx_meaning.specs.Calls.{enables_at};
ghost use Rattle.cx_rules.specs.Ports as ports;
ghost use Rattle.cx_rules.specs.Ports.{component_of};
ghost use Rattle.cx_meaning.specs.Instances.{cells_of, cell_at};
ghost use Rattle.cx_meaning.specs.Rows.{side_of};
ghost use Rattle.cx_prim.specs.Table.{row_of};
ghost use Rattle.cx_design.specs.PlainDesigns.{plain_design};

use crate::cells::{At, port_row, stands_at};
use crate::parts::{PartPort, part_port};
use cx_cells::Primitive;
use cx_design::{Design, PortRef};
use cx_prim::Side;

/// Whether a port is an output of a cell or an input of the signature, which no assignment can drive.
pub fn is_source_only(design: &Design, number: usize, port: PortRef) -> bool
    requires within { number < length design.now.components.items }
    ensures value { result ≡ ports.is_source_only (component_of (plain_design design.now) number) port }
{
    match port {
        PortRef::Cell(cell, port) => is_cell_output(design, number, cell, port),
        PortRef::Input(_) => true,
        PortRef::Output(_) | PortRef::Done(_) | PortRef::Literal(_, _) => false,
    }
}

/// Whether a port is an input of a cell or an output of the signature, which nothing can read.
pub fn is_target_only(design: &Design, number: usize, port: PortRef) -> bool
    requires within { number < length design.now.components.items }
    ensures value { result ≡ ports.is_target_only (component_of (plain_design design.now) number) port }
{
    match port {
        PortRef::Cell(cell, port) => !is_cell_output(design, number, cell, port),
        PortRef::Output(_) => true,
        PortRef::Input(_) | PortRef::Done(_) | PortRef::Literal(_, _) => false,
    }
}

/// Whether a port is an enabling port of a primitive cell.
pub fn is_primitive_enable(design: &Design, number: usize, port: PortRef) -> bool
    requires within { number < length design.now.components.items }
    ensures value { result ≡ ports.is_primitive_enable (component_of (plain_design design.now) number) port }
{
    match port {
        PortRef::Cell(cell, port) => enables_cell(design, number, cell, port),
        PortRef::Input(_) | PortRef::Output(_) | PortRef::Done(_) | PortRef::Literal(_, _) => false,
    }
}

/// Whether a port is one of a component's cell.
pub fn is_part_port(design: &Design, number: usize, port: PortRef) -> bool
    requires within { number < length design.now.components.items }
    ensures value { result ≡ ports.is_part_port (component_of (plain_design design.now) number) port }
{
    match port {
        PortRef::Cell(cell, _) => is_instance(design, number, cell),
        PortRef::Input(_) | PortRef::Output(_) | PortRef::Done(_) | PortRef::Literal(_, _) => false,
    }
}

/// Whether a cell's port is one of its outputs.
fn is_cell_output(design: &Design, number: usize, cell: u32, port: u32) -> bool
    requires within { number < length design.now.components.items }
    ensures value { result ≡
        ports.is_cell_output (cell_at (cells_of (component_of (plain_design design.now) number)) cell) port }
{
    match stands_at(design, number, cell) {
        At::Nothing => false,
        At::Primitive(primitive) => matches!(
            side(primitive, port),
            Side::Output | Side::Registered
        ),
        At::Part(part) => matches!(part_port(part, port), PartPort::Output(_) | PartPort::Done),
    }
}

/// Whether a cell's port is an enabling port of a primitive.
fn enables_cell(design: &Design, number: usize, cell: u32, port: u32) -> bool
    requires within { number < length design.now.components.items }
    ensures value { result ≡
        enables_at (cell_at (cells_of (component_of (plain_design design.now) number)) cell) port }
{
    match stands_at(design, number, cell) {
        At::Primitive(primitive) => matches!(side(primitive, port), Side::Enable),
        At::Nothing | At::Part(_) => false,
    }
}

/// Whether a cell is one of a component.
fn is_instance(design: &Design, number: usize, cell: u32) -> bool
    requires within { number < length design.now.components.items }
    ensures value { result ≡
        ports.is_instance (cell_at (cells_of (component_of (plain_design design.now) number)) cell) }
{
    matches!(stands_at(design, number, cell), At::Part(_))
}

/// What a port is to its primitive. One that is not there counts as registered.
fn side(primitive: &Primitive, port: u32) -> Side
    ensures value { result ≡ side_of (row_of primitive.now) port }
{
    match port_row(primitive, port) {
        Some(row) => row.side,
        None => Side::Registered,
    }
}
