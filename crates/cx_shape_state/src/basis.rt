//! What a port rests on.

ghost use Rattle.std.specs.Prelude.{◌≡◌, ◌<◌, length};
ghost use Rattle.cx_rules.specs.Ports.{component_of};
ghost use Rattle.cx_meaning.specs.Instances.{cells_of, cell_at};
ghost use Rattle.cx_design.specs.PlainForms.{plain_component};
ghost use Rattle.cx_design.specs.PlainDesigns.{plain_design};
ghost use Rattle.cx_meaning.specs.Sights as sights;
ghost use Rattle.cx_design_parts.specs.Cells.{plain_part_port};
ghost use Rattle.cx_shape_state.specs.Waits as waits;

use cx_design::{Design, PortRef};
use cx_design_parts::{At, PartPort, part_port, read_count, side, stands_at};
use cx_prim::Side;

/// What a port rests on.
#[derive(Clone, Copy, Debug, PartialEq, Eq)]
pub enum Basis {
    /// On state, as literals and registered outputs do.
    State,
    /// On nothing: it never rests.
    Nothing,
    /// On what the combinational outputs of a cell wait for.
    Cell(usize),
}

/// What a port of a component rests on, where signature inputs rest on state or never rest.
pub fn basis_of(design: &Design, number: usize, inputs: bool, port: PortRef) -> Basis
    requires within { number < length design.now.components.items }
    ensures value { result ≡ waits.basis_of (component_of (plain_design design.now) number) inputs port }
{
    match port {
        PortRef::Cell(cell, port) => cell_basis(design, number, cell, port),
        PortRef::Input(_) => input_basis(inputs),
        PortRef::Output(_) | PortRef::Done(_) => Basis::Nothing,
        PortRef::Literal(_, _) => Basis::State,
    }
}

fn input_basis(inputs: bool) -> Basis
    ensures value { result ≡ waits.input_basis inputs }
{
    if inputs { Basis::State } else { Basis::Nothing }
}

fn cell_basis(design: &Design, number: usize, cell: u32, port: u32) -> Basis
    requires within { number < length design.now.components.items }
    ensures value { result ≡
        waits.cell_basis cell port (cell_at (cells_of (component_of (plain_design design.now) number)) cell) }
{
    match stands_at(design, number, cell) {
        At::Nothing => Basis::Nothing,
        At::Primitive(primitive) => side_basis(cell, side(primitive, port)),
        At::Part(part) => part_basis(part_port(part, port)),
    }
}

fn side_basis(cell: u32, side: Side) -> Basis
    ensures value { result ≡ waits.side_basis cell side }
{
    match side {
        Side::Enable | Side::Plain => Basis::Nothing,
        Side::Output => Basis::Cell(cell as usize),
        Side::Registered => Basis::State,
    }
}

fn part_basis(port: PartPort) -> Basis
    ensures value { result ≡ waits.part_basis (plain_part_port port) }
{
    match port {
        PartPort::Go | PartPort::Input(_) => Basis::Nothing,
        PartPort::Output(_) | PartPort::Done => Basis::State,
    }
}

/// The cell whose combinational outputs read a port.
pub fn reader(design: &Design, number: usize, port: PortRef) -> Option<usize>
    requires within { number < length design.now.components.items }
    ensures value { result ≡ waits.reader_of (component_of (plain_design design.now) number) port }
{
    let PortRef::Cell(cell, port) = port else {
        return None;
    };
    if (port as usize) < read_ports(design, number, cell) {
        Some(cell as usize)
    } else {
        None
    }
}

/// How many of a cell's first ports its combinational outputs read.
fn read_ports(design: &Design, number: usize, cell: u32) -> usize
    requires within { number < length design.now.components.items }
    ensures value { result ≡ waits.reads_at (cell_at (cells_of (component_of (plain_design design.now) number)) cell) }
{
    match stands_at(design, number, cell) {
        At::Primitive(primitive) => read_count(primitive),
        At::Nothing | At::Part(_) => 0,
    }
}
