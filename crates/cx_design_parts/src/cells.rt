//! What stands at a component's cell.

ghost use Rattle.std.specs.Prelude.{◌≡◌, ◌<◌, IfNone, IfSome, length, slice_get};
ghost use Rattle.cx_meaning.specs.Designs.{component_at};
ghost use Rattle.cx_meaning.specs.Instances.{cells_of, cell_at};
ghost use Rattle.cx_prim.specs.Table.{row_of};
ghost use Rattle.cx_rules.specs.Ports.{component_of};
ghost use Rattle.cx_design.specs.PlainForms.{plain_cell, plain_component};
ghost use Rattle.cx_design.specs.PlainDesigns.{plain_design};
ghost use Rattle.cx_design_parts.specs.Cells.{StandsFor};

use cx_cells::Primitive;
use cx_design::{Cell, CellKind, Component, Design};
use cx_prim::{Cycle, PortRow};

/// What stands at a cell's number.
#[derive(Clone, Copy)]
pub enum At<'a> {
    Nothing,
    Primitive(&'a Primitive),
    /// The component that the cell is of.
    Part(&'a Component),
}

/// The component of a number.
pub fn component(design: &Design, number: usize) -> &Component
    requires within { number < length design.now.components.items }
    ensures value { plain_component result.now ≡ component_at (plain_design design.now) number }
{
    &design.components.as_slice()[number]
}

/// The cell of a number, where the component has it.
pub fn cell_of(component: &Component, number: u32) -> Option<&Cell>
    ensures none { IfNone result (slice_get (plain_component component.now).cells number ≡ None) }
    ensures some { IfSome result
        (λ cell. slice_get (plain_component component.now).cells number ≡ Some (plain_cell cell.now)) }
{
    component.cells.as_slice().get(number as usize)
}

/// What stands at a cell of a component, both by their numbers.
pub fn stands_at(design: &Design, number: usize, cell: u32) -> At<'_>
    requires within { number < length design.now.components.items }
    ensures value { StandsFor result (cell_at (cells_of (component_of (plain_design design.now) number)) cell) }
{
    match cell_of(component(design, number), cell) {
        None => At::Nothing,
        Some(cell) => match &cell.kind {
            CellKind::Prim(primitive) => At::Primitive(primitive),
            CellKind::Part(part) => At::Part(component(design, *part as usize)),
        },
    }
}

/// A port of a primitive, where it has one of this number.
pub fn port_row(primitive: &Primitive, port: u32) -> Option<PortRow>
    ensures value { result ≡ slice_get (row_of primitive.now).ports port }
{
    let port = port as usize;
    if port < primitive.port_count() {
        Some(primitive.port(port))
    } else {
        None
    }
}
