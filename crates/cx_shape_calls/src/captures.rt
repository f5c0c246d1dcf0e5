//! The captured registers of a group.

ghost use Rattle.std.specs.Prelude.{◌≡◌, IfOk, map};
ghost use Rattle.cx_rules.specs.CallShape as shape;
ghost use Rattle.cx_design.specs.PlainForms.{plain_assigns, plain_component, plain_kind};
ghost use Rattle.cx_shape_calls.specs.Forms as forms;

use cx_design::{Assign, CellKind, Component, PortRef};
use cx_text::Memory;
use std::alloc::Global;
use std::collections::BTreeSet;

/// Every `std_reg` whose `write_en` the assignments drive, in cell order.
pub fn captured(
    alloc: Global,
    component: &Component,
    assigns: &[Assign],
) -> Result<Vec<u32>, Memory>
    ensures value { IfOk result
        (λ list. list.items ≡ shape.captured (plain_component component.now) (plain_assigns assigns.now)) }
{
    let mut found = BTreeSet::new(alloc);
    for assign in assigns {
        if let Some(register) = register_of(component, assign.target) {
            found.insert(register)?;
        }
    }
    Ok(found.iter().copied().collect(alloc)?)
}

/// The `std_reg` whose `write_en` a port is.
pub fn register_of(component: &Component, port: PortRef) -> Option<u32>
    ensures value { result ≡ forms.register_of (plain_component component.now) port }
{
    match port {
        PortRef::Cell(cell, port) => if is_register(component, cell) && port == 1 {
            Some(cell)
        } else {
            None
        },
        PortRef::Input(_) | PortRef::Output(_) | PortRef::Done(_) | PortRef::Literal(_, _) => None,
    }
}

/// Whether a cell is a `std_reg`.
fn is_register(component: &Component, cell: u32) -> bool
    ensures value { result ≡ shape.is_register (plain_component component.now) cell }
{
    match component.cells.as_slice().get(cell as usize) {
        Some(cell) => is_register_kind(&cell.kind),
        None => false,
    }
}

/// Whether a cell's kind is `std_reg`.
fn is_register_kind(kind: &CellKind) -> bool
    ensures value { result ≡ shape.is_reg_kind (plain_kind kind.now) }
{
    match kind {
        CellKind::Prim(primitive) => primitive.name() == "std_reg",
        CellKind::Part(_) => false,
    }
}
