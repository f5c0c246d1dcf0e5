//! The component cells whose ports a group drives.

ghost use Rattle.std.specs.Prelude.{◌≡◌, ◌<◌, ◌∷◌, ◌++◌, IfOk, List, length, map, nat_eq, suc, ◌+◌};
ghost use Rattle.std.specs.Option.{option_map};
ghost use Rattle.cx_meaning.specs.Active.{same_port};
ghost use Rattle.cx_rules.specs.Ports.{component_of};
ghost use Rattle.cx_design.specs.PlainForms.{plain_assigns};
ghost use Rattle.cx_design.specs.PlainDesigns.{plain_design};
ghost use Rattle.cx_callees.specs.Callees as callees;
ghost use Rattle.cx_callees.specs.Callees.{PlainCallee, plain_callee, done_of, called_of, apart};

use cx_design::{Assign, Component, Design, PortRef};
use cx_design_parts::{At, stands_at};
use cx_text::Memory;
use std::alloc::Global;

/// A component cell, and its component.
#[derive(Clone, Copy)]
pub struct Callee<'a> {
    pub cell: u32,
    pub part: &'a Component,
}

impl Callee<'_> {
    /// Whether a port is the cell's done.
    pub fn is_done(self, port: PortRef) -> bool
        ensures value { result ≡ same_port port (done_of (plain_callee self.entry)) }
    {
        match port {
            PortRef::Cell(cell, port) => cell == self.cell && is_done_number(self.part, port),
            PortRef::Input(_) | PortRef::Output(_) | PortRef::Done(_) | PortRef::Literal(_, _) => {
                false
            }
        }
    }
}

/// Whether a port of a component's cell is its done, by its number: the one behind the inputs and the outputs.
fn is_done_number(part: &Component, port: u32) -> bool
    ensures value { result ≡ nat_eq port (suc (length part.now.inputs.items + length part.now.outputs.items)) }
{
    let Some(behind_go) = port.checked_sub(1) else {
        return false;
    };
    let behind_go = behind_go as usize;
    let inputs = part.inputs.len();
    inputs <= behind_go && behind_go - inputs == part.outputs.len()
}

/// The component cell of which a port is one.
pub fn callee_of(design: &Design, number: usize, port: PortRef) -> Option<Callee<'_>>
    requires within { number < length design.now.components.items }
    ensures value { option_map plain_callee result ≡
        callees.callee_of (component_of (plain_design design.now) number) port }
{
    match port {
        PortRef::Cell(cell, _) => match stands_at(design, number, cell) {
            At::Part(part) => Some(Callee { cell, part }),
            At::Nothing | At::Primitive(_) => None,
        },
        PortRef::Input(_) | PortRef::Output(_) | PortRef::Done(_) | PortRef::Literal(_, _) => None,
    }
}

/// The cells of components that are not static whose ports the assignments of a group drive, in their order, none twice in a row.
pub fn called<'a>(
    alloc: Global,
    design: &'a Design,
    number: usize,
    assigns: &[Assign],
) -> Result<Vec<Callee<'a>>, Memory>
    requires within { number < length design.now.components.items }
    ensures value { IfOk result (λ list. map plain_callee list.items ≡
        called_of (component_of (plain_design design.now) number) (plain_assigns assigns.now)) }
{
    let mut list = Vec::new(alloc);
    let mut last = None;
    for assign in assigns {
        last = add_callee(
            &mut list,
            last,
            callable(callee_of(design, number, assign.target)),
        )?;
    }
    Ok(list)
}

/// A component cell that a group calls: one of a component that is not static.
fn callable(callee: Option<Callee<'_>>) -> Option<Callee<'_>>
    ensures value { option_map plain_callee result ≡ callees.callable (option_map plain_callee callee.entry) }
{
    let callee = callee?;
    match callee.part.latency {
        None => Some(callee),
        Some(_) => None,
    }
}

/// Adds a cell that is not the last one, and gives the one that is last now.
fn add_callee<'a>(
    list: &mut Vec<Callee<'a>>,
    last: Option<u32>,
    callee: Option<Callee<'a>>,
) -> Result<Option<u32>, Memory>
    ensures value { (rest : List PlainCallee) →
        IfOk result (λ now_last. map plain_callee list.new.items ++ apart now_last rest ≡
        map plain_callee list.old.items
        ++ apart last (callees.and_then (option_map plain_callee callee.entry) rest)) }
{
    let Some(callee) = callee else {
        return Ok(last);
    };
    if is_cell(last, callee.cell) {
        return Ok(last);
    }
    list.push(callee)?;
    Ok(Some(callee.cell))
}

/// Whether this is the last cell.
fn is_cell(last: Option<u32>, cell: u32) -> bool
    ensures value { result ≡ callees.is_cell last cell }
{
    match last {
        Some(last) => last == cell,
        None => false,
    }
}
