//! Which cells may be shared.

ghost use Rattle.std.specs.Prelude.{◌≡◌, ◌&&◌, not, IfOk, length, map};
ghost use Rattle.cx_meaning.specs.Control.{assigns_drive};
ghost use Rattle.cx_design.specs.PlainForms.{plain_assigns, plain_component, plain_group, plain_kind};
ghost use Rattle.cx_sharing.specs.Uses.{is_candidate, is_combinational as is_combinational_kind};
ghost use Rattle.cx_share.specs.Marks.{Adds, AreMarks, any_of};

use crate::kinds::is_combinational;
use crate::marks::{Marks, add_port};
use crate::using::add_assigns;
use cx_design::{Assign, Cell, Component, Group};
use cx_text::Memory;
use std::alloc::Global;

/// The combinational cells of which a group drives a port and of which no continuous assignment names one.
pub(crate) fn candidates(alloc: Global, part: &Component) -> Result<Vec<bool>, Memory>
    ensures length { IfOk result (λ marks. length marks.items ≡ length part.now.cells.items) }
    ensures value { IfOk result (λ marks. AreMarks marks.items (is_candidate (plain_component part.now))) }
{
    let mut driven = Marks::new(alloc, part.cells.len())?;
    add_driven(&mut driven, part.groups.as_slice());
    let mut named = Marks::new(alloc, part.cells.len())?;
    add_assigns(alloc, &mut named, part.always.as_slice())?;
    let mut marks = Vec::with_capacity(alloc, part.cells.len())?;
    let cells = part.cells.as_slice();
    for (number, cell) in cells.iter().enumerate() {
        let is_driven = driven.has(number);
        let is_named = named.has(number);
        marks.push(is_free(cell, is_driven, is_named))?;
    }
    Ok(marks)
}

/// Whether a cell is a candidate, where a group drives it or not, and a continuous assignment names it or not.
fn is_free(cell: &Cell, is_driven: bool, is_named: bool) -> bool
    ensures value { result ≡ (is_combinational_kind (plain_kind cell.now.kind) && is_driven && not is_named) }
{
    is_combinational(&cell.kind) && (is_driven && !is_named)
}

/// Adds the cells of which groups drive a port.
fn add_driven(marks: &mut Marks, groups: &[Group])
    ensures value { Adds marks.old marks.new (any_of (λ g. assigns_drive g.assigns) (map plain_group groups.now)) }
{
    for group in groups {
        add_targets(marks, group.assigns.as_slice());
    }
}

/// Adds the cells of which assignments drive a port.
fn add_targets(marks: &mut Marks, assigns: &[Assign])
    ensures value { Adds marks.old marks.new (assigns_drive (plain_assigns assigns.now)) }
{
    for assign in assigns {
        add_port(marks, assign.target);
    }
}
