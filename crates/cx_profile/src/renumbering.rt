//! The done of a component's cell stands behind the outputs that the component gains.

ghost use Rattle.std.specs.Prelude.{◌≡◌, IfOk, length, map};
ghost use Rattle.cx_design.specs.PlainForms.{plain_cell, plain_component, plain_kind};
ghost use Rattle.cx_design.specs.PlainDesigns.{plain_design};
ghost use Rattle.cx_profiling.specs.Counters as counters;
ghost use Rattle.cx_profile.specs.Renumbering as renumbering;

use cx_design::{Cell, CellKind, Component, Design, PortRef};
use cx_design_copies::{PortMoves, number, sum};
use cx_text::Memory;
use std::alloc::Global;

/// A port of a cell whose number changes, and its new number. Where they are equal, nothing changes.
#[derive(Clone, Copy, Debug, PartialEq, Eq)]
pub(crate) struct NewDone {
    pub old: u32,
    pub new: u32,
}

/// Gives each port the one with its new number, by the new numbers of the ports of cells.
#[derive(Clone, Copy)]
pub(crate) struct NewPorts<'a> {
    pub dones: &'a [NewDone],
}

impl PortMoves for NewPorts<'_> {
    ghost use Rattle.cx_profile.specs.Renumbering.{renumber};

    ghost moving = { λ new. renumber new.dones.now };

    fn port(&self, port: PortRef) -> Result<PortRef, Memory> {
        Ok(renumbered(self.dones, port))
    }
}

/// Of each cell of a component the number of its done, and the new one. A primitive's ports keep their numbers.
pub(crate) fn renumbered_cells(
    alloc: Global,
    design: &Design,
    gained: &[u32],
    cells: &[Cell],
) -> Result<Vec<NewDone>, Memory>
    requires there { renumbering.AreThere (length design.now.components.items) (map plain_cell cells.now) }
    requires gained { renumbering.AreGained (plain_design design.now) gained.now }
    ensures value { IfOk result
        (λ all. all.items ≡ renumbering.dones_of (plain_design design.now) (map plain_cell cells.now)) }
{
    let mut all = Vec::with_capacity(alloc, cells.len())?;
    for cell in cells {
        all.push(renumbered_kind(design, gained, &cell.kind)?)?;
    }
    Ok(all)
}

/// The number of a cell's done, and the new one.
fn renumbered_kind(design: &Design, gained: &[u32], kind: &CellKind) -> Result<NewDone, Memory>
    requires there { renumbering.IsThereKind (length design.now.components.items) (plain_kind kind.now) }
    requires gained { renumbering.AreGained (plain_design design.now) gained.now }
    ensures value { IfOk result (λ r. r ≡ renumbering.done_of (plain_design design.now) (plain_kind kind.now)) }
{
    match kind {
        CellKind::Prim(_) => Ok(NewDone { old: 0, new: 0 }),
        CellKind::Part(part) => {
            let number = *part as usize;
            let old = first_gained(&design.components.as_slice()[number])?;
            let new = sum(old, gained[number])?;
            Ok(NewDone { old, new })
        }
    }
}

/// The number of the first output that a component gains, among the ports of its cells: behind `go`, the inputs and the outputs.
pub(crate) fn first_gained(part: &Component) -> Result<u32, Memory>
    ensures value { IfOk result (λ first. first ≡ counters.first_gained (plain_component part.now)) }
{
    let inputs = number(part.inputs.len())?;
    let outputs = number(part.outputs.len())?;
    sum(sum(inputs, outputs)?, 1)
}

/// A port with its new number.
fn renumbered(cells: &[NewDone], port: PortRef) -> PortRef
    ensures value { result ≡ renumbering.renumber cells.now port }
{
    match port {
        PortRef::Cell(cell, number) => match cells.get(cell as usize) {
            Some(done) if done.old == number => PortRef::Cell(cell, done.new),
            _ => PortRef::Cell(cell, number),
        },
        PortRef::Input(_) | PortRef::Output(_) | PortRef::Done(_) | PortRef::Literal(_, _) => port,
    }
}
