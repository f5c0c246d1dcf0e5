//! Whether ports rest on state.

ghost use Rattle.std.specs.Prelude.{◌≡◌, ◌<◌, ℕ, true, false, Bool, Some, IfOk, length, slice_get};
ghost use Rattle.cx_rules.specs.Ports.{component_of};
ghost use Rattle.cx_meaning.specs.Instances.{Instance};
ghost use Rattle.cx_design.specs.PlainDesigns.{plain_design};
ghost use Rattle.cx_shape_state.specs.Joining.{IsWithin};
ghost use Rattle.cx_shape_state.specs.Resting.{rests_at};
ghost use Rattle.cx_shape_state.specs.Tells.{AreMarks, Tells};
ghost use Rattle.cx_shape_state.specs.Waits as waits;

use crate::basis::{Basis, basis_of};
use crate::waiting::waits;
use cx_design::{Design, PortRef};
use cx_graphs::grounded;
use cx_text::Memory;
use std::alloc::Global;

/// Which ports of a component rest on state.
#[derive(Debug, Drop)]
pub struct Resting {
    /// For each cell whether its combinational outputs rest on state.
    cells: Vec<bool>,
    /// For each cell whether they rest on state and lead back to no signature input.
    inner_cells: Vec<bool>,
}

impl Resting {
    /// Looks at a component of a design, by its number.
    pub fn of(alloc: Global, design: &Design, number: usize) -> Result<Resting, Memory>
        requires within { number < length design.now.components.items }
        ensures tells { IfOk result (Tells (component_of (plain_design design.now) number)) }
    {
        Ok(Resting {
            cells: marks(alloc, design, number, true)?,
            inner_cells: marks(alloc, design, number, false)?,
        })
    }

    /// Whether a port of the component rests on state.
    pub fn rests(&self, design: &Design, number: usize, port: PortRef) -> bool
        requires within { number < length design.now.components.items }
        requires tells { Tells (component_of (plain_design design.now) number) self.now }
        ensures value { result ≡ rests_at (component_of (plain_design design.now) number) true port }
    {
        rests_by(self.cells.as_slice(), basis_of(design, number, true, port))
    }

    /// Whether a port of the component rests on state and leads back to no signature input.
    pub fn rests_inside(&self, design: &Design, number: usize, port: PortRef) -> bool
        requires within { number < length design.now.components.items }
        requires tells { Tells (component_of (plain_design design.now) number) self.now }
        ensures value { result ≡ rests_at (component_of (plain_design design.now) number) false port }
    {
        rests_by(
            self.inner_cells.as_slice(),
            basis_of(design, number, false, port),
        )
    }
}

/// For each cell whether its combinational outputs rest on state, where signature inputs do so or never rest.
fn marks(alloc: Global, design: &Design, number: usize, inputs: bool) -> Result<Vec<bool>, Memory>
    requires within { number < length design.now.components.items }
    ensures marks { IfOk result (λ marks. AreMarks (component_of (plain_design design.now) number) inputs marks.items) }
{
    let graph = waits(alloc, design, number, inputs)?;
    grounded(alloc, graph.as_slice())
}

fn rests_by(marks: &[bool], basis: Basis) -> bool
    requires within { IsWithin (length marks.now) basis }
    ensures value { (i : Instance) (inputs : Bool) (port : PortRef) → AreMarks i inputs marks.now →
        basis ≡ waits.basis_of i inputs port → result ≡ rests_at i inputs port }
{
    match basis {
        Basis::State => true,
        Basis::Nothing => false,
        Basis::Cell(cell) => marks[cell],
    }
}
