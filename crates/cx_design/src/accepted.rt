//! Designs that are accepted.

ghost use Rattle.std.specs.Prelude.{◌≡◌, All, IfOk};
ghost use Rattle.cx_meaning.specs.Designs.{component_at};
ghost use Rattle.cx_design.specs.Narrow.{IsNarrow};
ghost use Rattle.cx_design.specs.PlainForms.{plain_cell, plain_component};
ghost use Rattle.cx_text.specs.Loading.{plain_rows};
ghost use Rattle.cx_rules.specs.Externals as externals;
ghost use Rattle.cx_rules.specs.Accepted.{IsAccepted};
ghost use Rattle.cx_design.specs.PlainDesigns.{plain_design};

use crate::components::Component;
use crate::designs::Design;
use crate::rows;
use cx_text::{Memory, MemoryRow};
use std::alloc::Global;
use std::marker::Model;

/// An accepted design: it breaks no rule. Contracts see it as the design.
#[derive(Drop)]
pub struct Checked {
    design: Design,
}

impl Model for Checked {
    ghost use Rattle.cx_design.specs.declared.designs.Design.{Design};
    ghost use Rattle.cx_rules.specs.Accepted.{IsAccepted};
    ghost use Rattle.cx_design.specs.PlainDesigns.{plain_design};
    ghost use Rattle.std.specs.Coded.{codes};
    ghost use Rattle.cx_design.specs.contracts.designs.Design as designs;

    ghost Value = { Design };

    ghost coded = { Prim.hlevel (codes, designs.the_row.coded) };

    ghost view = { λ c. c.design };

    ghost invariant = { λ c. IsAccepted (plain_design c.design) };
}

impl Checked {
    /// Keeps a design that is accepted.
    pub fn new(design: Design) -> Checked
        requires accepted { IsAccepted (plain_design design) }
        ensures value { result ≡ design }
    {
        Checked { design }
    }

    /// Lends the design.
    pub fn design(&self) -> &Design
        ensures value { result.now ≡ self.now }
        ensures accepted { IsAccepted (plain_design result.now) }
    {
        &self.design
    }

    /// The external memories of `main`, in cell order.
    pub fn rows(&self, alloc: Global) -> Result<Vec<MemoryRow>, Memory>
        ensures value { IfOk result (λ rows. plain_rows rows.items ≡ externals.external_rows (plain_design self.now)) }
    {
        rows::external_rows(alloc, main_of(&self.design).cells.as_slice())
    }
}

/// The component named `main`.
fn main_of(design: &Design) -> &Component
    ensures value { plain_component result.now ≡ component_at (plain_design design.now) design.now.main }
    ensures narrow { All (λ cell. IsNarrow (plain_cell cell)) result.now.cells.items }
{
    let components = design.components.as_slice();
    &components[design.main as usize]
}
