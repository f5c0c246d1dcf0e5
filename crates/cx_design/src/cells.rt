//! Cells of a component.

use cx_cells::Primitive;
use cx_text::{Name, Place};

/// What a cell is of.
#[derive(Debug, Drop)]
pub enum CellKind {
    Prim(Primitive),
    /// A component, by its number in the design.
    Part(u32),
}

/// A cell. One that is external is a memory that is loaded and dumped.
#[derive(Debug, Drop)]
pub struct Cell {
    pub name: Name,
    pub kind: CellKind,
    pub external: bool,
    pub place: Place,
}
