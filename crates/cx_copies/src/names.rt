//! Names of cells in place of others.

ghost use Rattle.std.specs.Prelude.{◌≡◌, ℕ, List, IfOk};

use crate::parts::copied_name;
use cx_text::{Memory, Name};
use std::alloc::Global;

/// Gives each name of a cell the name that stands in its place.
pub trait CellNames {
    ghost renaming: { Self → List ℕ → List ℕ };

    /// The name in place of a cell's name.
    fn name(&self, alloc: Global, cell: &Name) -> Result<Name, Memory>
        ensures value { IfOk result (λ name. name ≡ renaming self.now cell.now) };
}

/// Each cell keeps its name.
pub struct SameNames;

impl CellNames for SameNames {
    ghost renaming = { λ names cell. cell };

    fn name(&self, alloc: Global, cell: &Name) -> Result<Name, Memory> {
        copied_name(alloc, cell)
    }
}
