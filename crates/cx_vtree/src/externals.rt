//! The memories that data files speak of.

ghost use Rattle.std.specs.Prelude.{◌≡◌, IfOk};
ghost use Rattle.cx_text.specs.Loading.{plain_row};
ghost use Rattle.cx_vtree.specs.PlainParts.{plain_external, row_of};

use cx_text::{Memory, MemoryRow, Name};
use std::alloc::Global;

/// A memory that a data file fills and a dump shows: the array of the module of an instance of `main`.
#[derive(Drop)]
pub struct External {
    pub name: Name,
    pub instance: Name,
    /// The width of a word in bits.
    pub width: u8,
    /// The sizes of the dimensions, outermost first.
    pub sizes: Vec<u64>,
}

impl External {
    /// The memory as data files know it.
    pub(crate) fn row(&self, alloc: Global) -> Result<MemoryRow, Memory>
        ensures { IfOk result (λ row. plain_row row ≡ row_of (plain_external self.now)) }
    {
        Ok(MemoryRow {
            name: Name::from_bytes(alloc, self.name.bytes())?,
            width: self.width,
            sizes: self.sizes.clone()?,
        })
    }
}
