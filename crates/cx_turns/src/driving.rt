//! The cells of which a group drives a port.

ghost use Rattle.std.specs.Prelude.{◌≡◌, ℕ, IfOk};
ghost use Rattle.cx_meaning.specs.Control.{assigns_drive};
ghost use Rattle.cx_design.specs.PlainForms.{plain_assigns};
ghost use Rattle.cx_eval_cycle.specs.Passes.{IsAscending, listed_in};

use cx_design::{Assign, PortRef};
use cx_text::Memory;
use std::alloc::Global;
use std::collections::BTreeSet;

/// The cells of which assignments drive a port, ascending, each once.
pub(crate) fn driven_cells(alloc: Global, assigns: &[Assign]) -> Result<Vec<u32>, Memory>
    ensures cells { IfOk result
        (λ list. (c : ℕ) → listed_in list.items c ≡ assigns_drive (plain_assigns assigns.now) c) }
    ensures ascending { IfOk result (λ list. IsAscending list.items) }
{
    let mut found = BTreeSet::new(alloc);
    for assign in assigns {
        if let PortRef::Cell(cell, _) = assign.target {
            found.insert(cell)?;
        }
    }
    Ok(found.iter().copied().collect(alloc)?)
}
