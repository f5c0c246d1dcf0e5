//! The size of a design with its static components written out.

ghost use Rattle.std.specs.Prelude.{◌≡◌, ◌+◌, IfOk};
ghost use Rattle.cx_rules.specs.Counts as counts;
ghost use Rattle.cx_design.specs.PlainForms.{plain_component};
ghost use Rattle.cx_design.specs.PlainDesigns.{plain_design};
ghost use Rattle.cx_design_sizes.specs.Capped.{capped};
ghost use Rattle.cx_limits.specs.Rows.{AreRows};

use crate::rows::Row;
use crate::table::table;
use cx_design::{Component, Design};
use cx_text::Memory;
use std::alloc::Global;

/// What a component adds to the size of its design: nothing where it is static, since it counts where it is invoked.
fn part_size(part: &Component, row: Row) -> u64
    ensures { result ≡ counts.unless_static (plain_component part.now).latency (capped (row.size + 1)) }
{
    match part.latency {
        Some(_) => 0,
        None => row.size.saturating_add(1),
    }
}

/// The sizes of the components that are not static, and one more for each. The sum stops at 2^64 - 1.
fn parts_size(design: &Design, rows: &[Row]) -> u64
    requires rows { AreRows (plain_design design.now) rows.now }
    ensures { result ≡ capped (counts.counted_design_size (plain_design design.now)) }
{
    let components = design.components.as_slice();
    let mut size = 0u64;
    for number in 0..components.len() {
        size = size.saturating_add(part_size(&components[number], rows[number]));
    }
    size
}

/// The size of a design with its static components written out, as the limit on what is compiled counts it. It answers `Memory`
/// also where the size is 2^64 - 1 or more.
pub fn counted_design_size(alloc: Global, design: &Design) -> Result<u64, Memory>
    ensures value { IfOk result (λ size. size ≡ counts.counted_design_size (plain_design design.now)) }
{
    let rows = table(alloc, design)?;
    let size = parts_size(design, rows.as_slice());
    if size == u64::MAX {
        return Err(Memory);
    }
    Ok(size)
}
