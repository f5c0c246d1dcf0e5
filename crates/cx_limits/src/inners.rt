//! What a cell of a static component counts in the component that has it.

ghost use Rattle.std.specs.Prelude.{◌≡◌, map, option_map};
ghost use Rattle.cx_rules.specs.Invokes.{invoke_at};
ghost use Rattle.cx_rules.specs.Counts as counts;
ghost use Rattle.cx_design.specs.PlainForms.{plain_component, plain_invoke};
ghost use Rattle.cx_design_sizes.specs.Capped.{capped};
ghost use Rattle.cx_limits.specs.Inners.{cell_counts};
ghost use Rattle.cx_limits.specs.Rows.{plain_inner, plain_inners};

use cx_design::{Component, StaticInvoke};

/// A static component as a component with a cell of it counts it: its cells with a wire for each output, its continuous assignments
/// with their guards, the groups that an invoke copies, these with what is in them, the statements of its control, and the
/// occurrences in it. All stop at 2^64 - 1.
#[derive(Clone, Copy)]
pub struct Inner {
    pub cells: u64,
    pub always: u64,
    pub groups: u64,
    pub copies: u64,
    pub statements: u64,
    pub occurrences: u64,
}

/// Nothing.
pub const NO_INNER: Inner = Inner {
    cells: 0,
    always: 0,
    groups: 0,
    copies: 0,
    statements: 0,
    occurrences: 0,
};

/// What stands at a cell; None where it is not of a static component.
pub fn inner_at(below: &[Option<Inner>], cell: u32) -> Option<Inner>
    ensures { option_map plain_inner result ≡ counts.inner_at (plain_inners below.now) cell }
{
    match below.get(cell as usize) {
        Some(inner) => *inner,
        None => None,
    }
}

fn cell_count_of(inner: Option<Inner>) -> u64
    ensures { result ≡ counts.cell_count_of (option_map plain_inner inner) }
{
    match inner {
        Some(inner) => inner.cells,
        None => 1,
    }
}

/// The cells of a component of which each has such an entry, with those of its static components.
pub fn cells_in(below: &[Option<Inner>]) -> u64
    ensures { result ≡ capped (cell_counts (plain_inners below.now)) }
{
    let mut count = 0u64;
    for inner in below {
        count = count.saturating_add(cell_count_of(*inner));
    }
    count
}

fn always_count_of(inner: Option<Inner>) -> u64
    ensures { result ≡ counts.always_count_of (option_map plain_inner inner) }
{
    match inner {
        Some(inner) => inner.always,
        None => 0,
    }
}

/// The continuous assignments of static components, once for each cell.
pub fn always_in(below: &[Option<Inner>]) -> u64
    ensures { result ≡ capped (counts.always_in (plain_inners below.now)) }
{
    let mut count = 0u64;
    for inner in below {
        count = count.saturating_add(always_count_of(*inner));
    }
    count
}

fn group_count_of(inner: Option<Inner>) -> u64
    ensures { result ≡ counts.group_count_of (option_map plain_inner inner) }
{
    match inner {
        Some(inner) => inner.groups,
        None => 0,
    }
}

/// The groups that invokes copy.
pub fn groups_for(below: &[Option<Inner>], invokes: &[StaticInvoke]) -> u64
    ensures { result ≡ capped (counts.groups_for (plain_inners below.now) (map plain_invoke invokes.now)) }
{
    let mut count = 0u64;
    for invoke in invokes {
        count = count.saturating_add(group_count_of(inner_at(below, invoke.cell)));
    }
    count
}

fn copy_count_of(inner: Option<Inner>) -> u64
    ensures { result ≡ counts.copy_count_of (option_map plain_inner inner) }
{
    match inner {
        Some(inner) => inner.copies,
        None => 0,
    }
}

/// The groups that invokes copy, with what is in them.
pub fn copies_for(below: &[Option<Inner>], invokes: &[StaticInvoke]) -> u64
    ensures { result ≡ capped (counts.copies_for (plain_inners below.now) (map plain_invoke invokes.now)) }
{
    let mut count = 0u64;
    for invoke in invokes {
        count = count.saturating_add(copy_count_of(inner_at(below, invoke.cell)));
    }
    count
}

/// What stands at the cell of an invoke.
pub fn inner_for(part: &Component, below: &[Option<Inner>], number: u32) -> Option<Inner>
    ensures { option_map plain_inner result ≡
        counts.inner_for (plain_inners below.now) (invoke_at (plain_component part.now) number) }
{
    match part.invokes.as_slice().get(number as usize) {
        Some(invoke) => inner_at(below, invoke.cell),
        None => None,
    }
}

/// 1 where an invoke captures.
pub fn captures_in(part: &Component, number: u32) -> u64
    ensures { result ≡ counts.captures_in (invoke_at (plain_component part.now) number) }
{
    match part.invokes.as_slice().get(number as usize) {
        Some(invoke) => u64::from(invoke.captures.is_some()),
        None => 0,
    }
}
