//! Which groups are counted.

ghost use Rattle.std.specs.Prelude.{◌≡◌, IfOk, map};
ghost use Rattle.cx_design.specs.PlainForms.{plain_assigns, plain_cell, plain_group};
ghost use Rattle.cx_profile.specs.Counted as specs;

use cx_design::{Assign, Cell, CellKind, Group, GroupKind, PortRef};
use cx_design_copies::sum;
use cx_text::Memory;

/// Whether a group is counted: it is of the source, and static, or plain and calls nothing. The group of an `invoke` has no
/// name.
pub(crate) fn is_counted(cells: &[Cell], group: &Group) -> bool
    ensures value { result ≡ specs.counts_group (map plain_cell cells.now) (plain_group group.now) }
{
    !group.name.bytes().is_empty() && is_counted_kind(cells, group)
}

/// The same by the kind of the group.
fn is_counted_kind(cells: &[Cell], group: &Group) -> bool
    ensures value { result ≡
        specs.counts_kind (map plain_cell cells.now) (plain_group group.now).assigns group.now.kind }
{
    match group.kind {
        GroupKind::Plain => !calls(cells, &group.assigns),
        GroupKind::Comb => false,
        GroupKind::Timed(_) => true,
    }
}

/// Whether an assignment drives a port of a component's cell.
fn calls(cells: &[Cell], assigns: &[Assign]) -> bool
    ensures value { result ≡ specs.calls (map plain_cell cells.now) (plain_assigns assigns.now) }
{
    for assign in assigns {
        if is_part_port(cells, assign.target) {
            return true;
        }
    }
    false
}

/// Whether a port is of a component's cell.
fn is_part_port(cells: &[Cell], port: PortRef) -> bool
    ensures value { result ≡ specs.is_part_port (map plain_cell cells.now) port }
{
    match port {
        PortRef::Cell(cell, _) => match cells.get(cell as usize) {
            Some(cell) => matches!(cell.kind, CellKind::Part(_)),
            None => false,
        },
        PortRef::Input(_) | PortRef::Output(_) | PortRef::Done(_) | PortRef::Literal(_, _) => false,
    }
}

/// How many groups are counted.
pub(crate) fn counted(cells: &[Cell], groups: &[Group]) -> Result<u32, Memory>
    ensures value { IfOk result
        (λ count. count ≡ specs.counted_among (map plain_cell cells.now) (map plain_group groups.now)) }
{
    let mut count = 0u32;
    for group in groups {
        if is_counted(cells, group) {
            count = sum(count, 1)?;
        }
    }
    Ok(count)
}
