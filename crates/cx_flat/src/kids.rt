//! The flat components of static children.

ghost use Rattle.std.specs.Prelude.{◌≡◌, map, option_map};
ghost use Rattle.cx_design.specs.PlainForms.{plain_cell, plain_component, plain_kind};
ghost use Rattle.cx_flattening.specs.Flattened.{kid_at};
ghost use Rattle.cx_flat.specs.Tables.{kid_by, kids_of, plain_table};

use cx_design::{Cell, CellKind, Component};

/// The flat component of a static child, by the kind of its cell. The table has it by the number of the component.
pub(crate) fn kid<'a>(table: &'a [Option<Component>], kind: &CellKind) -> Option<&'a Component>
    ensures value { option_map (λ kid. plain_component kid.now) result ≡
        kid_by (plain_table table.now) (plain_kind kind.now) }
{
    match kind {
        CellKind::Prim(_) => None,
        CellKind::Part(number) => kid_of(table, *number),
    }
}

/// What a table has at a number.
fn kid_of(table: &[Option<Component>], number: u32) -> Option<&Component>
    ensures value { option_map (λ kid. plain_component kid.now) result ≡ kid_at (plain_table table.now) number }
{
    match table.get(number as usize) {
        Some(slot) => slot.as_ref(),
        None => None,
    }
}

/// The flat component of a static child, by the number of its cell.
pub(crate) fn kid_at_cell<'a>(
    table: &'a [Option<Component>],
    cells: &[Cell],
    number: u32,
) -> Option<&'a Component>
    ensures value { option_map (λ kid. plain_component kid.now) result ≡
        kid_at (kids_of (plain_table table.now) (map plain_cell cells.now)) number }
{
    match cells.get(number as usize) {
        Some(cell) => kid(table, &cell.kind),
        None => None,
    }
}
