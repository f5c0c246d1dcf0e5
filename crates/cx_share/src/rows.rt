//! What is told of sharing.

ghost use Rattle.std.specs.Prelude.{◌≡◌, ◌<◌, ◌++◌, IfOk, OnOk, flat_map, length, map};
ghost use Rattle.cx_design.specs.PlainForms.{plain_component};
ghost use Rattle.cx_rules.specs.Ports as ports;
ghost use Rattle.cx_sharing.specs.SharedRows as shared;
ghost use Rattle.cx_share.specs.Givings.{AllKeepers, AreKeepers};
ghost use Rattle.cx_share.specs.Marks.{lists_of};

use crate::naming::cell_name;
use cx_copies::copied_name;
use cx_design::Component;
use cx_sharing::SharedRow;
use cx_text::Memory;
use std::alloc::Global;

/// The rows of all components, in their order.
pub(crate) fn all_rows(
    alloc: Global,
    parts: &[Component],
    keepers: &[Vec<usize>],
) -> Result<Vec<SharedRow>, Memory>
    requires keepers { AllKeepers (map plain_component parts.now) (lists_of keepers.now) }
    ensures value { IfOk result (λ rows. rows.items ≡ flat_map shared.rows_of (map plain_component parts.now)) }
{
    let mut rows = Vec::new(alloc);
    for (number, part) in parts.iter().enumerate() {
        add_rows(alloc, &mut rows, part, keepers[number].as_slice())?;
    }
    Ok(rows)
}

/// Adds a row for each given cell of a component, in cell order.
fn add_rows(
    alloc: Global,
    rows: &mut Vec<SharedRow>,
    part: &Component,
    keepers: &[usize],
) -> Result<(), Memory>
    requires keepers { AreKeepers (plain_component part.now) keepers.now }
    ensures value { OnOk result (rows.new.items ≡ rows.old.items ++ shared.rows_of (plain_component part.now)) }
{
    for number in 0..part.cells.len() {
        let keeper = keepers[number];
        if keeper == number {
            continue;
        }
        rows.push(row_of(alloc, part, number, keeper)?)?;
    }
    Ok(())
}

/// The row of a given cell.
fn row_of(alloc: Global, part: &Component, cell: usize, keeper: usize) -> Result<SharedRow, Memory>
    requires cell { cell < length part.now.cells.items }
    requires keeper { keeper < length part.now.cells.items }
    ensures component { IfOk result (λ row. row.component ≡ part.now.name) }
    ensures cell { IfOk result (λ row. row.cell ≡ ports.cell_name (plain_component part.now).cells cell) }
    ensures kept { IfOk result (λ row. row.kept ≡ ports.cell_name (plain_component part.now).cells keeper) }
{
    let component = copied_name(alloc, &part.name)?;
    let kept = cell_name(alloc, part, keeper)?;
    let cell = cell_name(alloc, part, cell)?;
    Ok(SharedRow {
        component,
        cell,
        kept,
    })
}
