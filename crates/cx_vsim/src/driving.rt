//! The drivers of all nets.

ghost use Rattle.std.specs.Prelude.{◌≡◌, ◌<◌, IfOk, length};
ghost use Rattle.cx_vnets.specs.Numbers.{nets_before};
ghost use Rattle.cx_velab.specs.Driven.{KeepsRight, IsWhole};
ghost use Rattle.cx_velab.specs.Covered.{IsDriven};
ghost use Rattle.cx_vsim.specs.Trees.{CanBeBuilt};
ghost use Rattle.cx_vsim.specs.Tables.{tree_of, TableStands};
ghost use Rattle.cx_vsim.specs.Passes.{RowTied, RowGiven};

use crate::tables::Table;
use cx_text::Memory;
use cx_velab::{drivers_are_right, give_nets, tie_ports};
use cx_vnets::Driver;
use std::alloc::Global;

/// Ties the ports of an instance to nets of the instance that holds it.
fn tie_row(drivers: &mut [Driver], table: &Table<'_>, i: usize)
    requires within { i < length table.now.rows.items }
    requires inner { i ≡ 0 → ⊥ }
    requires table { TableStands table.now }
    requires tree { CanBeBuilt (tree_of table.now) }
    requires whole { IsWhole (tree_of table.now) drivers.old }
    ensures kept { KeepsRight (tree_of table.now) table.now.codes.items drivers.old drivers.new }
    ensures whole { IsWhole (tree_of table.now) drivers.new }
    ensures tied { RowTied (tree_of table.now) table.now.codes.items drivers.new i }
{
    let row = &table.rows[i];
    let around = table.part(row.holder);
    let outer = table.place(row.holder);
    let inner = table.place(i);
    tie_ports(
        drivers,
        &around.numbers,
        inner.nets,
        outer.nets,
        &row.module.ports,
        &row.instance.conns,
    );
    drivers_are_right();
}

/// Lets the codes of an instance's assigns drive their nets.
fn give_row(drivers: &mut [Driver], table: &Table<'_>, i: usize)
    requires within { i < length table.now.rows.items }
    requires table { TableStands table.now }
    requires tree { CanBeBuilt (tree_of table.now) }
    requires whole { IsWhole (tree_of table.now) drivers.old }
    ensures kept { KeepsRight (tree_of table.now) table.now.codes.items drivers.old drivers.new }
    ensures whole { IsWhole (tree_of table.now) drivers.new }
    ensures given { RowGiven (tree_of table.now) table.now.codes.items drivers.new i }
{
    let row = &table.rows[i];
    let part = table.part(i);
    let place = table.place(i);
    give_nets(
        drivers,
        &part.numbers,
        place,
        part.first,
        &row.module.assigns,
    );
    drivers_are_right();
}

/// Writes the drivers that an instance gives.
fn drive_row(drivers: &mut [Driver], table: &Table<'_>, i: usize)
    requires within { i < length table.now.rows.items }
    requires table { TableStands table.now }
    requires tree { CanBeBuilt (tree_of table.now) }
    requires whole { IsWhole (tree_of table.now) drivers.old }
    ensures kept { KeepsRight (tree_of table.now) table.now.codes.items drivers.old drivers.new }
    ensures whole { IsWhole (tree_of table.now) drivers.new }
    ensures tied { RowTied (tree_of table.now) table.now.codes.items drivers.new i }
    ensures given { RowGiven (tree_of table.now) table.now.codes.items drivers.new i }
{
    if i > 0 {
        tie_row(drivers, table, i);
    }
    give_row(drivers, table, i);
}

/// The drivers of all nets, of which there are so many.
pub(crate) fn drivers(alloc: Global, table: &Table<'_>, count: usize) -> Result<Vec<Driver>, Memory>
    requires table { TableStands table.now }
    requires tree { CanBeBuilt (tree_of table.now) }
    requires count { count ≡ nets_before (tree_of table.now) (length (tree_of table.now)) }
    ensures { IfOk result (λ ds. IsDriven (tree_of table.now) table.now.codes.items ds.items) }
{
    let mut drivers = vec![in alloc; Driver::Held; count]?;
    for i in 0..table.rows.len() {
        drive_row(&mut drivers, table, i);
    }
    Ok(drivers)
}
