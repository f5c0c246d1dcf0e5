//! The machine of a source, and what a run of it begins with.

ghost use Rattle.std.specs.Prelude.{◌≡◌, IfOk, length};
ghost use Rattle.cx_vtree.specs.InstanceTree.{instances_of};
ghost use Rattle.cx_vtree.specs.PlainSources.{plain_source};
ghost use Rattle.cx_vnets.specs.Search.{SameWidths};
ghost use Rattle.cx_vsim.specs.Trees.{CanBeBuilt};
ghost use Rattle.cx_vsim.specs.Tables.{tree_of, TableStands};
ghost use Rattle.cx_vsim.specs.Machines.{BuiltStands};

use crate::driving::drivers;
use crate::facts::trees_can_be_built;
use crate::ordering::order;
use crate::stepping::{all_steps, resets};
use crate::tables::{Table, listed, root};
use cx_text::Memory;
use cx_velab::{driven_nets_stand, rows, stored, tables_fit, zeros_stand};
use cx_vnets::{Bench, Machine, NetMark, Nets, Stored, readers_of};
use cx_vtree::Source;
use std::alloc::Global;

/// A machine with room for a cycle, and zeros to begin with.
#[derive(Drop)]
pub struct Built {
    pub machine: Machine,
    pub bench: Bench,
    pub stored: Stored,
}

/// Room for one cycle.
fn bench(alloc: Global, stored: &Stored, stores: usize) -> Result<Bench, Memory>
    ensures marks { IfOk result (λ b. length b.marks.items ≡ length stored.now.nets.items) }
    ensures values { IfOk result (λ b. SameWidths b.values.items stored.now.nets.items) }
    ensures stack { IfOk result (λ b. length b.stack.items ≡ length stored.now.nets.items) }
    ensures writes { IfOk result (λ b. length b.writes.items ≡ stores) }
    ensures stale { IfOk result (λ b. length b.stale.items ≡ length stored.now.nets.items) }
{
    let count = stored.nets.len();
    let marks = vec![in alloc; NetMark::Unseen; count]?;
    let values = Vec::from_slice(alloc, &stored.nets)?;
    let stale = vec![in alloc; 1; count]?;
    let nonzero = vec![in alloc; 1; count]?;
    let stack = vec![in alloc; 0; count]?;
    let writes = vec![in alloc; None; stores]?;
    Ok(Bench {
        marks,
        values,
        stale,
        nonzero,
        stack,
        writes,
    })
}

/// The machine of the instances of a table.
fn build(alloc: Global, table: Table<'_>) -> Result<Built, Memory>
    requires table { TableStands table }
    requires tree { CanBeBuilt (tree_of table) }
    ensures { IfOk result (BuiltStands (tree_of table.entry)) }
{
    let stored = stored(alloc, &table.rows)?;
    zeros_stand();
    let drivers = drivers(alloc, &table, stored.nets.len())?;
    let resets = resets(alloc, &table)?;
    let steps = all_steps(alloc, &table)?;
    let bench = bench(alloc, &stored, steps.stores.len())?;
    driven_nets_stand();
    tables_fit();
    let nets = Nets {
        drivers,
        codes: table.codes,
    };
    let order = order(alloc, &nets)?;
    let readers = readers_of(alloc, &nets, &order, stored.arrays.len())?;
    let machine = Machine {
        nets,
        order,
        readers,
        resets,
        sets: steps.sets,
        stores: steps.stores,
        reset: 1,
        go: 2,
        done: 3,
    };
    Ok(Built {
        machine,
        bench,
        stored,
    })
}

/// The machine of a source, with zeros to begin with.
pub fn machine(alloc: Global, source: &Source) -> Result<Built, Memory>
    ensures { IfOk result (BuiltStands (instances_of (plain_source source.now))) }
{
    trees_can_be_built();
    let main = root(alloc)?;
    let rows = rows(alloc, source.modules(), &main)?;
    let table = listed(alloc, rows)?;
    build(alloc, table)
}
