//! Where the cells of a component stand in its flat form.

ghost use Rattle.std.specs.Prelude.{◌≡◌, ◌+◌, IfOk, length, map, option_map};
ghost use Rattle.cx_design.specs.PlainForms.{plain_cell, plain_component};
ghost use Rattle.cx_flattening.specs.Flattened.{behind, block_size, kept};
ghost use Rattle.cx_flat.specs.Stands as definitions;
ghost use Rattle.cx_flat.specs.Tables.{kids_of, plain_table};

use crate::kids::kid;
use cx_design::{Cell, Component};
use cx_design_copies::{number, sum};
use cx_text::Memory;
use std::alloc::Global;

/// Where a cell stands.
#[derive(Clone, Copy, Debug, PartialEq, Eq)]
pub(crate) enum Stand {
    /// One that is kept, by its number.
    Kept(u32),
    /// One of a static component, in whose place its block stands.
    Inlined(Block),
}

/// The block of a static child: its cells, and behind them a wire for each of its outputs.
#[derive(Clone, Copy, Debug, PartialEq, Eq)]
pub(crate) struct Block {
    /// The number of the first of its cells.
    pub cells: u32,
    /// The number of the first of its wires.
    pub wires: u32,
    /// How many inputs the child has.
    pub inputs: u32,
}

/// The numbers of the next cell that is kept, and of the next that is not.
#[derive(Clone, Copy, Debug, PartialEq, Eq)]
struct Next {
    kept: u32,
    block: u32,
}

/// Where the cells of a component stand, in order.
pub(crate) fn stands(
    alloc: Global,
    table: &[Option<Component>],
    cells: &[Cell],
) -> Result<Vec<Stand>, Memory>
    ensures value { IfOk result (λ all. all.items ≡
        definitions.stands_of (kids_of (plain_table table.now) (map plain_cell cells.now))
        (map plain_cell cells.now)) }
{
    let mut all = Vec::with_capacity(alloc, cells.len())?;
    let mut next = Next {
        kept: 0,
        block: kept_count(table, cells)?,
    };
    for cell in cells {
        let kid = kid(table, &cell.kind);
        all.push(next_stand(next, kid)?)?;
        next = after(next, kid)?;
    }
    Ok(all)
}

/// How many cells are kept.
fn kept_count(table: &[Option<Component>], cells: &[Cell]) -> Result<u32, Memory>
    ensures value { IfOk result (λ count. count ≡
        length (kept (kids_of (plain_table table.now) (map plain_cell cells.now)) (map plain_cell cells.now))) }
{
    let mut count = 0u32;
    for cell in cells {
        if kid(table, &cell.kind).is_none() {
            count = sum(count, 1)?;
        }
    }
    Ok(count)
}

/// Where the next cell stands.
fn next_stand(next: Next, kid: Option<&Component>) -> Result<Stand, Memory>
    ensures value { IfOk result (λ stand.
        stand ≡ definitions.stand_of (option_map (λ k. plain_component k.now) kid.entry) next.kept next.block) }
{
    match kid {
        None => Ok(Stand::Kept(next.kept)),
        Some(child) => Ok(Stand::Inlined(Block {
            cells: next.block,
            wires: sum(next.block, number(child.cells.len())?)?,
            inputs: number(child.inputs.len())?,
        })),
    }
}

/// Where what comes behind the next cell stands.
fn after(next: Next, kid: Option<&Component>) -> Result<Next, Memory>
    ensures kept { IfOk result
        (λ after. after.kept ≡ behind (option_map (λ k. plain_component k.now) kid.entry) next.kept) }
    ensures block { IfOk result
        (λ after. after.block ≡ next.block + block_size (option_map (λ k. plain_component k.now) kid.entry)) }
{
    match kid {
        None => Ok(Next {
            kept: sum(next.kept, 1)?,
            block: next.block,
        }),
        Some(child) => {
            let wires = sum(next.block, number(child.cells.len())?)?;
            let block = sum(wires, number(child.outputs.len())?)?;
            Ok(Next {
                kept: next.kept,
                block,
            })
        }
    }
}
