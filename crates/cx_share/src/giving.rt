//! Giving: each candidate is given to the first kept one that takes it, else it is kept.

ghost use Rattle.std.specs.Prelude.{◌≡◌, ◌<◌, ◌≤◌, ◌+◌, ℕ, [], ◌∷◌, ◌++◌, true, false, IfOk, IfSome, IfNone, OnOk, get_or, length, map};
ghost use Rattle.cx_design.specs.PlainForms.{plain_component, plain_kind};
ghost use Rattle.cx_sharing.specs.Giving as giving;
ghost use Rattle.cx_sharing.specs.Giving.{kept_of, keeper_in};
ghost use Rattle.cx_sharing.specs.Meeting.{meet};
ghost use Rattle.cx_sharing.specs.Uses.{is_candidate, kind_in};
ghost use Rattle.cx_share.specs.Marks.{Adds, AreMarks, lists_of};
ghost use Rattle.cx_share.specs.Tables.{IsMeeting};
ghost use Rattle.cx_share.specs.Givings.{AllKeepers, AllNear, AllWithin, AreAsWide, AreKeepers, AreRefused, IsNear, IsWithin, KeptBy, Put, Within, near_of, nears, no_kept, plain_kept};

use crate::candidates::candidates;
use crate::kinds::is_same_kind;
use crate::marks::Marks;
use crate::meeting::meeting;
use cx_design::{CellKind, Component};
use cx_text::Memory;
use std::alloc::Global;

/// A kept cell, those that were given to it, in cell order, and the cells that meet one of them.
#[derive(Drop)]
pub(crate) struct Kept {
    pub cell: usize,
    pub given: Vec<usize>,
    pub near: Marks,
}

/// For each component the cells that stand for its cells.
pub(crate) fn all_keepers(alloc: Global, parts: &[Component]) -> Result<Vec<Vec<usize>>, Memory>
    ensures value { IfOk result (λ keepers. AllKeepers (map plain_component parts.now) (lists_of keepers.items)) }
{
    let mut lists = Vec::with_capacity(alloc, parts.len())?;
    for part in parts {
        lists.push(keepers(alloc, part)?)?;
    }
    Ok(lists)
}

/// For each cell of a component the number of the cell that stands for it.
fn keepers(alloc: Global, part: &Component) -> Result<Vec<usize>, Memory>
    ensures value { IfOk result (λ keepers. AreKeepers (plain_component part.now) keepers.items) }
{
    let candidates = candidates(alloc, part)?;
    let table = meeting(alloc, part)?;
    let kept = kept_cells(alloc, part, candidates.as_slice(), table.as_slice())?;
    let keepers = keepers_by(alloc, part.cells.len(), kept.as_slice())?;
    Ok(keepers)
}

/// What is kept of all cells.
fn kept_cells(
    alloc: Global,
    part: &Component,
    candidates: &[bool],
    table: &[Marks],
) -> Result<Vec<Kept>, Memory>
    requires count { length candidates.now ≡ length part.now.cells.items }
    requires candidates { AreMarks candidates.now (is_candidate (plain_component part.now)) }
    requires table { IsMeeting (plain_component part.now) table.now }
    ensures value { IfOk result (λ kept. map plain_kept kept.items ≡ kept_of (plain_component part.now)) }
{
    let mut kept = Vec::new(alloc);
    let mut refused = Vec::new(alloc);
    for cell in 0..part.cells.len() {
        if !candidates[cell] {
            continue;
        }
        give(
            alloc,
            &mut kept,
            refused.as_slice(),
            part,
            &table[cell],
            cell,
        )?;
        refuse(&mut refused, kept.as_slice())?;
    }
    Ok(kept)
}

/// Gives a cell to the first that takes it, or keeps it. The row is of those that it meets.
fn give(
    alloc: Global,
    kept: &mut Vec<Kept>,
    refused: &[Marks],
    part: &Component,
    row: &Marks,
    cell: usize,
) -> Result<(), Memory>
    requires cell { cell < length part.now.cells.items }
    requires kept { AllWithin cell (map plain_kept kept.old.items) }
    requires near { AllNear (plain_component part.now) kept.old.items }
    requires refused { AreRefused kept.old.items refused.now }
    requires count { length row.now ≡ length part.now.cells.items }
    requires row { AreMarks row.now (meet (plain_component part.now) cell) }
    ensures value { OnOk result (map plain_kept kept.new.items ≡
        giving.give (plain_component part.now) cell (map plain_kept kept.old.items)) }
    ensures near { OnOk result (AllNear (plain_component part.now) kept.new.items) }
    ensures refused { OnOk result (AreRefused kept.new.items refused.now) }
{
    match first_taker(kept.as_slice(), refused, part, cell) {
        Some(taker) => add_given(&mut kept[taker], row, cell)?,
        None => kept.push(Kept {
            cell,
            given: Vec::new(alloc),
            near: row.copied()?,
        })?,
    }
    Ok(())
}

/// Adds a cell to those that were given. The row is of those that it meets.
fn add_given(kept: &mut Kept, row: &Marks, cell: usize) -> Result<(), Memory>
    requires count { length row.now ≡ length kept.old.near }
    ensures cell { OnOk result (kept.new.cell ≡ kept.old.cell) }
    ensures given { OnOk result (kept.new.given.items ≡ kept.old.given.items ++ cell ∷ []) }
    ensures near { OnOk result (Adds kept.old.near kept.new.near (λ c. get_or row.now c false)) }
{
    kept.given.push(cell)?;
    kept.near.join(row);
    Ok(())
}

/// Where 64 more are kept, adds the cells that each of these refuses.
fn refuse(refused: &mut Vec<Marks>, kept: &[Kept]) -> Result<(), Memory>
    requires refused { AreRefused kept.now refused.old.items }
    requires wide { AreAsWide (nears kept.now) }
    ensures refused { OnOk result (AreRefused kept.now refused.new.items) }
{
    let from = refused.len() * 64;
    if kept.len() - from >= 64 {
        refused.push(refused_from(kept, from)?)?;
    }
    Ok(())
}

/// The cells that each of 64 kept ones refuses: they meet it, or one that was given to it.
fn refused_from(kept: &[Kept], from: usize) -> Result<Marks, Memory>
    requires within { from + 64 ≤ length kept.now }
    requires wide { AreAsWide (nears kept.now) }
    ensures value { IfOk result (λ near. (k : ℕ) → from ≤ k → k < from + 64 → IsWithin near (near_of kept.now k)) }
{
    let mut near = kept[from].near.copied()?;
    for number in from + 1..from + 64 {
        near.keep(&kept[number].near);
    }
    Ok(near)
}

/// The number of the first that takes a cell. Where 64 refuse it, they are passed at once.
fn first_taker(kept: &[Kept], refused: &[Marks], part: &Component, cell: usize) -> Option<usize>
    requires cell { cell < length part.now.cells.items }
    requires kept { AllWithin cell (map plain_kept kept.now) }
    requires near { AllNear (plain_component part.now) kept.now }
    requires refused { AreRefused kept.now refused.now }
    ensures within { IfSome result (λ i. i < length kept.now) }
    ensures takes { IfSome result (λ i.
        giving.takes (plain_component part.now) cell (get_or (map plain_kept kept.now) i no_kept) ≡ true) }
    ensures first { IfSome result (λ i. (k : ℕ) → k < i
        → giving.takes (plain_component part.now) cell (get_or (map plain_kept kept.now) k no_kept) ≡ false) }
    ensures none { IfNone result ((k : ℕ) → k < length kept.now →
        giving.takes (plain_component part.now) cell (get_or (map plain_kept kept.now) k no_kept) ≡ false) }
{
    for (block, cells) in refused.iter().enumerate() {
        if cells.has(cell) {
            continue;
        }
        let from = block * 64;
        if let Some(taker) = taker_from(kept, part, cell, from, from + 64) {
            return Some(taker);
        }
    }
    taker_from(kept, part, cell, refused.len() * 64, kept.len())
}

/// The number of the first of some kept ones that takes a cell.
fn taker_from(kept: &[Kept], part: &Component, cell: usize, from: usize, to: usize) -> Option<usize>
    requires cell { cell < length part.now.cells.items }
    requires kept { AllWithin cell (map plain_kept kept.now) }
    requires near { AllNear (plain_component part.now) kept.now }
    requires range { from ≤ to }
    requires to { to ≤ length kept.now }
    ensures within { IfSome result (λ i. i < to) }
    ensures takes { IfSome result (λ i.
        giving.takes (plain_component part.now) cell (get_or (map plain_kept kept.now) i no_kept) ≡ true) }
    ensures first { IfSome result (λ i. (k : ℕ) → from ≤ k → k < i
        → giving.takes (plain_component part.now) cell (get_or (map plain_kept kept.now) k no_kept) ≡ false) }
    ensures none { IfNone result ((k : ℕ) → from ≤ k → k < to →
        giving.takes (plain_component part.now) cell (get_or (map plain_kept kept.now) k no_kept) ≡ false) }
{
    for number in from..to {
        if takes(&kept[number], part, cell) {
            return Some(number);
        }
    }
    None
}

/// Whether a kept one takes a cell: the cell meets neither it nor any that was given to it, and they are of one kind.
fn takes(kept: &Kept, part: &Component, cell: usize) -> bool
    requires cell { cell < length part.now.cells.items }
    requires kept { Within cell (plain_kept kept.now) }
    requires near { IsNear (plain_component part.now) kept.now }
    ensures value { result ≡ giving.takes (plain_component part.now) cell (plain_kept kept.now) }
{
    if kept.near.has(cell) {
        return false;
    }
    is_same_kind(kind_at(part, kept.cell), kind_at(part, cell))
}

/// What a cell is of.
fn kind_at(part: &Component, cell: usize) -> &CellKind
    requires within { cell < length part.now.cells.items }
    ensures value { plain_kind result.now ≡ kind_in (plain_component part.now).cells cell }
{
    let cells = part.cells.as_slice();
    &cells[cell].kind
}

/// For each of so many cells the number of the cell that stands for it.
fn keepers_by(alloc: Global, count: usize, kept: &[Kept]) -> Result<Vec<usize>, Memory>
    ensures value { IfOk result (λ keepers. KeptBy count (map plain_kept kept.now) keepers.items) }
{
    let mut keepers = each_itself(alloc, count)?;
    let mut left = kept.len();
    while left > 0 {
        left -= 1;
        put_keeper(&mut keepers, &kept[left]);
    }
    Ok(keepers)
}

/// Each of so many cells stands for itself.
fn each_itself(alloc: Global, count: usize) -> Result<Vec<usize>, Memory>
    ensures value { IfOk result (λ keepers. KeptBy count [] keepers.items) }
{
    let mut keepers = Vec::with_capacity(alloc, count)?;
    for cell in 0..count {
        keepers.push(cell)?;
    }
    Ok(keepers)
}

/// A kept cell stands for those that were given to it.
fn put_keeper(keepers: &mut Vec<usize>, kept: &Kept)
    ensures value { Put kept.now.cell kept.now.given.items keepers.old.items keepers.new.items }
{
    for given in &kept.given {
        put(keepers, *given, kept.cell);
    }
}

/// A kept cell stands for one that was given to it.
fn put(keepers: &mut Vec<usize>, given: usize, cell: usize)
    ensures value { Put cell (given ∷ []) keepers.old.items keepers.new.items }
{
    if given < keepers.len() {
        keepers[given] = cell;
    }
}
