//! The names of kept cells in place of those of given ones.

ghost use Rattle.std.specs.Prelude.{◌≡◌, ◌<◌, ℕ, List, IfOk, get_or, length, map};
ghost use Rattle.cx_rules.specs.Ports as ports;
ghost use Rattle.cx_design.specs.PlainForms.{plain_cell, plain_component};
ghost use Rattle.cx_names_scopes.specs.Numbered.{AreNumbersOf, number_in};
ghost use Rattle.cx_sharing.specs.SharedTree.{kept_name};
ghost use Rattle.cx_share.specs.Givings.{AreKeepers};
ghost use Rattle.cx_share.specs.Naming.{AreKeeperNames, name_by};

use cx_copies::{CellNames, copied_name};
use cx_design::{Cell, Component};
use cx_names_scopes::Numbers;
use cx_text::{Memory, Name};
use std::alloc::Global;

/// For the names of a component's cells those of the cells that stand for them.
#[derive(Drop)]
pub(crate) struct KeptNames {
    /// The number of each name.
    pub numbers: Numbers,
    /// For each number the name of the cell that stands for the cell.
    pub names: Vec<Name>,
}

impl CellNames for KeptNames {
    ghost renaming = { λ kept cell. name_by (number_in kept.numbers cell) kept.names.items cell };

    fn name(&self, alloc: Global, cell: &Name) -> Result<Name, Memory> {
        match self.numbers.find(cell) {
            None => copied_name(alloc, cell),
            Some(number) => copied_name(alloc, name_at(self.names.as_slice(), number, cell)),
        }
    }
}

/// The name at a number of a list, or another where there is none.
fn name_at<'a>(names: &'a [Name], number: usize, other: &'a Name) -> &'a Name
    ensures value { result.now ≡ get_or names.now number other.now }
{
    match names.get(number) {
        None => other,
        Some(name) => name,
    }
}

/// The names of the cells that stand for the cells of a component.
pub(crate) fn kept_names(
    alloc: Global,
    part: &Component,
    keepers: &[usize],
) -> Result<KeptNames, Memory>
    requires keepers { AreKeepers (plain_component part.now) keepers.now }
    ensures value { IfOk result (λ kept. (cell : List ℕ)
        → name_by (number_in kept.numbers cell) kept.names.items cell ≡
        kept_name (plain_component part.now) cell) }
{
    let numbers = cell_numbers(alloc, part.cells.as_slice())?;
    let names = keeper_names(alloc, part, keepers)?;
    Ok(KeptNames { numbers, names })
}

/// The numbers of cells by their names.
fn cell_numbers(alloc: Global, cells: &[Cell]) -> Result<Numbers, Memory>
    ensures value { IfOk result (AreNumbersOf (map (λ cell. cell.name) (map plain_cell cells.now))) }
{
    let mut numbers = Numbers::new(alloc);
    for (number, cell) in cells.iter().enumerate() {
        numbers.add(alloc, &cell.name, number)?;
    }
    Ok(numbers)
}

/// For each cell the name of the cell that stands for it.
fn keeper_names(alloc: Global, part: &Component, keepers: &[usize]) -> Result<Vec<Name>, Memory>
    requires keepers { AreKeepers (plain_component part.now) keepers.now }
    ensures value { IfOk result
        (λ names. AreKeeperNames (plain_component part.now) (length part.now.cells.items) names.items) }
{
    let mut names = Vec::with_capacity(alloc, keepers.len())?;
    for keeper in keepers {
        names.push(cell_name(alloc, part, *keeper)?)?;
    }
    Ok(names)
}

/// The name of a cell.
pub(crate) fn cell_name(alloc: Global, part: &Component, cell: usize) -> Result<Name, Memory>
    requires within { cell < length part.now.cells.items }
    ensures value { IfOk result (λ name. name ≡ ports.cell_name (plain_component part.now).cells cell) }
{
    let cells = part.cells.as_slice();
    let name = copied_name(alloc, &cells[cell].name)?;
    Ok(name)
}
