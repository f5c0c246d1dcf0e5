//! The tree of the design.

ghost use Rattle.std.specs.Prelude.{◌≡◌, ◌++◌, IfOk, map};
ghost use Rattle.cx_ast.specs.PlainTree.{plain_cell, plain_tree};
ghost use Rattle.cx_trial.specs.TrialParts as parts;
ghost use Rattle.cx_trial.specs.TrialTree as trial;

use crate::control::whole_control;
use crate::groups::{ARMS, all_groups};
use crate::parts::{PLACE, push_cell};
use cx_ast::{Attribute, CellItem, ComponentItem, Tree};
use cx_text::{Memory, Name};
use std::alloc::Global;

/// The external memory of 16 words.
fn memory_cell(alloc: Global) -> Result<CellItem, Memory>
    ensures { IfOk result (λ cell. plain_cell cell ≡ parts.memory_cell) }
{
    let mut attributes = Vec::new(alloc);
    attributes.push(Attribute {
        name: Name::from_bytes(alloc, b"external")?,
        number: None,
    })?;
    let mut numbers = Vec::new(alloc);
    numbers.push(32)?;
    numbers.push(16)?;
    numbers.push(4)?;
    Ok(CellItem {
        attributes,
        name: Name::from_bytes(alloc, b"mem")?,
        marks: Vec::new(alloc),
        kind: Name::from_bytes(alloc, b"std_mem_d1")?,
        numbers,
        place: PLACE,
    })
}

/// Appends the cells of an arm.
#[tactic(auto, using(crate::proofs::LoopLemmas::four_more))]
fn push_arm_cells(alloc: Global, cells: &mut Vec<CellItem>, arm: u64) -> Result<(), Memory>
    ensures { IfOk result
        (λ _. map plain_cell cells.new.items ≡ map plain_cell cells.old.items ++ trial.arm_cells arm) }
{
    push_cell(alloc, cells, b"r", arm, b"std_reg")?;
    push_cell(alloc, cells, b"s", arm, b"std_reg")?;
    push_cell(alloc, cells, b"a", arm, b"std_add")?;
    push_cell(alloc, cells, b"b", arm, b"std_add")
}

/// The cells of main.
#[tactic(auto, using(crate::proofs::LoopLemmas::ended))]
fn all_cells(alloc: Global) -> Result<Vec<CellItem>, Memory>
    ensures { IfOk result (λ cells. map plain_cell cells.items ≡ trial.all_cells) }
{
    let mut cells = Vec::new(alloc);
    cells.push(memory_cell(alloc)?)?;
    for arm in 0..ARMS {
        push_arm_cells(alloc, &mut cells, arm)?;
    }
    Ok(cells)
}

/// The tree of the design that a seed gives. Every part has the place 1:1.
pub fn trial_tree(alloc: Global, seed: u64) -> Result<Tree, Memory>
    ensures value { IfOk result (λ tree. plain_tree tree ≡ trial.trial_tree seed) }
{
    let mut components = Vec::new(alloc);
    components.push(ComponentItem {
        attributes: Vec::new(alloc),
        length: None,
        name: Name::from_bytes(alloc, b"main")?,
        marks: Vec::new(alloc),
        inputs: Vec::new(alloc),
        outputs: Vec::new(alloc),
        cells: all_cells(alloc)?,
        wires: all_groups(alloc, seed)?,
        control: Some(whole_control(alloc, seed)?),
        place: PLACE,
    })?;
    Ok(Tree {
        imports: Vec::new(alloc),
        components,
    })
}
