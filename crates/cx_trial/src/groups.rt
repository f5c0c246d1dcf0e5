//! The groups of the arms.

ghost use Rattle.std.specs.Prelude.{◌≡◌, ◌<◌, ◌++◌, ◌∷◌, [], IfOk, map};
ghost use Rattle.cx_ast.specs.PlainTree.{plain_assign, plain_wire};
ghost use Rattle.cx_trial.specs.TrialParts as trial;
ghost use Rattle.cx_trial.specs.TrialTree as trees;

use crate::parts::{PLACE, drive, finish, indexed, literal, port_of, step_name};
use cx_ast::{AssignItem, GroupItem, GroupWord, WireItem};
use cx_text::{Memory, Name};
use std::alloc::Global;

/// The arms.
pub(crate) const ARMS: u64 = 16;

/// The steps of an arm.
pub(crate) const STEPS: u64 = 8;

/// A group of these assignments.
fn group_of(alloc: Global, name: Name, assigns: Vec<AssignItem>) -> WireItem
    ensures { plain_wire result ≡ trial.group_of name (map plain_assign assigns.items) }
{
    WireItem::Group(GroupItem {
        attributes: Vec::new(alloc),
        kind: GroupWord::Plain,
        name,
        marks: Vec::new(alloc),
        assigns,
        place: PLACE,
    })
}

/// A group that adds a number to a register.
fn sum_group(
    alloc: Global,
    name: Name,
    adder: &[u8],
    register: &[u8],
    number: u128,
) -> Result<WireItem, Memory>
    ensures { IfOk result (λ wire. plain_wire wire ≡ trial.sum_group name adder.now register.now number) }
{
    let mut assigns = Vec::new(alloc);
    let sum = port_of(alloc, adder, b"out")?;
    let held = port_of(alloc, register, b"out")?;
    drive(alloc, &mut assigns, adder, b"left", held)?;
    drive(alloc, &mut assigns, adder, b"right", literal(32, number))?;
    drive(alloc, &mut assigns, register, b"in", sum)?;
    drive(alloc, &mut assigns, register, b"write_en", literal(1, 1))?;
    finish(alloc, &mut assigns, name.bytes(), register)?;
    Ok(group_of(alloc, name, assigns))
}

/// The group that writes the sum of an arm's registers into its word of the memory.
fn store_group(alloc: Global, arm: u64) -> Result<WireItem, Memory>
    ensures { IfOk result (λ wire. plain_wire wire ≡ trial.store_group arm) }
{
    let name = indexed(alloc, b"t", arm)?;
    let adder = indexed(alloc, b"a", arm)?;
    let left = port_of(alloc, indexed(alloc, b"r", arm)?.bytes(), b"out")?;
    let right = port_of(alloc, indexed(alloc, b"s", arm)?.bytes(), b"out")?;
    let sum = port_of(alloc, adder.bytes(), b"out")?;
    let mut assigns = Vec::new(alloc);
    drive(alloc, &mut assigns, adder.bytes(), b"left", left)?;
    drive(alloc, &mut assigns, adder.bytes(), b"right", right)?;
    drive(
        alloc,
        &mut assigns,
        b"mem",
        b"addr0",
        literal(4, u128::from(arm)),
    )?;
    drive(alloc, &mut assigns, b"mem", b"write_data", sum)?;
    drive(alloc, &mut assigns, b"mem", b"write_en", literal(1, 1))?;
    finish(alloc, &mut assigns, name.bytes(), b"mem")?;
    Ok(group_of(alloc, name, assigns))
}

/// The group of a step of an arm.
fn step_group(alloc: Global, seed: u64, arm: u64, step: u64) -> Result<WireItem, Memory>
    requires arm { arm < 16 }
    requires step { step < 8 }
    ensures { IfOk result (λ wire. plain_wire wire ≡ trial.step_group seed arm step) }
{
    let name = step_name(alloc, arm, step)?;
    let adder = indexed(alloc, b"a", arm)?;
    let register = indexed(alloc, b"r", arm)?;
    let number = (u128::from(seed) + u128::from(5 * arm + 3 * step)) % 1000;
    sum_group(alloc, name, adder.bytes(), register.bytes(), number)
}

/// Appends the groups of the steps of an arm.
#[tactic(auto, using(crate::proofs::LoopLemmas::ended))]
fn push_steps(alloc: Global, wires: &mut Vec<WireItem>, seed: u64, arm: u64) -> Result<(), Memory>
    requires arm { arm < 16 }
    ensures { IfOk result
        (λ _. map plain_wire wires.new.items ≡ map plain_wire wires.old.items ++ trees.step_groups seed arm) }
{
    for step in 0..STEPS {
        wires.push(step_group(alloc, seed, arm, step)?)?;
    }
    Ok(())
}

/// Appends the groups of an arm.
fn push_arm(alloc: Global, wires: &mut Vec<WireItem>, seed: u64, arm: u64) -> Result<(), Memory>
    requires arm { arm < 16 }
    ensures { IfOk result
        (λ _. map plain_wire wires.new.items ≡ map plain_wire wires.old.items ++ trees.arm_groups seed arm) }
{
    push_steps(alloc, wires, seed, arm)?;
    let name = indexed(alloc, b"h", arm)?;
    let adder = indexed(alloc, b"b", arm)?;
    let register = indexed(alloc, b"s", arm)?;
    wires.push(sum_group(alloc, name, adder.bytes(), register.bytes(), 1)?)?;
    wires.push(store_group(alloc, arm)?)?;
    Ok(())
}

/// The groups of all arms.
#[tactic(auto, using(crate::proofs::LoopLemmas::ended))]
pub(crate) fn all_groups(alloc: Global, seed: u64) -> Result<Vec<WireItem>, Memory>
    ensures { IfOk result (λ wires. map plain_wire wires.items ≡ trees.all_groups seed) }
{
    let mut wires = Vec::new(alloc);
    for arm in 0..ARMS {
        push_arm(alloc, &mut wires, seed, arm)?;
    }
    Ok(wires)
}
