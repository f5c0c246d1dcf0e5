//! The operands, comparisons and ranges of a guard, in source order.

ghost use Rattle.std.specs.Prelude.{◌≡◌, ◌++◌, IfOk, map};
ghost use Rattle.cx_rules.specs.Items as items;
ghost use Rattle.cx_design.specs.PlainForms.{plain_guard};
ghost use Rattle.cx_design_parts.specs.Items.{plain_pair, plain_range};

use cx_design::{Guard, PlacedPort, PortRef};
use cx_text::Memory;
use std::alloc::Global;

/// Two operands that are compared.
#[derive(Clone, Copy, Debug, PartialEq, Eq)]
pub struct Pair {
    pub first: PortRef,
    pub second: PortRef,
}

/// Offsets of a static group, from the first to before the second.
#[derive(Clone, Copy, Debug, PartialEq, Eq)]
pub struct Range {
    pub from: u64,
    pub to: u64,
}

/// The operands of a guard, compared ones too.
pub fn operands(alloc: Global, guard: &Guard) -> Result<Vec<PlacedPort>, Memory>
    ensures value { IfOk result (λ ports. ports.items ≡ items.operands_of (plain_guard guard.now)) }
{
    let mut ports = Vec::new(alloc);
    add_operands(&mut ports, guard)?;
    Ok(ports)
}

/// The ports that stand by themselves in a guard.
pub fn atoms(alloc: Global, guard: &Guard) -> Result<Vec<PlacedPort>, Memory>
    ensures value { IfOk result (λ ports. ports.items ≡ items.atoms_of (plain_guard guard.now)) }
{
    let mut ports = Vec::new(alloc);
    add_atoms(&mut ports, guard)?;
    Ok(ports)
}

/// The comparisons of a guard.
pub fn comparisons(alloc: Global, guard: &Guard) -> Result<Vec<Pair>, Memory>
    ensures value { IfOk result (λ pairs. map plain_pair pairs.items ≡ items.comparisons_of (plain_guard guard.now)) }
{
    let mut pairs = Vec::new(alloc);
    add_comparisons(&mut pairs, guard)?;
    Ok(pairs)
}

/// The ranges of offsets in a guard.
pub fn ranges(alloc: Global, guard: &Guard) -> Result<Vec<Range>, Memory>
    ensures value { IfOk result (λ ranges. map plain_range ranges.items ≡ items.ranges_of (plain_guard guard.now)) }
{
    let mut ranges = Vec::new(alloc);
    add_ranges(&mut ranges, guard)?;
    Ok(ranges)
}

fn add_operands(ports: &mut Vec<PlacedPort>, guard: &Guard) -> Result<(), Memory>
    ensures value { IfOk result (λ _. ports.new.items ≡ ports.old.items ++ items.operands_of (plain_guard guard.now)) }
{
    match guard {
        Guard::True | Guard::During(_, _) => {}
        Guard::Port(port) => ports.push(*port)?,
        Guard::Not(guard) => add_operands(ports, guard)?,
        Guard::And(parts) | Guard::Or(parts) => {
            for part in parts {
                add_operands(ports, part)?;
            }
        }
        Guard::Compare(_, left, right) => {
            ports.push(*left)?;
            ports.push(*right)?;
        }
    }
    Ok(())
}

fn add_atoms(ports: &mut Vec<PlacedPort>, guard: &Guard) -> Result<(), Memory>
    ensures value { IfOk result (λ _. ports.new.items ≡ ports.old.items ++ items.atoms_of (plain_guard guard.now)) }
{
    match guard {
        Guard::True | Guard::During(_, _) | Guard::Compare(_, _, _) => {}
        Guard::Port(port) => ports.push(*port)?,
        Guard::Not(guard) => add_atoms(ports, guard)?,
        Guard::And(parts) | Guard::Or(parts) => {
            for part in parts {
                add_atoms(ports, part)?;
            }
        }
    }
    Ok(())
}

fn add_comparisons(pairs: &mut Vec<Pair>, guard: &Guard) -> Result<(), Memory>
    ensures value { IfOk result (λ _. map plain_pair pairs.new.items ≡
        map plain_pair pairs.old.items ++ items.comparisons_of (plain_guard guard.now)) }
{
    match guard {
        Guard::True | Guard::During(_, _) | Guard::Port(_) => {}
        Guard::Not(guard) => add_comparisons(pairs, guard)?,
        Guard::And(parts) | Guard::Or(parts) => {
            for part in parts {
                add_comparisons(pairs, part)?;
            }
        }
        Guard::Compare(_, left, right) => pairs.push(Pair {
            first: left.port,
            second: right.port,
        })?,
    }
    Ok(())
}

fn add_ranges(ranges: &mut Vec<Range>, guard: &Guard) -> Result<(), Memory>
    ensures value { IfOk result (λ _. map plain_range ranges.new.items ≡
        map plain_range ranges.old.items ++ items.ranges_of (plain_guard guard.now)) }
{
    match guard {
        Guard::True | Guard::Port(_) | Guard::Compare(_, _, _) => {}
        Guard::Not(guard) => add_ranges(ranges, guard)?,
        Guard::And(parts) | Guard::Or(parts) => {
            for part in parts {
                add_ranges(ranges, part)?;
            }
        }
        Guard::During(from, to) => ranges.push(Range {
            from: *from,
            to: *to,
        })?,
    }
    Ok(())
}
