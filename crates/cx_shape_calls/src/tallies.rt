//! How often the ports of cells stand in a list.

ghost use Rattle.std.specs.Prelude.{◌≡◌, ℕ, ◌+◌, ◌^◌, ◌<◌, IfOk, length, map, if◌then◌else◌};
ghost use Rattle.cx_meaning.specs.declared.ports.PortRef.TheVariants as refs;
ghost use Rattle.cx_meaning.specs.Active.{same_port};
ghost use Rattle.cx_rules.specs.CallShape.{with_target};
ghost use Rattle.cx_design.specs.PlainForms.{plain_assigns};
ghost use Rattle.cx_shape_calls.specs.Forms as forms;
ghost use Rattle.cx_shape_calls.specs.Forms.{count_of};

use cx_design::{Assign, PortRef};
use cx_text::Memory;
use std::alloc::Global;
use std::collections::HashMap;

/// How often each port of a cell stands in a list, by the cell's number and the port's number in it.
pub type PortTally = HashMap<(u32, u32), u64>;

/// How often each port of a cell stands in a list.
pub fn tally(alloc: Global, ports: &[PortRef]) -> Result<PortTally, Memory>
    ensures value { IfOk result (λ tally. (c p : ℕ) → forms.times tally c p ≡ count_of (refs.Cell c p) ports.now) }
{
    let mut tally = HashMap::new(alloc);
    for port in ports {
        count(&mut tally, *port)?;
    }
    Ok(tally)
}

/// Counts a port, where it is one of a cell.
fn count(tally: &mut PortTally, port: PortRef) -> Result<(), Memory>
    requires room { (c p : ℕ) → forms.times tally.old c p + 1 < 2 ^ 64 }
    ensures value { IfOk result (λ _. (c p : ℕ)
        → forms.times tally.new c p ≡
        forms.times tally.old c p + (if same_port port (refs.Cell c p) then 1 else 0)) }
{
    if let PortRef::Cell(cell, port) = port {
        let before = times(tally, cell, port);
        tally.insert((cell, port), before + 1)?;
    }
    Ok(())
}

/// How often a port of a cell was counted.
pub fn times(tally: &PortTally, cell: u32, port: u32) -> u64
    ensures value { result ≡ forms.times tally.now cell port }
{
    tally.get(&(cell, port)).copied().unwrap_or(0)
}

/// How often assignments drive each port of a cell.
pub fn tally_targets(alloc: Global, assigns: &[Assign]) -> Result<PortTally, Memory>
    ensures value { IfOk result (λ tally.
        (c p : ℕ) → forms.times tally c p ≡ length (with_target (refs.Cell c p) (plain_assigns assigns.now))) }
{
    let targets = targets(alloc, assigns)?;
    let driven = tally(alloc, targets.as_slice())?;
    Ok(driven)
}

/// The targets of assignments.
fn targets(alloc: Global, assigns: &[Assign]) -> Result<Vec<PortRef>, Memory>
    ensures value { IfOk result (λ list. list.items ≡ map (λ a. a.target) assigns.now) }
{
    Ok(assigns.iter().map(|assign| assign.target).collect(alloc)?)
}
