//! The numbers of the ports of a component's cells.

ghost use Rattle.std.specs.Prelude.{◌≡◌, ◌+◌, ◌<◌, ◌^◌, IfOk, length, map};
ghost use Rattle.cx_ast.specs.PlainTree.{plain_component, plain_port};
ghost use Rattle.cx_numbering.specs.Names.{port_names, cell_port_names, AComponent};
ghost use Rattle.cx_names_scopes.specs.Numbered.{AreNumbersOf};
ghost use Rattle.cx_names.specs.Sites.{AddsNames, ArePortNumbers};

use cx_ast::{ComponentItem, PortItem};
use cx_names_scopes::{Numbers, is_own_name};
use cx_text::{Memory, Name};
use std::alloc::Global;

/// Adds the ports of one side but the own ones, the first with the number `next`, and gives the number behind the last.
fn add_ports(
    alloc: Global,
    numbers: &mut Numbers,
    next: usize,
    ports: &[PortItem],
) -> Result<usize, Memory>
    requires { next + length ports.now < 2 ^ 64 }
    ensures { IfOk result
        (λ behind. AddsNames next numbers.old (port_names (map plain_port ports.now)) behind numbers.new) }
{
    let mut behind = next;
    for port in ports {
        if is_own_name(&port.name) {
            continue;
        }
        numbers.add(alloc, &port.name, behind)?;
        behind += 1;
    }
    Ok(behind)
}

/// The numbers of the ports of a component's cell: go, the inputs, the outputs, done.
fn port_numbers(alloc: Global, part: &ComponentItem) -> Result<Numbers, Memory>
    ensures { IfOk result (AreNumbersOf (cell_port_names (AComponent (plain_component part.now)))) }
{
    let go = Name::from_bytes(alloc, b"go")?;
    let done = Name::from_bytes(alloc, b"done")?;
    let mut numbers = Numbers::new(alloc);
    numbers.add(alloc, &go, 0)?;
    let outputs = add_ports(alloc, &mut numbers, 1, &part.inputs)?;
    let last = add_ports(alloc, &mut numbers, outputs, &part.outputs)?;
    numbers.add(alloc, &done, last)?;
    Ok(numbers)
}

/// For each component the numbers of the ports of its cells.
pub(crate) fn all_port_numbers(
    alloc: Global,
    parts: &[ComponentItem],
) -> Result<Vec<Numbers>, Memory>
    ensures { IfOk result (λ all. ArePortNumbers (map plain_component parts.now) all.items) }
{
    let mut all = Vec::with_capacity(alloc, parts.len())?;
    for part in parts {
        all.push(port_numbers(alloc, part)?)?;
    }
    Ok(all)
}
