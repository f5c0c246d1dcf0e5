//! A port as messages name it, from main on.

ghost use Rattle.std.specs.Prelude.{◌≡◌, ◌++◌, ◌<◌, IfNone, IfOk, IfSome, codes, false, length, true};
ghost use Rattle.cx_meaning.specs.Instances.{Instance, part_of, paths_of, tree_of};
ghost use Rattle.cx_rules.specs.FullPaths as full_paths;
ghost use Rattle.cx_rules.specs.FullPaths.{but_last, ends_in_point};
ghost use Rattle.cx_rules.specs.Ports.{cell_name, component_of, path_of};
ghost use Rattle.cx_design.specs.PlainForms.{plain_component};
ghost use Rattle.cx_design.specs.PlainDesigns.{plain_design};
ghost use Rattle.cx_design_sizes.specs.Orders.{IsChildrenFirst};
ghost use Rattle.cx_design_sizes.specs.Tallies.{AreTallied};
ghost use Rattle.cx_state.specs.Paths.{TellsPort};

use crate::steps::next_step;
use cx_design::{Component, Design, PortRef};
use cx_design_parts::path;
use cx_design_sizes::{LimitTally, children_first, component_tallies};
use cx_text::{Memory, Name};
use std::alloc::Global;

/// Appends the name of a cell, and a point.
fn append_cell(text: &mut Vec<u8>, part: &Component, cell: usize) -> Result<(), Memory>
    requires within { cell < length part.now.cells.items }
    ensures { IfOk result (λ done.
        text.new.items ≡ text.old.items ++ cell_name (plain_component part.now).cells cell ++ codes ".") }
{
    text.extend_from_slice(part.cells.as_slice()[cell].name.bytes())?;
    text.push(b'.')?;
    Ok(())
}

/// The name of an output by that of its wire, which has a point behind it.
fn without_point(name: &[u8]) -> Option<&[u8]>
    ensures none { IfNone result (ends_in_point name.now ≡ false) }
    ensures some { IfSome result (λ output. (ends_in_point name.now ≡ true) × (output.now ≡ but_last name.now)) }
{
    let (last, front) = name.split_last()?;
    if *last == b'.' { Some(front) } else { None }
}

/// The name of an output of a static component, where a port is one of its wire.
fn output_of_wire(part: &Component, port: PortRef) -> Option<&[u8]>
    ensures none { IfNone result ((i : Instance) → part_of i ≡ plain_component part.now →
        full_paths.own_path i port ≡ path_of i port) }
    ensures some { IfSome result (λ name.
        (i : Instance) → part_of i ≡ plain_component part.now → full_paths.own_path i port ≡ name.now) }
{
    match port {
        PortRef::Cell(cell, _) => {
            match part.cells.as_slice().get(cell as usize) {
                Some(cell) => without_point(cell.name.bytes()),
                None => None,
            }
        }
        _ => None,
    }
}

/// A port by its own name in its component, the wire of an output by that of the output.
fn own_path(alloc: Global, design: &Design, component: usize, port: PortRef) -> Result<Name, Memory>
    requires within { component < length design.now.components.items }
    ensures value { IfOk result
        (λ name. name ≡ full_paths.own_path (component_of (plain_design design.now) component) port) }
{
    match output_of_wire(&design.components.as_slice()[component], port) {
        Some(name) => Name::from_bytes(alloc, name),
        None => path(alloc, design, component, port),
    }
}

/// The names of the cells that lead from main to an instance, each with a point behind it, and that of a port there.
fn port_text(
    alloc: Global,
    design: &Design,
    order: &[u32],
    tallies: &[LimitTally],
    instance: u32,
    port: PortRef,
) -> Result<Vec<u8>, Memory>
    requires first { IsChildrenFirst (plain_design design.now) order.now }
    requires known { AreTallied (plain_design design.now) (length order.now) tallies.now order.now }
    requires instance { instance < length (paths_of (tree_of (plain_design design.now))) }
    ensures { IfOk result (λ text. TellsPort (tree_of (plain_design design.now)) instance port text.items) }
{
    let components = design.components.as_slice();
    let mut text = Vec::new(alloc);
    let mut component = design.main;
    let mut left = u64::from(instance);
    while let Some(step) = next_step(
        tallies,
        components[component as usize].cells.as_slice(),
        left,
    ) {
        append_cell(&mut text, &components[component as usize], step.cell)?;
        component = step.component;
        left = step.left;
    }
    let own = own_path(alloc, design, component as usize, port)?;
    text.extend_from_slice(own.bytes())?;
    Ok(text)
}

/// A port of an instance as messages name it: the names of the cells that lead from main to the instance, and the port's
/// name, joined by points, as in `adder.r.out`. Instances are numbered in pre-order of the instance tree, main first.
pub fn port_path(
    alloc: Global,
    design: &Design,
    instance: u32,
    port: PortRef,
) -> Result<Name, Memory>
    requires instance { instance < length (paths_of (tree_of (plain_design design.now))) }
    ensures value { IfOk result (λ name. TellsPort (tree_of (plain_design design.now)) instance port name) }
{
    let order = children_first(alloc, design)?;
    let tallies = component_tallies(alloc, design, &order)?;
    let text = port_text(alloc, design, &order, &tallies, instance, port)?;
    Name::from_bytes(alloc, text.as_slice())
}
