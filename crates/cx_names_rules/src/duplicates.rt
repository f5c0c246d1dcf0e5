//! Duplicate names.

ghost use Rattle.std.specs.Prelude.{◌≡◌, ℕ, List, [], ◌++◌, OnOk, map};
ghost use Rattle.cx_ast.specs.PlainTree.{plain_port, plain_cell, plain_wire, plain_component};
ghost use Rattle.cx_numbering.specs.Names.{groups_in};
ghost use Rattle.cx_numbering.specs.NameRules.{duplicates as duplicates_of, named, bind_names};
ghost use Rattle.cx_names_rules.specs.Found.{first_of};
ghost use Rattle.cx_names_rules.specs.Seen.{Sees, SeesOne, SeesUpTo};

use crate::found::tell_if;
use cx_ast::{BindItem, CellItem, ComponentItem, PortItem, WireItem};
use cx_names_scopes::Numbers;
use cx_text::{Diagnostic, Memory, Name, Place, Rule};
use std::alloc::Global;

// Sees a part, and tells of it where its name was seen.
fn see(
    alloc: Global,
    found: &mut Option<Diagnostic>,
    seen: &mut Numbers,
    name: &Name,
    place: Place,
) -> Result<(), Memory>
    ensures { (before : List (List ℕ)) → Sees before seen.old →
        OnOk result (SeesOne before name.now place found.old seen.new found.new) }
{
    tell_if(alloc, found, seen.has(name), Rule::Duplicate, place, name)?;
    seen.add(alloc, name, 0)
}

// Sees ports.
fn see_ports(
    alloc: Global,
    found: &mut Option<Diagnostic>,
    seen: &mut Numbers,
    ports: &[PortItem],
) -> Result<(), Memory>
    ensures { (before : List (List ℕ)) → Sees before seen.old →
        OnOk result (SeesUpTo before
        (map (λ p. named p.name p.place) (map plain_port ports.now)) [] found.old seen.new found.new) }
{
    for port in ports {
        see(alloc, found, seen, &port.name, port.place)?;
    }
    Ok(())
}

// Sees cells.
fn see_cells(
    alloc: Global,
    found: &mut Option<Diagnostic>,
    seen: &mut Numbers,
    cells: &[CellItem],
) -> Result<(), Memory>
    ensures { (before : List (List ℕ)) → Sees before seen.old →
        OnOk result (SeesUpTo before
        (map (λ c. named c.name c.place) (map plain_cell cells.now)) [] found.old seen.new found.new) }
{
    for cell in cells {
        see(alloc, found, seen, &cell.name, cell.place)?;
    }
    Ok(())
}

// Sees binds.
fn see_binds(
    alloc: Global,
    found: &mut Option<Diagnostic>,
    seen: &mut Numbers,
    binds: &[BindItem],
) -> Result<(), Memory>
    ensures { (before : List (List ℕ)) → Sees before seen.old →
        OnOk result (SeesUpTo before (bind_names binds.now) [] found.old seen.new found.new) }
{
    for bind in binds {
        see(alloc, found, seen, &bind.name, bind.place)?;
    }
    Ok(())
}

// Sees components.
fn see_components(
    alloc: Global,
    found: &mut Option<Diagnostic>,
    seen: &mut Numbers,
    components: &[ComponentItem],
) -> Result<(), Memory>
    ensures { (before : List (List ℕ)) → Sees before seen.old →
        OnOk result (SeesUpTo before (map (λ part. named part.name part.place)
        (map plain_component components.now)) [] found.old seen.new found.new) }
{
    for component in components {
        see(alloc, found, seen, &component.name, component.place)?;
    }
    Ok(())
}

// Sees groups.
fn see_groups(
    alloc: Global,
    found: &mut Option<Diagnostic>,
    seen: &mut Numbers,
    wires: &[WireItem],
) -> Result<(), Memory>
    ensures { (before : List (List ℕ)) → Sees before seen.old →
        OnOk result (SeesUpTo before (map (λ g. named g.name g.place) (groups_in (map plain_wire wires.now)))
        [] found.old seen.new found.new) }
{
    for wire in wires {
        let WireItem::Group(group) = wire else {
            continue;
        };
        see(alloc, found, seen, &group.name, group.place)?;
    }
    Ok(())
}

/// Tells of cells with the name of an earlier one.
pub fn cell_duplicates(
    alloc: Global,
    found: &mut Option<Diagnostic>,
    cells: &[CellItem],
) -> Result<(), Memory>
    ensures { OnOk result (found.new ≡
        first_of found.old (duplicates_of [] (map (λ c. named c.name c.place) (map plain_cell cells.now)))) }
{
    let mut seen = Numbers::new(alloc);
    see_cells(alloc, found, &mut seen, cells)?;
    Ok(())
}

/// Tells of groups with the name of an earlier one.
pub fn group_duplicates(
    alloc: Global,
    found: &mut Option<Diagnostic>,
    wires: &[WireItem],
) -> Result<(), Memory>
    ensures { OnOk result (found.new ≡ first_of found.old
        (duplicates_of [] (map (λ g. named g.name g.place) (groups_in (map plain_wire wires.now))))) }
{
    let mut seen = Numbers::new(alloc);
    see_groups(alloc, found, &mut seen, wires)?;
    Ok(())
}

/// Tells of ports that are bound twice.
pub(crate) fn bind_duplicates(
    alloc: Global,
    found: &mut Option<Diagnostic>,
    binds: &[BindItem],
) -> Result<(), Memory>
    ensures { OnOk result (found.new ≡ first_of found.old (duplicates_of [] (bind_names binds.now))) }
{
    let mut seen = Numbers::new(alloc);
    see_binds(alloc, found, &mut seen, binds)?;
    Ok(())
}

/// Tells of components with the name of an earlier one.
pub fn component_duplicates(
    alloc: Global,
    found: &mut Option<Diagnostic>,
    components: &[ComponentItem],
) -> Result<(), Memory>
    ensures { OnOk result (found.new ≡ first_of found.old
        (duplicates_of [] (map (λ part. named part.name part.place) (map plain_component components.now)))) }
{
    let mut seen = Numbers::new(alloc);
    see_components(alloc, found, &mut seen, components)?;
    Ok(())
}

/// Tells of ports of a signature with the name of an earlier one.
pub fn port_duplicates(
    alloc: Global,
    found: &mut Option<Diagnostic>,
    inputs: &[PortItem],
    outputs: &[PortItem],
) -> Result<(), Memory>
    ensures { OnOk result (found.new ≡ first_of found.old
        (duplicates_of []
        (map (λ p. named p.name p.place) (map plain_port inputs.now ++ map plain_port outputs.now)))) }
{
    let mut seen = Numbers::new(alloc);
    see_ports(alloc, found, &mut seen, inputs)?;
    see_ports(alloc, found, &mut seen, outputs)?;
    Ok(())
}
