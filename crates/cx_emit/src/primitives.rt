//! The modules of primitives.

ghost use Rattle.std.specs.Prelude.{◌≡◌, ◌∷◌, [], IfOk, OnOk, map};
ghost use Rattle.cx_design.specs.PlainForms.{plain_cell};
ghost use Rattle.cx_net.specs.NetsAsData.{plain_net};
ghost use Rattle.cx_net.specs.PlainNets.{plain_net_component};
ghost use Rattle.cx_vtree.specs.PlainParts.{plain_modules};
ghost use Rattle.cx_emit.specs.Found.{AreFound};
ghost use Rattle.cx_emit.specs.Sources as plain;

use crate::names::primitive_name;
use cx_cells::Primitive;
use cx_design::{Cell, CellKind};
use cx_net::{Net, NetComponent};
use cx_text::{Memory, Name};
use cx_vmods::Built;
use cx_vtree::Module;
use std::alloc::Global;
use std::collections::BTreeSet;

/// Adds the module of a primitive, if none of its name is found.
fn add_primitive(
    alloc: Global,
    found: &mut BTreeSet<Name>,
    modules: &mut Vec<Module>,
    primitive: &Primitive,
) -> Result<(), Memory>
    requires found { AreFound found.old (plain_modules modules.old.items) }
    ensures found { OnOk result (AreFound found.new (plain_modules modules.new.items)) }
    ensures value { OnOk result (plain_modules modules.new.items ≡
        plain.with_primitives (plain_modules modules.old.items) (primitive.now ∷ [])) }
{
    let name = primitive_name(alloc, primitive)?;
    if !found.contains(&name) {
        modules.push(primitive.module(alloc, &name)?)?;
        found.insert(name)?;
    }
    Ok(())
}

/// Adds the modules of the primitives of cells.
fn add_cells(
    alloc: Global,
    found: &mut BTreeSet<Name>,
    modules: &mut Vec<Module>,
    cells: &[Cell],
) -> Result<(), Memory>
    requires found { AreFound found.old (plain_modules modules.old.items) }
    ensures found { OnOk result (AreFound found.new (plain_modules modules.new.items)) }
    ensures value { OnOk result (plain_modules modules.new.items ≡
        plain.with_primitives (plain_modules modules.old.items)
        (plain.primitives_in (map plain_cell cells.now))) }
{
    for cell in cells {
        if let CellKind::Prim(primitive) = &cell.kind {
            add_primitive(alloc, found, modules, primitive)?;
        }
    }
    Ok(())
}

/// Adds the modules of the primitives of components.
fn add_components(
    alloc: Global,
    found: &mut BTreeSet<Name>,
    modules: &mut Vec<Module>,
    components: &[NetComponent],
) -> Result<(), Memory>
    requires found { AreFound found.old (plain_modules modules.old.items) }
    ensures value { OnOk result (plain_modules modules.new.items ≡
        plain.with_primitives (plain_modules modules.old.items)
        (plain.primitives_among (map plain_net_component components.now))) }
{
    for part in components {
        add_cells(alloc, found, modules, &part.cells)?;
    }
    Ok(())
}

/// One module for each primitive and its numbers, whatever cells there are of it.
pub fn primitive_modules(alloc: Global, net: &Net) -> Result<Vec<Module>, Memory>
    ensures value { IfOk result (λ modules. plain_modules modules.items ≡ plain.primitive_modules (plain_net net.now)) }
{
    let mut modules = Vec::new(alloc);
    let mut found = BTreeSet::new(alloc);
    add_components(alloc, &mut found, &mut modules, net.components())?;
    Ok(modules)
}
