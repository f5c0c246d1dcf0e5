//! The module of a component.

ghost use Rattle.std.specs.Prelude.{◌≡◌, ◌++◌, ◌∷◌, [], IfOk, OnOk, Some, map, slice_get};
ghost use Rattle.cx_net.specs.NetsAsData.{plain_net};
ghost use Rattle.cx_net.specs.PlainNets.{plain_net_component};
ghost use Rattle.cx_vtree.specs.PlainParts.{plain_assign, plain_decl, plain_module};
ghost use Rattle.cx_emit.specs.Emitted.{CanBeEmitted, PartFits};
ghost use Rattle.cx_emit.specs.Numbered.{lists_from, with_numbers};
ghost use Rattle.cx_emit.specs.PlainForms.{plain_cell_ports};
ghost use Rattle.cx_emit.specs.Sources as plain;

use crate::cells::{add_cell_assigns, add_cell_decls, instances};
use crate::driven::Driven;
use crate::kept::{add_registers, edge};
use crate::names::{module_name, wire_name};
use crate::signatures::{CellPorts, all_cell_ports, module_ports};
use cx_net::{Net, NetComponent};
use cx_text::{Memory, Name};
use cx_vtree::{Decl, Module, NetAssign};
use std::alloc::Global;

/// Adds the wires.
fn add_wires(alloc: Global, decls: &mut Vec<Decl>, widths: &[u8]) -> Result<(), Memory>
    ensures value { OnOk result (map plain_decl decls.new.items ≡
        map plain_decl decls.old.items ++ with_numbers plain.wire_decl widths.now) }
{
    for (number, width) in widths.iter().enumerate() {
        decls.push(Decl::Wire {
            name: wire_name(alloc, number)?,
            width: *width,
        })?;
    }
    Ok(())
}

/// The declarations of a component, whose cells have these ports.
fn decls(alloc: Global, part: &NetComponent, cells: &[CellPorts]) -> Result<Vec<Decl>, Memory>
    ensures value { IfOk result (λ decls. map plain_decl decls.items ≡
        plain.decls_with (plain_net_component part.now) (map plain_cell_ports cells.now)) }
{
    let mut decls = Vec::new(alloc);
    add_cell_decls(alloc, &mut decls, cells)?;
    add_wires(alloc, &mut decls, &part.wires)?;
    add_registers(alloc, &mut decls, &part.registers)?;
    Ok(decls)
}

/// Adds assigns to others.
fn add_assigns(assigns: &mut Vec<NetAssign>, more: Vec<NetAssign>) -> Result<(), Memory>
    ensures value { OnOk result (map plain_assign assigns.new.items ≡
        map plain_assign assigns.old.items ++ map plain_assign more.items) }
{
    for assign in more {
        assigns.push(assign)?;
    }
    Ok(())
}

/// The module of a component, whose cells have these ports.
fn module(
    alloc: Global,
    name: Name,
    part: &NetComponent,
    cells: &[CellPorts],
) -> Result<Module, Memory>
    requires fits { PartFits (plain_net_component part.now) (map plain_cell_ports cells.now) }
    ensures value { IfOk result (λ made. plain_module made ≡
        plain.module_with name (plain_net_component part.now) (map plain_cell_ports cells.now)) }
{
    let driven = Driven::of(alloc, part, cells)?;
    let mut assigns = Vec::new(alloc);
    add_cell_assigns(&mut assigns, driven.cells)?;
    add_assigns(&mut assigns, driven.wires)?;
    add_assigns(&mut assigns, driven.outputs)?;
    assigns.push(driven.done)?;
    Ok(Module {
        name,
        ports: module_ports(alloc, part)?,
        decls: decls(alloc, part, cells)?,
        assigns,
        instances: instances(alloc, cells)?,
        edge: edge(alloc, &part.registers, driven.registers)?,
    })
}

/// The module of a component of a net.
pub fn component_module(
    alloc: Global,
    net: &Net,
    number: usize,
    part: &NetComponent,
) -> Result<Module, Memory>
    requires net { CanBeEmitted (plain_net net.now) }
    requires part { slice_get (plain_net net.now).components number ≡ Some (plain_net_component part.now) }
    ensures value { IfOk result (λ made.
        plain_module made ≡ plain.component_module (plain_net net.now) number (plain_net_component part.now)) }
{
    let cells = all_cell_ports(alloc, net, &part.cells)?;
    let name = module_name(alloc, net.main(), number)?;
    module(alloc, name, part, &cells)
}
