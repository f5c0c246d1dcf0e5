//! Cells as instances.

ghost use Rattle.std.specs.Prelude.{◌≡◌, ◌++◌, IfOk, OnOk, codes, map};
ghost use Rattle.std.specs.List.{flat_map};
ghost use Rattle.cx_vtree.specs.PlainParts.{plain_assign, plain_conn, plain_decl, plain_instance, plain_port};
ghost use Rattle.cx_emit.specs.Driven.{present};
ghost use Rattle.cx_emit.specs.Numbered.{lists_from, with_numbers};
ghost use Rattle.cx_emit.specs.PlainForms.{plain_cell_ports, plain_port_driven, plain_ports_driven};
ghost use Rattle.cx_emit.specs.Sources as plain;

use crate::names::{cell_port_name, instance_name};
use crate::signatures::CellPorts;
use cx_text::{Memory, Name};
use cx_vtree::{Conn, Decl, Instance, ModulePort, NetAssign};
use std::alloc::Global;

/// Adds the wires at the ports of a cell.
fn add_port_decls(
    alloc: Global,
    decls: &mut Vec<Decl>,
    cell: usize,
    ports: &[ModulePort],
) -> Result<(), Memory>
    ensures value { OnOk result (map plain_decl decls.new.items ≡
        map plain_decl decls.old.items ++ with_numbers (plain.port_decl cell) (map plain_port ports.now)) }
{
    for (number, port) in ports.iter().enumerate() {
        decls.push(Decl::Wire {
            name: cell_port_name(alloc, cell, number)?,
            width: port.width,
        })?;
    }
    Ok(())
}

/// Adds the wires at the ports of cells.
pub fn add_cell_decls(
    alloc: Global,
    decls: &mut Vec<Decl>,
    cells: &[CellPorts],
) -> Result<(), Memory>
    ensures value { OnOk result (map plain_decl decls.new.items ≡
        map plain_decl decls.old.items ++ lists_from plain.cell_decls 0 (map plain_cell_ports cells.now)) }
{
    for (number, cell) in cells.iter().enumerate() {
        add_port_decls(alloc, decls, number, &cell.ports)?;
    }
    Ok(())
}

/// Adds what drives the ports of a cell.
fn add_port_assigns(
    assigns: &mut Vec<NetAssign>,
    driven: Vec<Option<NetAssign>>,
) -> Result<(), Memory>
    ensures value { OnOk result (map plain_assign assigns.new.items ≡
        map plain_assign assigns.old.items ++ present (map plain_port_driven driven.items)) }
{
    for port in driven {
        if let Some(assign) = port {
            assigns.push(assign)?;
        }
    }
    Ok(())
}

/// Adds what drives the ports of cells.
pub fn add_cell_assigns(
    assigns: &mut Vec<NetAssign>,
    driven: Vec<Vec<Option<NetAssign>>>,
) -> Result<(), Memory>
    ensures value { OnOk result (map plain_assign assigns.new.items ≡
        map plain_assign assigns.old.items ++ flat_map present (map plain_ports_driven driven.items)) }
{
    for own in driven {
        add_port_assigns(assigns, own)?;
    }
    Ok(())
}

/// The connection of a port to the net of the same name.
fn same_conn(alloc: Global, name: &str) -> Result<Conn, Memory>
    ensures value { IfOk result (λ conn. plain_conn conn ≡ plain.conn name.now name.now) }
{
    Ok(Conn {
        port: Name::from_bytes(alloc, name.as_bytes())?,
        net: Name::from_bytes(alloc, name.as_bytes())?,
    })
}

/// Adds the connections of the ports of a cell to the wires at them.
fn add_conns(
    alloc: Global,
    conns: &mut Vec<Conn>,
    cell: usize,
    ports: &[ModulePort],
) -> Result<(), Memory>
    ensures value { OnOk result (map plain_conn conns.new.items ≡
        map plain_conn conns.old.items ++ with_numbers (plain.port_conn cell) (map plain_port ports.now)) }
{
    for (number, port) in ports.iter().enumerate() {
        conns.push(Conn {
            port: Name::from_bytes(alloc, port.name.bytes())?,
            net: cell_port_name(alloc, cell, number)?,
        })?;
    }
    Ok(())
}

/// The instance of a cell.
fn instance(alloc: Global, number: usize, cell: &CellPorts) -> Result<Instance, Memory>
    ensures value { IfOk result
        (λ instance. plain_instance instance ≡ plain.cell_instance number (plain_cell_ports cell.now)) }
{
    let mut conns = Vec::with_capacity(alloc, 8)?;
    conns.push(same_conn(alloc, "clk")?)?;
    conns.push(same_conn(alloc, "reset")?)?;
    add_conns(alloc, &mut conns, number, &cell.ports)?;
    Ok(Instance {
        module: Name::from_bytes(alloc, cell.module.bytes())?,
        name: instance_name(alloc, number)?,
        conns,
    })
}

/// The instances of cells.
pub fn instances(alloc: Global, cells: &[CellPorts]) -> Result<Vec<Instance>, Memory>
    ensures value { IfOk result (λ instances.
        map plain_instance instances.items ≡
        with_numbers plain.cell_instance (map plain_cell_ports cells.now)) }
{
    let mut instances = Vec::with_capacity(alloc, cells.len())?;
    for (number, cell) in cells.iter().enumerate() {
        instances.push(instance(alloc, number, cell)?)?;
    }
    Ok(instances)
}
