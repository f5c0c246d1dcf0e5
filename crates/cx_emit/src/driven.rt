//! What drives the targets of a component: chains of choices.

ghost use Rattle.std.specs.Prelude.{◌≡◌, [], All, IfOk, OnOk, map, option_map};
ghost use Rattle.cx_net.specs.PlainNets.{plain_net_component, plain_net_driver, plain_net_expr};
ghost use Rattle.cx_prim.specs.Widths.{IsWidth};
ghost use Rattle.cx_vtree.specs.Plain.{Named};
ghost use Rattle.cx_vtree.specs.PlainParts.{plain_assign, plain_expr, plain_port};
ghost use Rattle.cx_emit.specs.Chains as plain;
ghost use Rattle.cx_emit.specs.Driven.{cell_driven, changed_at, driven_by, driver_before, port_before, port_driven, target_before};
ghost use Rattle.cx_emit.specs.Emitted.{DriverFits, PartFits, PortsAreWide};
ghost use Rattle.cx_emit.specs.Names as plain_name;
ghost use Rattle.cx_emit.specs.Numbered.{with_numbers};
ghost use Rattle.cx_emit.specs.PlainForms.{plain_cell_ports, plain_driven, plain_port_driven, plain_ports_driven};
ghost use Rattle.cx_emit.specs.Sources.{assign, done_assign, output_assign, register_assign, wire_assign};

use crate::exprs::{expr, zero};
use crate::names::{cell_port_name, output_name, register_name, wire_name};
use crate::signatures::CellPorts;
use cx_bits::Bits;
use cx_design::PortDecl;
use cx_meaning::PortRef;
use cx_net::{NetComponent, NetDriver, NetExpr, NetTarget};
use cx_text::{Memory, Name};
use cx_vtree::{Expr, ModulePort, NetAssign};
use std::alloc::Global;
use std::mem;

/// What drives each target of a component.
#[derive(Drop)]
pub struct Driven {
    /// By cell and port; none at an output, which the instance drives.
    pub cells: Vec<Vec<Option<NetAssign>>>,
    pub outputs: Vec<NetAssign>,
    pub wires: Vec<NetAssign>,
    pub registers: Vec<NetAssign>,
    pub done: NetAssign,
}

/// What drives a port of a cell where no driver does: 0.
fn undriven_port(
    alloc: Global,
    cell: usize,
    number: usize,
    port: &ModulePort,
) -> Result<Option<NetAssign>, Memory>
    requires wide { IsWidth (plain_port port.now).width }
    ensures value { IfOk result
        (λ driven. plain_port_driven driven ≡ port_driven [] cell number (plain_port port.now)) }
{
    if port.output {
        return Ok(None);
    }
    Ok(Some(NetAssign {
        name: cell_port_name(alloc, cell, number)?,
        value: zero(port.width),
    }))
}

/// The same of all ports of a cell.
fn undriven_ports(
    alloc: Global,
    cell: usize,
    ports: &[ModulePort],
) -> Result<Vec<Option<NetAssign>>, Memory>
    requires wide { All (λ p. IsWidth p.width) (map plain_port ports.now) }
    ensures value { IfOk result (λ driven.
        map plain_port_driven driven.items ≡ with_numbers (port_driven [] cell) (map plain_port ports.now)) }
{
    let mut driven = Vec::with_capacity(alloc, ports.len())?;
    for (number, port) in ports.iter().enumerate() {
        driven.push(undriven_port(alloc, cell, number, port)?)?;
    }
    Ok(driven)
}

/// The same of all cells.
fn undriven_cells(alloc: Global, cells: &[CellPorts]) -> Result<Vec<Vec<Option<NetAssign>>>, Memory>
    requires wide { All PortsAreWide (map plain_cell_ports cells.now) }
    ensures value { IfOk result (λ driven.
        map plain_ports_driven driven.items ≡ with_numbers (cell_driven []) (map plain_cell_ports cells.now)) }
{
    let mut driven = Vec::with_capacity(alloc, cells.len())?;
    for (number, cell) in cells.iter().enumerate() {
        driven.push(undriven_ports(alloc, number, &cell.ports)?)?;
    }
    Ok(driven)
}

/// An output of the signature is 0 where no driver drives it.
fn undriven_outputs(alloc: Global, outputs: &[PortDecl]) -> Result<Vec<NetAssign>, Memory>
    requires wide { All (λ d. IsWidth d.width) outputs.now }
    ensures value { IfOk result
        (λ driven. map plain_assign driven.items ≡ with_numbers (output_assign []) outputs.now) }
{
    let mut driven = Vec::with_capacity(alloc, outputs.len())?;
    for (number, output) in outputs.iter().enumerate() {
        driven.push(NetAssign {
            name: output_name(alloc, number)?,
            value: zero(output.width),
        })?;
    }
    Ok(driven)
}

/// A wire is 0 where no driver drives it.
fn undriven_wires(alloc: Global, widths: &[u8]) -> Result<Vec<NetAssign>, Memory>
    requires wide { All IsWidth widths.now }
    ensures value { IfOk result (λ driven. map plain_assign driven.items ≡ with_numbers (wire_assign []) widths.now) }
{
    let mut driven = Vec::with_capacity(alloc, widths.len())?;
    for (number, width) in widths.iter().enumerate() {
        driven.push(NetAssign {
            name: wire_name(alloc, number)?,
            value: zero(*width),
        })?;
    }
    Ok(driven)
}

/// A register stays where no driver drives it.
fn undriven_register(alloc: Global, number: usize) -> Result<NetAssign, Memory>
    ensures value { IfOk result (λ driven. plain_assign driven ≡
        assign (plain_name.register_name number) (Named (plain_name.register_name number))) }
{
    Ok(NetAssign {
        name: register_name(alloc, number)?,
        value: Expr::Net(register_name(alloc, number)?),
    })
}

/// The same of all registers.
fn undriven_registers(alloc: Global, widths: &[u8]) -> Result<Vec<NetAssign>, Memory>
    ensures value { IfOk result
        (λ driven. map plain_assign driven.items ≡ with_numbers (register_assign []) widths.now) }
{
    let mut driven = Vec::with_capacity(alloc, widths.len())?;
    for number in 0..widths.len() {
        driven.push(undriven_register(alloc, number)?)?;
    }
    Ok(driven)
}

/// `done` is 0 where no driver drives it.
fn undriven_done(alloc: Global) -> Result<NetAssign, Memory>
    ensures value { IfOk result (λ driven. plain_assign driven ≡ done_assign []) }
{
    Ok(NetAssign {
        name: Name::from_bytes(alloc, b"done")?,
        value: zero(1),
    })
}

/// Whether a guard is the literal 1.
fn is_one(guard: &NetExpr) -> bool
    ensures value { result ≡ plain.is_one (plain_net_expr guard.now) }
{
    match guard {
        NetExpr::Literal(bits) => bits.value() == 1,
        _ => false,
    }
}

/// A driver before a chain.
fn before(alloc: Global, driver: &NetDriver, rest: Expr) -> Result<Expr, Memory>
    requires fits { DriverFits (plain_net_driver driver.now) }
    ensures value { IfOk result
        (λ chain. plain_expr chain ≡ plain.before (plain_net_driver driver.now) (plain_expr rest)) }
{
    let source = expr(alloc, &driver.source)?;
    if is_one(&driver.guard) {
        return Ok(source);
    }
    let guard = Box::new(alloc, expr(alloc, &driver.guard)?)?;
    let source = Box::new(alloc, source)?;
    Ok(Expr::Choose(guard, source, Box::new(alloc, rest)?))
}

/// Puts a driver before the chain of a target.
fn put(alloc: Global, driven: &mut NetAssign, driver: &NetDriver) -> Result<(), Memory>
    requires fits { DriverFits (plain_net_driver driver.now) }
    ensures value { OnOk result
        (plain_assign driven.new ≡ driver_before (plain_net_driver driver.now) (plain_assign driven.old)) }
{
    let rest = mem::replace(&mut driven.value, zero(1));
    driven.value = before(alloc, driver, rest)?;
    Ok(())
}

/// Puts a driver before the chain of the target of a number. There is nothing to do where no target has it.
fn put_at(
    alloc: Global,
    driven: &mut [NetAssign],
    number: u32,
    driver: &NetDriver,
) -> Result<(), Memory>
    requires fits { DriverFits (plain_net_driver driver.now) }
    ensures value { OnOk result (map plain_assign driven.new ≡
        changed_at number (driver_before (plain_net_driver driver.now)) (map plain_assign driven.old)) }
{
    let at = number as usize;
    if at < driven.len() {
        put(alloc, &mut driven[at], driver)?;
    }
    Ok(())
}

/// Puts a driver before the chain of a port, unless it is an output.
fn put_port(alloc: Global, driven: &mut Option<NetAssign>, driver: &NetDriver) -> Result<(), Memory>
    requires fits { DriverFits (plain_net_driver driver.now) }
    ensures value { OnOk result (plain_port_driven driven.new ≡
        option_map (driver_before (plain_net_driver driver.now)) (plain_port_driven driven.old)) }
{
    match driven {
        Some(driven) => put(alloc, driven, driver),
        None => Ok(()),
    }
}

/// The same at the port of a number.
fn put_port_at(
    alloc: Global,
    driven: &mut Vec<Option<NetAssign>>,
    port: u32,
    driver: &NetDriver,
) -> Result<(), Memory>
    requires fits { DriverFits (plain_net_driver driver.now) }
    ensures value { OnOk result (map plain_port_driven driven.new.items ≡
        changed_at port (option_map (driver_before (plain_net_driver driver.now)))
        (map plain_port_driven driven.old.items)) }
{
    let at = port as usize;
    if at < driven.len() {
        put_port(alloc, &mut driven[at], driver)?;
    }
    Ok(())
}

/// The same at the cell of a number.
fn put_cell_at(
    alloc: Global,
    driven: &mut Vec<Vec<Option<NetAssign>>>,
    cell: u32,
    port: u32,
    driver: &NetDriver,
) -> Result<(), Memory>
    requires fits { DriverFits (plain_net_driver driver.now) }
    ensures value { OnOk result (map plain_ports_driven driven.new.items ≡
        changed_at cell (changed_at port (option_map (driver_before (plain_net_driver driver.now))))
        (map plain_ports_driven driven.old.items)) }
{
    let at = cell as usize;
    if at < driven.len() {
        put_port_at(alloc, &mut driven[at], port, driver)?;
    }
    Ok(())
}

impl Driven {
    /// What drives the targets where no driver does.
    fn undriven(alloc: Global, part: &NetComponent, cells: &[CellPorts]) -> Result<Driven, Memory>
        requires fits { PartFits (plain_net_component part.now) (map plain_cell_ports cells.now) }
        ensures value { IfOk result (λ driven. plain_driven driven ≡
            driven_by (plain_net_component part.now) (map plain_cell_ports cells.now) []) }
    {
        Ok(Driven {
            cells: undriven_cells(alloc, cells)?,
            outputs: undriven_outputs(alloc, &part.outputs)?,
            wires: undriven_wires(alloc, &part.wires)?,
            registers: undriven_registers(alloc, &part.registers)?,
            done: undriven_done(alloc)?,
        })
    }

    /// Puts a driver before the chain of its target, a port.
    fn put_at_port(
        &mut self,
        alloc: Global,
        port: PortRef,
        driver: &NetDriver,
    ) -> Result<(), Memory>
        requires fits { DriverFits (plain_net_driver driver.now) }
        ensures value { OnOk result
            (plain_driven self.new ≡ port_before port (plain_net_driver driver.now) (plain_driven self.old)) }
    {
        match port {
            PortRef::Cell(cell, port) => put_cell_at(alloc, &mut self.cells, cell, port, driver),
            PortRef::Output(number) => put_at(alloc, &mut self.outputs, number, driver),
            PortRef::Input(_) | PortRef::Done(_) | PortRef::Literal(_, _) => Ok(()),
        }
    }

    /// Puts a driver before the chain of its target. Nothing looks at a hole.
    fn put_driver(&mut self, alloc: Global, driver: &NetDriver) -> Result<(), Memory>
        requires fits { DriverFits (plain_net_driver driver.now) }
        ensures value { OnOk result (plain_driven self.new ≡
            target_before (plain_net_driver driver.now).target (plain_net_driver driver.now)
            (plain_driven self.old)) }
    {
        match driver.target {
            NetTarget::Port(port) => self.put_at_port(alloc, port, driver),
            NetTarget::Register(number) => put_at(alloc, &mut self.registers, number, driver),
            NetTarget::Wire(number) => put_at(alloc, &mut self.wires, number, driver),
            NetTarget::Hole(_) => Ok(()),
            NetTarget::Done => put(alloc, &mut self.done, driver),
        }
    }

    /// What drives the targets of a component, whose cells have these ports.
    pub fn of(alloc: Global, part: &NetComponent, cells: &[CellPorts]) -> Result<Driven, Memory>
        requires fits { PartFits (plain_net_component part.now) (map plain_cell_ports cells.now) }
        ensures value { IfOk result (λ driven. plain_driven driven ≡
            driven_by (plain_net_component part.now) (map plain_cell_ports cells.now)
            (plain_net_component part.now).drivers) }
    {
        let mut driven = Driven::undriven(alloc, part, cells)?;
        let mut left = part.drivers.len();
        while left > 0 {
            left -= 1;
            driven.put_driver(alloc, &part.drivers[left])?;
        }
        Ok(driven)
    }
}
