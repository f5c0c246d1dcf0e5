//! The ports of modules.

ghost use Rattle.std.specs.Prelude.{◌≡◌, ◌++◌, ◌∷◌, [], IfOk, OnOk, map, drop, codes, slice_get};
ghost use Rattle.cx_design.specs.PlainForms.{plain_cell};
ghost use Rattle.cx_net.specs.NetsAsData.{plain_net};
ghost use Rattle.cx_net.specs.PlainNets.{plain_net_component};
ghost use Rattle.cx_vtree.specs.PlainParts.{plain_port};
ghost use Rattle.cx_emit.specs.Names.{primitive_name};
ghost use Rattle.cx_emit.specs.Numbered.{with_numbers};
ghost use Rattle.cx_emit.specs.PlainForms.{plain_cell_ports};
ghost use Rattle.cx_emit.specs.Signatures as plain;

use crate::names::{input_name, module_name, output_name, primitive_name};
use cx_cells::Primitive;
use cx_design::{Cell, CellKind, PortDecl};
use cx_net::{Net, NetComponent};
use cx_text::{Memory, Name};
use cx_vmods::Built;
use cx_vtree::ModulePort;
use std::alloc::Global;

/// The module of a cell and its ports behind the clock and the reset, in the order in which drivers number them.
#[derive(Drop)]
pub struct CellPorts {
    pub module: Name,
    pub ports: Vec<ModulePort>,
}

/// A port of one bit.
fn one_bit(alloc: Global, output: bool, name: &str) -> Result<ModulePort, Memory>
    ensures value { IfOk result (λ port. plain_port port ≡ record { output = output; name = name.now; width = 1 }) }
{
    Ok(ModulePort {
        output,
        name: Name::from_bytes(alloc, name.as_bytes())?,
        width: 1,
    })
}

/// Adds the inputs of a signature.
fn add_inputs(alloc: Global, ports: &mut Vec<ModulePort>, inputs: &[PortDecl]) -> Result<(), Memory>
    ensures value { OnOk result (map plain_port ports.new.items ≡
        map plain_port ports.old.items ++ with_numbers plain.input_port inputs.now) }
{
    for (number, input) in inputs.iter().enumerate() {
        ports.push(ModulePort {
            output: false,
            name: input_name(alloc, number)?,
            width: input.width,
        })?;
    }
    Ok(())
}

/// Adds the outputs of a signature.
fn add_outputs(
    alloc: Global,
    ports: &mut Vec<ModulePort>,
    outputs: &[PortDecl],
) -> Result<(), Memory>
    ensures value { OnOk result (map plain_port ports.new.items ≡
        map plain_port ports.old.items ++ with_numbers plain.output_port outputs.now) }
{
    for (number, output) in outputs.iter().enumerate() {
        ports.push(ModulePort {
            output: true,
            name: output_name(alloc, number)?,
            width: output.width,
        })?;
    }
    Ok(())
}

/// Adds `go`, the inputs, the outputs and `done` of a component.
fn add_signature(
    alloc: Global,
    ports: &mut Vec<ModulePort>,
    part: &NetComponent,
) -> Result<(), Memory>
    ensures value { OnOk result (map plain_port ports.new.items ≡
        map plain_port ports.old.items ++ plain.signature_of (plain_net_component part.now)) }
{
    ports.push(one_bit(alloc, false, "go")?)?;
    add_inputs(alloc, ports, &part.inputs)?;
    add_outputs(alloc, ports, &part.outputs)?;
    ports.push(one_bit(alloc, true, "done")?)?;
    Ok(())
}

/// The ports of a component's module.
pub fn module_ports(alloc: Global, part: &NetComponent) -> Result<Vec<ModulePort>, Memory>
    ensures value { IfOk result
        (λ ports. map plain_port ports.items ≡ plain.module_ports (plain_net_component part.now)) }
{
    let mut ports = Vec::new(alloc);
    ports.push(one_bit(alloc, false, "clk")?)?;
    ports.push(one_bit(alloc, false, "reset")?)?;
    add_signature(alloc, &mut ports, part)?;
    Ok(ports)
}

/// A port once more.
fn copied_port(alloc: Global, port: &ModulePort) -> Result<ModulePort, Memory>
    ensures value { IfOk result (λ copy. plain_port copy ≡ plain_port port.now) }
{
    Ok(ModulePort {
        output: port.output,
        name: Name::from_bytes(alloc, port.name.bytes())?,
        width: port.width,
    })
}

/// The ports behind the first two.
fn behind_two(ports: &[ModulePort]) -> &[ModulePort]
    ensures value { result.now ≡ drop 2 ports.now }
{
    if ports.len() < 2 { &[] } else { &ports[2..] }
}

/// Ports once more.
fn copied(alloc: Global, ports: &[ModulePort]) -> Result<Vec<ModulePort>, Memory>
    ensures value { IfOk result (λ copies. map plain_port copies.items ≡ map plain_port ports.now) }
{
    let mut copies = Vec::with_capacity(alloc, ports.len())?;
    for port in ports {
        copies.push(copied_port(alloc, port)?)?;
    }
    Ok(copies)
}

/// The ports of a component's cell. There are none where no component has the number.
fn part_ports(alloc: Global, net: &Net, number: u32) -> Result<Vec<ModulePort>, Memory>
    ensures value { IfOk result (λ ports.
        map plain_port ports.items ≡ plain.signature_at (slice_get (plain_net net.now).components number)) }
{
    let mut ports = Vec::new(alloc);
    if let Some(part) = net.components().get(number as usize) {
        add_signature(alloc, &mut ports, part)?;
    }
    Ok(ports)
}

/// The name of a primitive's module, and its ports behind the clock and the reset.
fn primitive_ports(alloc: Global, primitive: &Primitive) -> Result<CellPorts, Memory>
    ensures value { IfOk result (λ own. plain_cell_ports own ≡
        record {
          kind = primitive_name primitive.now;
          ports = drop 2 (plain.primitive_module primitive.now).ports;
        }) }
{
    let name = primitive_name(alloc, primitive)?;
    let module = primitive.module(alloc, &name)?;
    let ports = copied(alloc, behind_two(&module.ports))?;
    Ok(CellPorts {
        module: name,
        ports,
    })
}

/// The ports of a cell.
fn cell_ports(alloc: Global, net: &Net, cell: &Cell) -> Result<CellPorts, Memory>
    ensures value { IfOk result
        (λ own. plain_cell_ports own ≡ plain.cell_ports (plain_net net.now) (plain_cell cell.now)) }
{
    match &cell.kind {
        CellKind::Prim(primitive) => primitive_ports(alloc, primitive),
        CellKind::Part(part) => Ok(CellPorts {
            module: module_name(alloc, net.main(), *part as usize)?,
            ports: part_ports(alloc, net, *part)?,
        }),
    }
}

/// The ports of cells.
pub fn all_cell_ports(alloc: Global, net: &Net, cells: &[Cell]) -> Result<Vec<CellPorts>, Memory>
    ensures value { IfOk result (λ all. map plain_cell_ports all.items ≡
        map (plain.cell_ports (plain_net net.now)) (map plain_cell cells.now)) }
{
    let mut all = Vec::with_capacity(alloc, cells.len())?;
    for cell in cells {
        all.push(cell_ports(alloc, net, cell)?)?;
    }
    Ok(all)
}
