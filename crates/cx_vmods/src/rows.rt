//! The ports of a module.

ghost use Rattle.std.specs.Prelude.{◌≡◌, [], ◌∷◌, ◌++◌, IfOk, OnOk, map};
ghost use Rattle.cx_prim.specs.Table.{row_of};
ghost use Rattle.cx_vtree.specs.PlainParts as plain;
ghost use Rattle.cx_vmods.specs.Modules.{port_of, ports_of, input};

use crate::spelling::spelled;
use cx_cells::Primitive;
use cx_prim::{Cycle, PortRow, Side};
use cx_text::{Memory, Name};
use cx_vtree::ModulePort;
use std::alloc::Global;

/// The clock and the reset, and behind them the ports of the row in their order.
pub fn ports(alloc: Global, primitive: &Primitive) -> Result<Vec<ModulePort>, Memory>
    ensures value { IfOk result (λ ports. map plain.plain_port ports.items ≡ ports_of (row_of primitive.now)) }
{
    let mut ports = Vec::with_capacity(alloc, 8)?;
    ports.push(input(alloc, "clk")?)?;
    ports.push(input(alloc, "reset")?)?;
    for n in 0..primitive.port_count() {
        push(alloc, &mut ports, primitive.port(n))?;
    }
    Ok(ports)
}

/// An input of one bit.
fn input(alloc: Global, name: &str) -> Result<ModulePort, Memory>
    ensures value { IfOk result (λ port. plain.plain_port port ≡ input name.now) }
{
    Ok(ModulePort {
        output: false,
        name: Name::from_bytes(alloc, name.as_bytes())?,
        width: 1,
    })
}

/// One port of the row more.
fn push(alloc: Global, ports: &mut Vec<ModulePort>, row: PortRow) -> Result<(), Memory>
    ensures value { OnOk result
        (map plain.plain_port ports.new.items ≡ map plain.plain_port ports.old.items ++ port_of row ∷ []) }
{
    let output = match row.side {
        Side::Enable | Side::Plain => false,
        Side::Output | Side::Registered => true,
    };
    let name = spelled(alloc, row.name.text())?;
    ports.push(ModulePort {
        output,
        name,
        width: row.width,
    })?;
    Ok(())
}
