//! Ports of a primitive.

ghost use Rattle.std.specs.Prelude.{◌≡◌};
ghost use Rattle.cx_prim.specs.Table.{row_of};
ghost use Rattle.cx_meaning.specs.Rows.{side_of};
ghost use Rattle.cx_design_parts.specs.Outputs as outputs;

use cx_cells::Primitive;
use cx_prim::{Cycle, PortName, PortRow, Side};

/// What a port is to its primitive. One that is not there counts as registered.
pub fn side(primitive: &Primitive, port: u32) -> Side
    ensures value { result ≡ side_of (row_of primitive.now) port }
{
    let port = port as usize;
    if port < primitive.port_count() {
        primitive.port(port).side
    } else {
        Side::Registered
    }
}

/// How many ports the combinational outputs read: the first so many.
pub fn read_count(primitive: &Primitive) -> usize
    ensures value { result ≡ outputs.read_count (row_of primitive.now).ports }
{
    for port in 0..primitive.port_count() {
        if !is_read(primitive.port(port)) {
            return port;
        }
    }
    primitive.port_count()
}

/// Whether a port is a plain input that is not the data of a write.
fn is_read(port: PortRow) -> bool
    ensures value { result ≡ outputs.is_read_port port }
{
    matches!(port.side, Side::Plain) && !matches!(port.name, PortName::WriteData)
}
