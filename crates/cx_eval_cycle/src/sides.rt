//! The ports of a primitive by their sides.

ghost use Rattle.std.specs.Prelude.{◌≡◌, ◌<◌, IfOk, length};
ghost use Rattle.cx_prim.specs.Table.{row_of};
ghost use Rattle.cx_eval_cycle.specs.Ports.{AreNumbered, is_side};
ghost use Rattle.cx_eval_cycle.specs.Stepping.{on_side};

use cx_cells::Primitive;
use cx_prim::{Cycle, Side};
use cx_text::Memory;
use std::alloc::Global;

/// Whether a side is this one of the sides that a cycle looks at.
fn is_on(side: Side, of: Side) -> bool
    ensures value { result ≡ is_side side of }
{
    matches!(
        (side, of),
        (Side::Enable, Side::Enable) | (Side::Plain, Side::Plain)
    )
}

/// Whether a port of a primitive is on a side.
fn has_side(primitive: &Primitive, side: Side, port: usize) -> bool
    requires within { port < length (row_of primitive.now).ports }
    ensures value { result ≡ on_side side (row_of primitive.now) port }
{
    is_on(side, primitive.port(port).side)
}

/// The numbers of the ports of a primitive that are on a side, ascending.
pub fn ports_on(alloc: Global, primitive: &Primitive, side: Side) -> Result<Vec<usize>, Memory>
    ensures value { IfOk result (λ numbers.
        AreNumbered (on_side side (row_of primitive.now)) (length (row_of primitive.now).ports) numbers.items) }
{
    let mut numbers = Vec::new(alloc);
    for port in 0..primitive.port_count() {
        if has_side(primitive, side, port) {
            numbers.push(port)?;
        }
    }
    Ok(numbers)
}
