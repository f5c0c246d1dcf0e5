//! Expressions without holes.

ghost use Rattle.std.specs.Prelude.{◌≡◌, ◌+◌, IfOk, map};
ghost use Rattle.cx_net.specs.PlainNets.{plain_net_expr};
ghost use Rattle.cx_holes.specs.Inlining.{inlined_expr};

use cx_net::NetExpr;
use cx_text::Memory;
use std::alloc::Global;

/// The wire that a hole becomes, behind the first so many. Wires that no `u32` counts are too many for any memory.
pub(crate) fn hole_wire(first: u32, hole: u32) -> Result<u32, Memory>
    ensures value { IfOk result (λ wire. wire ≡ first + hole) }
{
    match first.checked_add(hole) {
        Some(wire) => Ok(wire),
        None => Err(Memory),
    }
}

/// The same expression with wires from the first on in place of the holes.
#[cycle(holes)]
pub(crate) fn without_holes(alloc: Global, first: u32, expr: &NetExpr) -> Result<NetExpr, Memory>
    ensures value { IfOk result (λ e. plain_net_expr e ≡ inlined_expr first (plain_net_expr expr.now)) }
{
    match expr {
        NetExpr::Port(port) => Ok(NetExpr::Port(*port)),
        NetExpr::Register(register) => Ok(NetExpr::Register(*register)),
        NetExpr::Wire(wire) => Ok(NetExpr::Wire(*wire)),
        NetExpr::Hole(hole) => Ok(NetExpr::Wire(hole_wire(first, *hole)?)),
        NetExpr::Go => Ok(NetExpr::Go),
        NetExpr::Literal(bits) => Ok(NetExpr::Literal(*bits)),
        NetExpr::Not(inner) => {
            let inner = without_holes(alloc, first, inner)?;
            Ok(NetExpr::Not(Box::new(alloc, inner)?))
        }
        NetExpr::And(parts) => Ok(NetExpr::And(all_without_holes(alloc, first, parts)?)),
        NetExpr::Or(parts) => Ok(NetExpr::Or(all_without_holes(alloc, first, parts)?)),
        NetExpr::Add(one, other) => {
            let one = Box::new(alloc, without_holes(alloc, first, one)?)?;
            let other = Box::new(alloc, without_holes(alloc, first, other)?)?;
            Ok(NetExpr::Add(one, other))
        }
        NetExpr::Compare(comparison, one, other) => {
            let one = Box::new(alloc, without_holes(alloc, first, one)?)?;
            let other = Box::new(alloc, without_holes(alloc, first, other)?)?;
            Ok(NetExpr::Compare(*comparison, one, other))
        }
    }
}

/// The same expressions with wires from the first on in place of the holes.
#[cycle(holes)]
fn all_without_holes(alloc: Global, first: u32, exprs: &[NetExpr]) -> Result<Vec<NetExpr>, Memory>
    ensures value { IfOk result
        (λ list. map plain_net_expr list.items ≡ map (inlined_expr first) (map plain_net_expr exprs.now)) }
{
    let mut list = Vec::with_capacity(alloc, exprs.len())?;
    for expr in exprs {
        list.push(without_holes(alloc, first, expr)?)?;
    }
    Ok(list)
}
