//! Expressions.

ghost use Rattle.std.specs.Prelude.{◌≡◌, IfOk, codes, map};
ghost use Rattle.cx_bits.specs.BitVector.{Fits};
ghost use Rattle.cx_net.specs.Nets.{exprs_of};
ghost use Rattle.cx_net.specs.PlainNets.{plain_net_expr};
ghost use Rattle.cx_prim.specs.Widths.{IsWidth};
ghost use Rattle.cx_vtree.specs.Plain.{Named};
ghost use Rattle.cx_vtree.specs.PlainParts.{plain_expr};
ghost use Rattle.cx_emit.specs.Emitted.{AllLiteralsFit, LiteralsFit, PortFits};
ghost use Rattle.cx_emit.specs.Exprs as plain;
ghost use Rattle.cx_emit.specs.Names.{register_name, undeclared_name, wire_name};

use crate::folding::{binary, folded};
use crate::names;
use crate::names::{cell_port_name, input_name, output_name};
use cx_bits::Bits;
use cx_meaning::{Comparison, PortRef};
use cx_net::NetExpr;
use cx_text::{Memory, Name};
use cx_vtree::{Expr, Operator};
use std::alloc::Global;

/// A number of a width.
fn literal(width: u8, value: u128) -> Expr
    requires fits { Fits (record { width = width; value = value }) }
    ensures value { plain_expr result ≡ plain.literal width value }
{
    match Bits::new(width, value) {
        Some(bits) => Expr::Literal(bits),
        None => unreachable!(),
    }
}

/// The number 0 of a width.
pub fn zero(width: u8) -> Expr
    requires wide { IsWidth width }
    ensures value { plain_expr result ≡ plain.literal width 0 }
{
    literal(width, 0)
}

/// A literal in the place of a port.
fn literal_port(width: u32, value: u128) -> Expr
    requires fits { Fits (record { width = width; value = value }) }
    ensures value { plain_expr result ≡ plain.literal width value }
{
    match u8::try_from(width) {
        Ok(width) => literal(width, value),
        Err(_) => unreachable!(),
    }
}

/// A port.
fn port_expr(alloc: Global, port: PortRef) -> Result<Expr, Memory>
    requires fits { PortFits port }
    ensures value { IfOk result (λ e. plain_expr e ≡ plain.port_expr port) }
{
    match port {
        PortRef::Cell(cell, port) => {
            Ok(Expr::Net(cell_port_name(alloc, cell as usize, port as usize)?))
        }
        PortRef::Input(number) => Ok(Expr::Net(input_name(alloc, number as usize)?)),
        PortRef::Output(number) => Ok(Expr::Net(output_name(alloc, number as usize)?)),
        PortRef::Done(_) => undeclared_expr(alloc),
        PortRef::Literal(width, value) => Ok(literal_port(width, value)),
    }
}

/// The operator of a comparison.
fn operator_of(comparison: Comparison) -> Operator
    ensures value { result ≡ plain.operator_of comparison }
{
    match comparison {
        Comparison::Equal => Operator::Equal,
        Comparison::NotEqual => Operator::NotEqual,
        Comparison::Less => Operator::Less,
        Comparison::Greater => Operator::Greater,
        Comparison::AtMost => Operator::AtMost,
        Comparison::AtLeast => Operator::AtLeast,
    }
}

/// A register.
fn register_expr(alloc: Global, number: u32) -> Result<Expr, Memory>
    ensures value { IfOk result (λ e. plain_expr e ≡ Named (register_name number)) }
{
    Ok(Expr::Net(names::register_name(alloc, number as usize)?))
}

/// A wire.
fn wire_expr(alloc: Global, number: u32) -> Result<Expr, Memory>
    ensures value { IfOk result (λ e. plain_expr e ≡ Named (wire_name number)) }
{
    Ok(Expr::Net(names::wire_name(alloc, number as usize)?))
}

/// The `go` of the component.
fn go_expr(alloc: Global) -> Result<Expr, Memory>
    ensures value { IfOk result (λ e. plain_expr e ≡ Named (codes "go")) }
{
    Ok(Expr::Net(Name::from_bytes(alloc, b"go")?))
}

/// What no text declares.
fn undeclared_expr(alloc: Global) -> Result<Expr, Memory>
    ensures value { IfOk result (λ e. plain_expr e ≡ Named undeclared_name) }
{
    Ok(Expr::Net(names::undeclared_name(alloc)?))
}

/// Whether all parts are 1.
fn all(alloc: Global, parts: Vec<Expr>) -> Result<Expr, Memory>
    ensures value { IfOk result
        (λ e. plain_expr e ≡ plain.folded Operator.And (plain.literal 1 1) (map plain_expr parts.items)) }
{
    folded(alloc, Operator::And, literal(1, 1), parts)
}

/// Whether a part is 1.
fn any(alloc: Global, parts: Vec<Expr>) -> Result<Expr, Memory>
    ensures value { IfOk result
        (λ e. plain_expr e ≡ plain.folded Operator.Or (plain.literal 1 0) (map plain_expr parts.items)) }
{
    folded(alloc, Operator::Or, zero(1), parts)
}

/// Expressions of a net.
#[cycle(expr)]
fn exprs(alloc: Global, parts: &[NetExpr]) -> Result<Vec<Expr>, Memory>
    requires fits { AllLiteralsFit (exprs_of (map plain_net_expr parts.now)) }
    ensures value { IfOk result
        (λ es. map plain_expr es.items ≡ plain.exprs_to (exprs_of (map plain_net_expr parts.now))) }
{
    let mut made = Vec::with_capacity(alloc, parts.len())?;
    for part in parts {
        made.push(expr(alloc, part)?)?;
    }
    Ok(made)
}

/// An expression of a net.
#[cycle(expr)]
pub fn expr(alloc: Global, e: &NetExpr) -> Result<Expr, Memory>
    requires fits { LiteralsFit (plain_net_expr e.now) }
    ensures value { IfOk result (λ made. plain_expr made ≡ plain.expr_of (plain_net_expr e.now)) }
{
    match e {
        NetExpr::Port(port) => port_expr(alloc, *port),
        NetExpr::Register(number) => register_expr(alloc, *number),
        NetExpr::Wire(number) => wire_expr(alloc, *number),
        NetExpr::Hole(_) => undeclared_expr(alloc),
        NetExpr::Go => go_expr(alloc),
        NetExpr::Literal(bits) => Ok(Expr::Literal(*bits)),
        NetExpr::Not(inner) => {
            let inner = expr(alloc, inner)?;
            Ok(Expr::Not(Box::new(alloc, inner)?))
        }
        NetExpr::And(parts) => all(alloc, exprs(alloc, parts)?),
        NetExpr::Or(parts) => any(alloc, exprs(alloc, parts)?),
        NetExpr::Add(left, right) => {
            let left = expr(alloc, left)?;
            binary(alloc, Operator::Add, left, expr(alloc, right)?)
        }
        NetExpr::Compare(comparison, left, right) => {
            let left = expr(alloc, left)?;
            binary(alloc, operator_of(*comparison), left, expr(alloc, right)?)
        }
    }
}
