//! Expressions of modules.

ghost use Rattle.std.specs.Prelude.{◌≡◌, IfOk};
ghost use Rattle.cx_prim.specs.Widths.{IsWidth};
ghost use Rattle.cx_vtree.specs.Plain.{Applied, Inverted, Chosen, Joined};
ghost use Rattle.cx_vtree.specs.PlainParts.{plain_expr};
ghost use Rattle.cx_vmods.specs.Parts.{literal};
ghost use Rattle.cx_vmods.specs.Spelling as plain;

use crate::spelling::spelled;
use cx_bits::Bits;
use cx_text::Memory;
use cx_vtree::{Expr, Operator};
use std::alloc::Global;

/// An input, a wire or a register.
pub fn net(alloc: Global, name: &str) -> Result<Expr, Memory>
    ensures value { IfOk result (λ e. plain_expr e ≡ plain.net name.now) }
{
    Ok(Expr::Net(spelled(alloc, name)?))
}

/// A number modulo two to the width.
pub fn literal(width: u8, number: u128) -> Expr
    requires { IsWidth width }
    ensures value { plain_expr result ≡ literal width number }
{
    match Bits::new(128, number) {
        Some(bits) => Expr::Literal(bits.low(width)),
        None => unreachable!(),
    }
}

/// Bits of a net, from `high` down to `low`.
pub fn part(alloc: Global, name: &str, high: u8, low: u8) -> Result<Expr, Memory>
    ensures value { IfOk result (λ e. plain_expr e ≡ plain.part name.now high low) }
{
    let name = spelled(alloc, name)?;
    Ok(Expr::Slice(name, high, low))
}

/// The word of an array at the number that a net holds.
pub fn word(alloc: Global, array: &str, index: &str) -> Result<Expr, Memory>
    ensures value { IfOk result (λ e. plain_expr e ≡ plain.word array.now (plain.net index.now)) }
{
    let array = spelled(alloc, array)?;
    let index = net(alloc, index)?;
    Ok(Expr::Item(array, Box::new(alloc, index)?))
}

/// An operator on two expressions.
pub fn binary(alloc: Global, operator: Operator, left: Expr, right: Expr) -> Result<Expr, Memory>
    ensures value { IfOk result (λ e. plain_expr e ≡ Applied operator (plain_expr left) (plain_expr right)) }
{
    let left = Box::new(alloc, left)?;
    Ok(Expr::Binary(operator, left, Box::new(alloc, right)?))
}

/// An operator on two nets.
pub fn binary_nets(
    alloc: Global,
    operator: Operator,
    left: &str,
    right: &str,
) -> Result<Expr, Memory>
    ensures value { IfOk result (λ e. plain_expr e ≡ Applied operator (plain.net left.now) (plain.net right.now)) }
{
    let left = net(alloc, left)?;
    let right = net(alloc, right)?;
    binary(alloc, operator, left, right)
}

/// Each bit of a net inverted.
pub fn inverted(alloc: Global, name: &str) -> Result<Expr, Memory>
    ensures value { IfOk result (λ e. plain_expr e ≡ Inverted (plain.net name.now)) }
{
    let inner = net(alloc, name)?;
    Ok(Expr::Not(Box::new(alloc, inner)?))
}

/// The second where the first is not 0, else the third.
pub fn choice(alloc: Global, test: Expr, one: Expr, other: Expr) -> Result<Expr, Memory>
    ensures value { IfOk result (λ e. plain_expr e ≡ Chosen (plain_expr test) (plain_expr one) (plain_expr other)) }
{
    let test = Box::new(alloc, test)?;
    let one = Box::new(alloc, one)?;
    Ok(Expr::Choose(test, one, Box::new(alloc, other)?))
}

/// One expression where a net is not 0, else another.
pub fn choice_by(alloc: Global, test: &str, one: Expr, other: Expr) -> Result<Expr, Memory>
    ensures value { IfOk result (λ e. plain_expr e ≡ Chosen (plain.net test.now) (plain_expr one) (plain_expr other)) }
{
    let test = net(alloc, test)?;
    choice(alloc, test, one, other)
}

/// The first above the second.
pub fn joined(alloc: Global, high: Expr, low: Expr) -> Result<Expr, Memory>
    ensures value { IfOk result (λ e. plain_expr e ≡ Joined (plain_expr high) (plain_expr low)) }
{
    let high = Box::new(alloc, high)?;
    Ok(Expr::Cat(high, Box::new(alloc, low)?))
}
