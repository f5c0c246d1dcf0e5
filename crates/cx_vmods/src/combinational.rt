//! The modules of primitives without a state.

ghost use Rattle.std.specs.Prelude.{◌≡◌, IfOk};
ghost use Rattle.cx_prim.specs.Widths.{IsWidth};
ghost use Rattle.cx_vtree.specs.PlainParts.{plain_expr};
ghost use Rattle.cx_vmods.specs.Parts.{made_of};
ghost use Rattle.cx_vmods.specs.Combinational as plain;
ghost use Rattle.cx_vmods.specs.Shown.{parts_shown};

use crate::exprs::{binary, binary_nets, choice, choice_by, inverted, joined, literal, net, part};
use crate::parts::Parts;
use cx_text::Memory;
use cx_vtree::{Expr, Operator};
use std::alloc::Global;

/// A module whose `out` has the value of an expression.
fn giving(alloc: Global, value: Expr) -> Result<Parts, Memory>
    ensures value { IfOk result (λ parts. parts_shown parts ≡ made_of (plain.giving (plain_expr value))) }
{
    let mut parts = Parts::none(alloc);
    parts.output(alloc, "out", value)?;
    Ok(parts)
}

/// A number.
pub fn constant(alloc: Global, width: u8, value: u64) -> Result<Parts, Memory>
    requires { IsWidth width }
    ensures value { IfOk result (λ parts. parts_shown parts ≡ made_of (plain.constant width value)) }
{
    giving(alloc, literal(width, u128::from(value)))
}

/// The input.
pub fn wire(alloc: Global) -> Result<Parts, Memory>
    ensures value { IfOk result (λ parts. parts_shown parts ≡ made_of plain.wire) }
{
    giving(alloc, net(alloc, "in")?)
}

/// Each bit of the input inverted.
pub fn complement(alloc: Global) -> Result<Parts, Memory>
    ensures value { IfOk result (λ parts. parts_shown parts ≡ made_of plain.complement) }
{
    giving(alloc, inverted(alloc, "in")?)
}

/// The low bits of the input.
pub fn slice(alloc: Global, out_width: u8) -> Result<Parts, Memory>
    requires { IsWidth out_width }
    ensures value { IfOk result (λ parts. parts_shown parts ≡ made_of (plain.slice out_width)) }
{
    giving(alloc, part(alloc, "in", out_width - 1, 0)?)
}

/// The input below zeros.
pub fn pad(alloc: Global, width: u8, out_width: u8) -> Result<Parts, Memory>
    requires input { IsWidth width }
    requires output { IsWidth out_width }
    ensures value { IfOk result (λ parts. parts_shown parts ≡ made_of (plain.pad width out_width)) }
{
    if out_width <= width {
        return wire(alloc);
    }
    let zeros = literal(out_width - width, 0);
    giving(alloc, joined(alloc, zeros, net(alloc, "in")?)?)
}

/// An operator on `left` and `right`.
pub fn operator(alloc: Global, operator: Operator) -> Result<Parts, Memory>
    ensures value { IfOk result (λ parts. parts_shown parts ≡ made_of (plain.operator operator)) }
{
    giving(alloc, binary_nets(alloc, operator, "left", "right")?)
}

/// A shift of `left` by `right`. Of more than 32 bits the amount is cut to eight, behind a comparison with the width.
pub fn shift(alloc: Global, operator: Operator, width: u8) -> Result<Parts, Memory>
    requires { IsWidth width }
    ensures value { IfOk result (λ parts. parts_shown parts ≡ made_of (plain.shift operator width)) }
{
    if width <= 32 {
        return crate::combinational::operator(alloc, operator);
    }
    let left = net(alloc, "left")?;
    let low = part(alloc, "right", 7, 0)?;
    let amount = joined(alloc, literal(width - 8, 0), low)?;
    let shifted = binary(alloc, operator, left, amount)?;
    let bits = literal(width, u128::from(width));
    let within = binary(alloc, Operator::Less, net(alloc, "right")?, bits)?;
    giving(alloc, choice(alloc, within, shifted, literal(width, 0))?)
}

/// A comparison of numbers in two's complement, which are in the order of what they are with the top bit inverted.
pub fn signed(alloc: Global, operator: Operator, width: u8) -> Result<Parts, Memory>
    requires { IsWidth width }
    ensures value { IfOk result (λ parts. parts_shown parts ≡ made_of (plain.signed operator width)) }
{
    let left = offset(alloc, "left", width)?;
    let right = offset(alloc, "right", width)?;
    giving(alloc, binary(alloc, operator, left, right)?)
}

/// A net with its top bit inverted.
fn offset(alloc: Global, name: &str, width: u8) -> Result<Expr, Memory>
    requires { IsWidth width }
    ensures value { IfOk result (λ e. plain_expr e ≡ plain.offset name.now width) }
{
    let top = literal(width, 1 << (width - 1));
    binary(alloc, Operator::Xor, net(alloc, name)?, top)
}

/// `tru` where `cond` is 1, else `fal`.
pub fn mux(alloc: Global) -> Result<Parts, Memory>
    ensures value { IfOk result (λ parts. parts_shown parts ≡ made_of plain.mux) }
{
    let one = net(alloc, "tru")?;
    let other = net(alloc, "fal")?;
    giving(alloc, choice_by(alloc, "cond", one, other)?)
}
