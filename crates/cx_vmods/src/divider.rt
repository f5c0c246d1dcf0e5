//! The module of a divider, which makes one bit of the quotient in each cycle.

ghost use Rattle.std.specs.Prelude.{◌≡◌, IfOk, OnOk};
ghost use Rattle.cx_prim.specs.Widths.{IsWidth};
ghost use Rattle.cx_vtree.specs.PlainParts.{plain_expr};
ghost use Rattle.cx_vmods.specs.Parts.{made_of, with_pieces};
ghost use Rattle.cx_vmods.specs.Clocked as plain;
ghost use Rattle.cx_vmods.specs.Shown.{parts_shown};

use crate::exprs::{binary, binary_nets, choice_by, literal, net, part};
use crate::parts::Parts;
use crate::widths::bits_for;
use cx_text::Memory;
use cx_vtree::{Expr, Operator};
use std::alloc::Global;

/// A net shifted by a number of bits.
fn shifted(
    alloc: Global,
    operator: Operator,
    name: &str,
    width: u8,
    bits: u8,
) -> Result<Expr, Memory>
    requires { IsWidth width }
    ensures value { IfOk result (λ e. plain_expr e ≡ plain.shifted operator name.now width bits) }
{
    let amount = literal(width, u128::from(bits));
    binary(alloc, operator, net(alloc, name)?, amount)
}

/// Whether the divisor goes into the remainder with one more bit of the dividend.
fn takes(alloc: Global, width: u8) -> Result<Expr, Memory>
    requires { IsWidth width }
    ensures value { IfOk result (λ e. plain_expr e ≡ plain.takes width) }
{
    let above = part(alloc, "rest_now", width - 1, width - 1)?;
    let reaches = binary_nets(alloc, Operator::AtLeast, "longer", "divisor_now")?;
    binary(alloc, Operator::Or, above, reaches)
}

/// The remainder after this cycle.
fn rest_next(alloc: Global) -> Result<Expr, Memory>
    ensures value { IfOk result (λ e. plain_expr e ≡ plain.rest_next) }
{
    let less = binary_nets(alloc, Operator::Subtract, "longer", "divisor_now")?;
    let same = net(alloc, "longer")?;
    choice_by(alloc, "takes", less, same)
}

/// The bits of the dividend that are left, and below them those of the quotient so far.
fn digits_next(alloc: Global, width: u8) -> Result<Expr, Memory>
    requires { IsWidth width }
    ensures value { IfOk result (λ e. plain_expr e ≡ plain.digits_next width) }
{
    let digits = shifted(alloc, Operator::ShiftLeft, "digits_now", width, 1)?;
    let bit = choice_by(alloc, "takes", literal(width, 1), literal(width, 0))?;
    binary(alloc, Operator::Add, digits, bit)
}

impl Parts {
    /// A wire that is a value in the first cycle, and a register in the others.
    fn current(
        &mut self,
        alloc: Global,
        name: &str,
        width: u8,
        first: Expr,
        held: &str,
    ) -> Result<(), Memory>
        ensures value { OnOk result (parts_shown self.new ≡
            with_pieces (parts_shown self.old) (plain.current name.now width (plain_expr first) held.now)) }
    {
        let value = choice_by(alloc, "starts", first, net(alloc, held)?)?;
        self.wire(alloc, name, width, value)
    }

    /// What the divider works on in this cycle: the remainder so far, the bits of the dividend above those of the
    /// quotient, and the divisor.
    fn operands(&mut self, alloc: Global, width: u8) -> Result<(), Memory>
        requires { IsWidth width }
        ensures value { OnOk result (parts_shown self.new ≡ with_pieces (parts_shown self.old) (plain.operands width)) }
    {
        self.current(alloc, "rest_now", width, literal(width, 0), "rest")?;
        self.current(alloc, "digits_now", width, net(alloc, "left")?, "digits")?;
        self.current(alloc, "divisor_now", width, net(alloc, "right")?, "divisor")
    }

    /// The remainder with the next bit of the dividend below it, and whether the divisor goes into it.
    fn longer(&mut self, alloc: Global, width: u8) -> Result<(), Memory>
        requires { IsWidth width }
        ensures value { OnOk result (parts_shown self.new ≡ with_pieces (parts_shown self.old) (plain.longer width)) }
    {
        let rest = shifted(alloc, Operator::ShiftLeft, "rest_now", width, 1)?;
        let top = shifted(alloc, Operator::ShiftRight, "digits_now", width, width - 1)?;
        let both = binary(alloc, Operator::Add, rest, top)?;
        self.wire(alloc, "longer", width, both)?;
        let goes = takes(alloc, width)?;
        self.wire(alloc, "takes", 1, goes)?;
        Ok(())
    }

    /// One bit of the quotient: where the divisor goes into the remainder it is taken off, and the bit is 1.
    fn one_bit(&mut self, alloc: Global, width: u8) -> Result<(), Memory>
        requires { IsWidth width }
        ensures value { OnOk result (parts_shown self.new ≡ with_pieces (parts_shown self.old) (plain.one_bit width)) }
    {
        let rest = rest_next(alloc)?;
        self.wire(alloc, "rest_next", width, rest)?;
        let digits = digits_next(alloc, width)?;
        self.wire(alloc, "digits_next", width, digits)?;
        Ok(())
    }

    /// What the divider holds between its cycles.
    fn holding(&mut self, alloc: Global, width: u8) -> Result<(), Memory>
        requires { IsWidth width }
        ensures value { OnOk result (parts_shown self.new ≡ with_pieces (parts_shown self.old) (plain.holding width)) }
    {
        let rest = net(alloc, "rest_next")?;
        self.register(alloc, "rest", width, rest)?;
        let digits = net(alloc, "digits_next")?;
        self.register(alloc, "digits", width, digits)?;
        let divisor = net(alloc, "divisor_now")?;
        self.register(alloc, "divisor", width, divisor)?;
        Ok(())
    }

    /// What happens in each cycle of a division.
    fn division(&mut self, alloc: Global, width: u8) -> Result<(), Memory>
        requires { IsWidth width }
        ensures value { OnOk result (parts_shown self.new ≡ with_pieces (parts_shown self.old) (plain.division width)) }
    {
        self.operands(alloc, width)?;
        self.longer(alloc, width)?;
        self.one_bit(alloc, width)?;
        self.holding(alloc, width)?;
        Ok(())
    }

    /// A register that takes the value of a net after the last cycle, and the output that shows it.
    fn result(
        &mut self,
        alloc: Global,
        name: &str,
        width: u8,
        from: &str,
        output: &str,
    ) -> Result<(), Memory>
        requires { IsWidth width }
        ensures value { OnOk result (parts_shown self.new ≡
            with_pieces (parts_shown self.old) (plain.result name.now width from.now output.now)) }
    {
        let value = net(alloc, from)?;
        self.answer(alloc, name, width, value)?;
        self.output_net(alloc, output, name)?;
        Ok(())
    }
}

/// A divider, whose answers come after as many cycles with `go` as the width has bits.
#[tactic(auto, unfolding(crate::specs::Clocked::divider))]
pub fn divider(alloc: Global, width: u8) -> Result<Parts, Memory>
    requires { IsWidth width }
    ensures value { IfOk result (λ parts. parts_shown parts ≡ made_of (plain.divider width)) }
{
    let count_width = bits_for(u32::from(width));
    let mut parts = Parts::none(alloc);
    parts.count_to(alloc, count_width, u32::from(width) - 1)?;
    parts.starts(alloc, count_width)?;
    parts.division(alloc, width)?;
    parts.result(alloc, "quotient", width, "digits_next", "out_quotient")?;
    parts.result(alloc, "remainder", width, "rest_next", "out_remainder")?;
    Ok(parts)
}
