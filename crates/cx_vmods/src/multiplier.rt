//! The module of a multiplier.

ghost use Rattle.std.specs.Prelude.{◌≡◌, IfOk, OnOk};
ghost use Rattle.cx_prim.specs.Widths.{IsWidth};
ghost use Rattle.cx_vmods.specs.Parts.{made_of, with_pieces};
ghost use Rattle.cx_vmods.specs.Clocked as plain;
ghost use Rattle.cx_vmods.specs.Shown.{parts_shown};

use crate::exprs::{binary_nets, choice_by, net};
use crate::parts::Parts;
use cx_text::Memory;
use cx_vtree::Operator;
use std::alloc::Global;

impl Parts {
    /// A register that takes an input in the first cycle.
    fn operand(&mut self, alloc: Global, name: &str, width: u8, input: &str) -> Result<(), Memory>
        requires { IsWidth width }
        ensures value { OnOk result (parts_shown self.new ≡
            with_pieces (parts_shown self.old) (plain.operand name.now width input.now)) }
    {
        let next = choice_by(alloc, "starts", net(alloc, input)?, net(alloc, name)?)?;
        self.register(alloc, name, width, next)
    }
}

/// A multiplier, whose product comes in the third cycle with `go`.
#[tactic(auto, unfolding(crate::specs::Clocked::multiplier))]
pub fn multiplier(alloc: Global, width: u8) -> Result<Parts, Memory>
    requires { IsWidth width }
    ensures value { IfOk result (λ parts. parts_shown parts ≡ made_of (plain.multiplier width)) }
{
    let mut parts = Parts::none(alloc);
    parts.count_to(alloc, 2, 2)?;
    parts.starts(alloc, 2)?;
    parts.operand(alloc, "held_left", width, "left")?;
    parts.operand(alloc, "held_right", width, "right")?;
    let product = binary_nets(alloc, Operator::Multiply, "held_left", "held_right")?;
    parts.answer(alloc, "product", width, product)?;
    parts.output_net(alloc, "out", "product")?;
    Ok(parts)
}
