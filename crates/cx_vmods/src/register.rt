//! The module of a register.

ghost use Rattle.std.specs.Prelude.{◌≡◌, IfOk, OnOk};
ghost use Rattle.cx_prim.specs.Widths.{IsWidth};
ghost use Rattle.cx_vmods.specs.Parts.{made_of, with_pieces};
ghost use Rattle.cx_vmods.specs.Clocked as plain;
ghost use Rattle.cx_vmods.specs.Shown.{parts_shown};

use crate::exprs::{choice_by, net};
use crate::parts::Parts;
use cx_text::Memory;
use std::alloc::Global;

impl Parts {
    /// A register that takes `in` with `write_en`.
    fn taking(&mut self, alloc: Global, width: u8) -> Result<(), Memory>
        requires { IsWidth width }
        ensures value { OnOk result (parts_shown self.new ≡ with_pieces (parts_shown self.old) (plain.taking width)) }
    {
        let new = net(alloc, "in")?;
        let old = net(alloc, "held")?;
        let next = choice_by(alloc, "write_en", new, old)?;
        self.register(alloc, "held", width, next)?;
        Ok(())
    }
}

/// A register, which holds its value and `done`.
pub fn register(alloc: Global, width: u8) -> Result<Parts, Memory>
    requires { IsWidth width }
    ensures value { IfOk result (λ parts. parts_shown parts ≡ made_of (plain.register width)) }
{
    let mut parts = Parts::none(alloc);
    parts.taking(alloc, width)?;
    parts.done_after(alloc, "write_en")?;
    parts.output_net(alloc, "out", "held")?;
    Ok(parts)
}
