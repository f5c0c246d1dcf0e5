//! The module of a timer.

ghost use Rattle.std.specs.Prelude.{◌≡◌, ◌≤◌, IfOk};
ghost use Rattle.cx_vmods.specs.Parts.{made_of};
ghost use Rattle.cx_vmods.specs.Clocked as plain;
ghost use Rattle.cx_vmods.specs.Shown.{parts_shown};

use crate::parts::Parts;
use cx_text::Memory;
use std::alloc::Global;

/// A counter of cycles with `go`.
pub fn timer(alloc: Global, length: u32) -> Result<Parts, Memory>
    requires { 1 ≤ length }
    ensures value { IfOk result (λ parts. parts_shown parts ≡ made_of (plain.timer length)) }
{
    let mut parts = Parts::none(alloc);
    parts.count_to(alloc, 32, length - 1)?;
    parts.output_net(alloc, "out", "count")?;
    Ok(parts)
}
