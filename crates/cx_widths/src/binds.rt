//! The inputs that static invokes bind.

ghost use Rattle.std.specs.Prelude.{◌≡◌, ◌++◌, IfOk, flat_map, map};
ghost use Rattle.cx_design.specs.PlainForms.{plain_assigns, plain_invoke};
ghost use Rattle.cx_widths.specs.Binds.{plain_binds};

use cx_design::{Assign, StaticInvoke};
use cx_text::Memory;
use std::alloc::Global;

/// The inputs that these invokes bind, in their order.
pub fn binds<'a>(alloc: Global, invokes: &'a [StaticInvoke]) -> Result<Vec<&'a Assign>, Memory>
    ensures value { IfOk result
        (λ list. plain_binds list.items ≡ flat_map (λ v. v.inputs) (map plain_invoke invokes.now)) }
{
    let mut list = Vec::new(alloc);
    for invoke in invokes {
        append(&mut list, invoke.inputs.as_slice())?;
    }
    Ok(list)
}

/// Adds the inputs of one invoke.
fn append<'a>(list: &mut Vec<&'a Assign>, assigns: &'a [Assign]) -> Result<(), Memory>
    ensures value { IfOk result
        (λ _. plain_binds list.new.items ≡ plain_binds list.old.items ++ plain_assigns assigns.now) }
{
    for assign in assigns {
        list.push(assign)?;
    }
    Ok(())
}
