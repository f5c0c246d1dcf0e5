//! Which component cell a group calls, and whether it captures.

ghost use Rattle.std.specs.Prelude.{◌≡◌, ◌<◌, length};
ghost use Rattle.cx_meaning.specs.Calls.{called_in, captures_in};
ghost use Rattle.cx_meaning.specs.Instances.{cells_of};
ghost use Rattle.cx_rules.specs.Ports.{component_of};
ghost use Rattle.cx_design.specs.PlainForms.{plain_assigns};
ghost use Rattle.cx_design.specs.PlainDesigns.{plain_design};

use cx_callees::callee_of;
use cx_design::{Assign, Design};
use cx_design_parts::is_primitive_enable;

/// The first component cell of which assignments of a component drive a port.
pub(crate) fn first_callee(design: &Design, number: usize, assigns: &[Assign]) -> Option<u32>
    requires within { number < length design.now.components.items }
    ensures value { result ≡
        called_in (cells_of (component_of (plain_design design.now) number)) (plain_assigns assigns.now) }
{
    for assign in assigns {
        if let Some(callee) = callee_of(design, number, assign.target) {
            return Some(callee.cell);
        }
    }
    None
}

/// Whether assignments of a component drive an enabling port of a primitive cell.
pub(crate) fn drive_enables(design: &Design, number: usize, assigns: &[Assign]) -> bool
    requires within { number < length design.now.components.items }
    ensures value { result ≡
        captures_in (cells_of (component_of (plain_design design.now) number)) (plain_assigns assigns.now) }
{
    for assign in assigns {
        if is_primitive_enable(design, number, assign.target) {
            return true;
        }
    }
    false
}
