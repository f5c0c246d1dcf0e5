//! The rules on the condition of a statement.

ghost use Rattle.std.specs.Prelude.{◌≡◌, ◌<◌, IfOk, length};
ghost use Rattle.cx_rules.specs.Ports.{component_of};
ghost use Rattle.cx_design.specs.PlainDesigns.{plain_design};
ghost use Rattle.cx_design_parts.specs.Breaks.{first_of, plain_spot};
ghost use Rattle.cx_widths.specs.WidthBreaks.{condition_breaks};

use crate::assigns::add_operand;
use crate::telling::add_port;
use crate::unequal::is_wide;
use cx_design::{Design, PlacedPort};
use cx_design_parts::{FirstBreak, Spot};
use cx_text::{Memory, Place, Rule};
use std::alloc::Global;

/// Looks at the condition of a statement that stands at a place.
#[tactic(auto, using(cx_design_parts::proofs::Lists::first_append))]
pub fn add_condition(
    alloc: Global,
    first: &mut FirstBreak,
    design: &Design,
    spot: Spot,
    place: Place,
    condition: PlacedPort,
) -> Result<(), Memory>
    requires within { spot.component < length design.now.components.items }
    ensures value { IfOk result (λ _. first.new ≡
        first_of first.old (condition_breaks (component_of (plain_design design.now) spot.component)
        (plain_spot spot) place condition)) }
{
    let told = if is_wide(design, spot.component, condition.port) {
        Some(condition.port)
    } else {
        None
    };
    add_port(alloc, first, design, Rule::GuardWidth, spot, place, told)?;
    add_operand(alloc, first, design, spot, condition)
}
