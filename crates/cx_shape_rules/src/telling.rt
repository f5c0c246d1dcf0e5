//! Breaks that are kept where they are found.

ghost use Rattle.std.specs.Prelude.{◌≡◌, ◌<◌, IfOk, length};
ghost use Rattle.cx_rules.specs.Ports.{component_of, path_of};
ghost use Rattle.cx_design.specs.PlainDesigns.{plain_design};
ghost use Rattle.cx_design_parts.specs.Breaks.{first_of, plain_spot};
ghost use Rattle.cx_shape_rules.specs.ShapeBreaks.{told_if};

use cx_design::{Assign, Design};
use cx_design_parts::{Break, FirstBreak, Spot, path};
use cx_text::{Memory, Name, Place, Rule};
use std::alloc::Global;

/// Keeps a break with this name, where one is found.
pub fn add_named(
    alloc: Global,
    first: &mut FirstBreak,
    found: bool,
    rule: Rule,
    spot: Spot,
    place: Place,
    name: &[u8],
) -> Result<(), Memory>
    ensures value { IfOk result
        (λ _. first.new ≡ first_of first.old (told_if found rule (plain_spot spot) place name.now)) }
{
    if found && first.is_first(rule, spot, place) {
        let name = Name::from_bytes(alloc, name)?;
        first.keep(Break {
            rule,
            spot,
            place,
            name,
        });
    }
    Ok(())
}

/// Keeps a break that is told of the target of an assignment, where one is found.
pub fn add_target(
    alloc: Global,
    first: &mut FirstBreak,
    design: &Design,
    found: bool,
    rule: Rule,
    spot: Spot,
    assign: &Assign,
) -> Result<(), Memory>
    requires within { spot.component < length design.now.components.items }
    ensures value { IfOk result (λ _. first.new ≡
        first_of first.old (told_if found rule (plain_spot spot) assign.now.place
        (path_of (component_of (plain_design design.now) spot.component) assign.now.target))) }
{
    if found && first.is_first(rule, spot, assign.place) {
        let name = path(alloc, design, spot.component, assign.target)?;
        first.keep(Break {
            rule,
            spot,
            place: assign.place,
            name,
        });
    }
    Ok(())
}
