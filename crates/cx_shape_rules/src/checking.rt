//! The rules over a whole design.

ghost use Rattle.std.specs.Prelude.{◌≡◌, ◌<◌, IfOk, length};
ghost use Rattle.cx_design.specs.PlainDesigns.{plain_design};
ghost use Rattle.cx_design_parts.specs.Breaks.{first_of};
ghost use Rattle.cx_shape_rules.specs.ShapeBreaks.{assigns_breaks, groups_breaks, shape_breaks, statements_breaks};

use crate::assigns::add_assign;
use crate::components::add_control;
use crate::groups::add_group;
use crate::measures::measures;
use crate::statements::add_statement;
use cx_design::Design;
use cx_design_parts::{FirstBreak, Part, Spot, component, source_order, statements};
use cx_text::Memory;
use std::alloc::Global;

/// Looks at a design by the rules no-done, always-enable, comb-enable and static-guard, and by static-shape but for the ports
/// of static ifs.
pub fn add_breaks(alloc: Global, first: &mut FirstBreak, design: &Design) -> Result<(), Memory>
    ensures value { IfOk result (λ _. first.new ≡ first_of first.old (shape_breaks (plain_design design.now))) }
{
    for number in 0..design.components.len() {
        add_groups(alloc, first, design, number)?;
        add_assigns(alloc, first, design, number)?;
        add_statements(alloc, first, design, number)?;
        add_control(alloc, first, design, number)?;
    }
    Ok(())
}

/// Looks at the groups of a component.
fn add_groups(
    alloc: Global,
    first: &mut FirstBreak,
    design: &Design,
    number: usize,
) -> Result<(), Memory>
    requires within { number < length design.now.components.items }
    ensures value { IfOk result (λ _. first.new ≡ first_of first.old (groups_breaks (plain_design design.now) number)) }
{
    let groups = component(design, number).groups.as_slice();
    for place in 0..groups.len() {
        let spot = Spot {
            component: number,
            part: Part::Group(place),
        };
        add_group(alloc, first, spot, place, &groups[place])?;
    }
    Ok(())
}

/// Looks at the assignments of a component.
fn add_assigns(
    alloc: Global,
    first: &mut FirstBreak,
    design: &Design,
    number: usize,
) -> Result<(), Memory>
    requires within { number < length design.now.components.items }
    ensures value { IfOk result
        (λ _. first.new ≡ first_of first.old (assigns_breaks (plain_design design.now) number)) }
{
    let assigns = source_order(alloc, component(design, number))?;
    for place in 0..assigns.len() {
        let spot = Spot {
            component: number,
            part: Part::Assign(place),
        };
        add_assign(alloc, first, design, spot, assigns[place])?;
    }
    Ok(())
}

/// Looks at the statements of a component.
fn add_statements(
    alloc: Global,
    first: &mut FirstBreak,
    design: &Design,
    number: usize,
) -> Result<(), Memory>
    requires within { number < length design.now.components.items }
    ensures value { IfOk result
        (λ _. first.new ≡ first_of first.old (statements_breaks (plain_design design.now) number)) }
{
    let part = component(design, number);
    let list = statements(alloc, part)?;
    let measures = measures(alloc, part)?;
    for place in 0..list.len() {
        let spot = Spot {
            component: number,
            part: Part::Statement(place),
        };
        add_statement(alloc, first, part, spot, list[place], measures[place])?;
    }
    Ok(())
}
