//! What is kept of the groups of a component.

ghost use Rattle.std.specs.Prelude.{◌≡◌, ◌<◌, IfOk, OnOk, length};
ghost use Rattle.cx_meaning.specs.Designs.{component_at, group_at};
ghost use Rattle.cx_rules.specs.Ports.{component_of};
ghost use Rattle.cx_design.specs.PlainForms.{plain_group};
ghost use Rattle.cx_design.specs.PlainDesigns.{plain_design};
ghost use Rattle.cx_shape_calls.specs.Inputs.{ArePathsOf};
ghost use Rattle.cx_shape_calls.specs.Decisions.{AreShapesOf, IsShapeOf};

use crate::{CallForm, Paths, PortTally, form};
use cx_design::{Design, Group};
use cx_design_parts::component;
use cx_text::Memory;
use std::alloc::Global;

/// What is kept of a group that calls.
#[derive(Drop)]
pub struct GroupShape<'a> {
    pub form: CallForm<'a>,
    /// The inputs of component cells that it drives and that depend on an output or the done of the cell.
    pub dependent: PortTally,
}

/// What is kept of the groups of a component, in their order.
pub fn shapes<'a>(
    alloc: Global,
    design: &'a Design,
    number: usize,
) -> Result<Vec<Option<GroupShape<'a>>>, Memory>
    requires within { number < length design.now.components.items }
    ensures value { IfOk result (λ list. AreShapesOf (component_of (plain_design design.now) number)
        (length (component_at (plain_design design.now) number).groups) list.items) }
{
    let mut paths = Paths::new(alloc, design, number)?;
    let groups = component(design, number).groups.as_slice();
    let mut list = Vec::new(alloc);
    for place in 0..groups.len() {
        let shape = shape(alloc, design, number, &mut paths, place, &groups[place])?;
        list.push(shape)?;
    }
    Ok(list)
}

/// What is kept of a group, where it is plain and calls.
fn shape<'a>(
    alloc: Global,
    design: &'a Design,
    number: usize,
    paths: &mut Paths,
    place: usize,
    group: &Group,
) -> Result<Option<GroupShape<'a>>, Memory>
    requires within { number < length design.now.components.items }
    requires paths { ArePathsOf (component_of (plain_design design.now) number) paths.old }
    requires group { place < length (component_at (plain_design design.now) number).groups }
    requires is { plain_group group.now ≡ group_at (component_at (plain_design design.now) number) place }
    ensures paths { OnOk result (ArePathsOf (component_of (plain_design design.now) number) paths.new) }
    ensures value { IfOk result
        (IsShapeOf (component_of (plain_design design.now) number) place (plain_group group.now)) }
{
    let Some(form) = form(alloc, design, number, place, group)? else {
        return Ok(None);
    };
    let dependent = paths.dependent_inputs(alloc, design, number, place, group)?;
    Ok(Some(GroupShape { form, dependent }))
}
