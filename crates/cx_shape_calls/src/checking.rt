//! The rule over a whole design.

ghost use Rattle.std.specs.Prelude.{◌≡◌, ◌<◌, IfOk, List, length};
ghost use Rattle.cx_meaning.specs.Designs.{component_at};
ghost use Rattle.cx_meaning.specs.Active as active;
ghost use Rattle.cx_rules.specs.Ports.{component_of};
ghost use Rattle.std.specs.Option.{option_map};
ghost use Rattle.cx_design.specs.PlainForms.{plain_group};
ghost use Rattle.cx_design.specs.PlainDesigns.{plain_design};
ghost use Rattle.cx_design_parts.specs.Plain.{plain_owned};
ghost use Rattle.cx_design_parts.specs.Answers.{AreBreaksBy};
ghost use Rattle.cx_design_parts.specs.Breaks.{Broken, first_of, plain_spot};
ghost use Rattle.cx_design_parts.specs.Numbered.{numbered};
ghost use Rattle.cx_shape_calls.specs.CallBreaks.{CallShapeBreaks, InComponent};
ghost use Rattle.cx_rules.specs.Items.{statements_in};
ghost use Rattle.cx_shape_calls.specs.StaticInvokes.{statement_breaks_at};
ghost use Rattle.cx_shape_calls.specs.Decisions as decisions;
ghost use Rattle.cx_shape_calls.specs.Decisions.{assign_breaks, assign_breaks_at, group_breaks_at};

use crate::assigns::{is_static_port, is_wrong_in, shape_at};
use crate::groups::{GroupShape, shapes};
use crate::invokes::wrong_invokes;
use crate::statements::add_statement;
use cx_design::{Design, Group};
use cx_design_parts::{
    Break, FirstBreak, OwnedAssign, Part, Spot, component, path, source_order, statements,
};
use cx_text::{Memory, Name, Rule};
use std::alloc::Global;

/// Looks at all assignments, groups and statements of a design.
pub fn add_breaks(alloc: Global, first: &mut FirstBreak, design: &Design) -> Result<(), Memory>
    ensures value { IfOk result (λ _. (found : List Broken)
        × AreBreaksBy (CallShapeBreaks (plain_design design.now)) found
        × (first.new ≡ first_of first.old found)) }
{
    for number in 0..design.components.len() {
        add_component(alloc, first, design, number)?;
    }
    Ok(())
}

/// Looks at the assignments, the groups and the statements of a component.
fn add_component(
    alloc: Global,
    first: &mut FirstBreak,
    design: &Design,
    number: usize,
) -> Result<(), Memory>
    requires within { number < length design.now.components.items }
    ensures value { IfOk result (λ _. (found : List Broken)
        × AreBreaksBy (InComponent (plain_design design.now) number) found
        × (first.new ≡ first_of first.old found)) }
{
    let shapes = shapes(alloc, design, number)?;
    let marks = wrong_invokes(alloc, design, number)?;
    add_assigns(alloc, first, design, number, shapes.as_slice())?;
    add_groups(alloc, first, design, number, shapes.as_slice())?;
    add_statements(alloc, first, design, number, marks.as_slice())?;
    Ok(())
}

/// Looks at the assignments of a component.
fn add_assigns(
    alloc: Global,
    first: &mut FirstBreak,
    design: &Design,
    number: usize,
    shapes: &[Option<GroupShape<'_>>],
) -> Result<(), Memory>
    requires within { number < length design.now.components.items }
    ensures value { IfOk result (λ _. let d = plain_design design.now in
        first.new ≡ first_of first.old
        (numbered (assign_breaks_at d number shapes.now) 0 (active.source_order (component_at d number)))) }
{
    let assigns = source_order(alloc, component(design, number))?;
    for place in 0..assigns.len() {
        let spot = Spot {
            component: number,
            part: Part::Assign(place),
        };
        add_assign(alloc, first, design, shapes, spot, assigns[place])?;
    }
    Ok(())
}

/// Looks at one assignment.
fn add_assign(
    alloc: Global,
    first: &mut FirstBreak,
    design: &Design,
    shapes: &[Option<GroupShape<'_>>],
    spot: Spot,
    owned: OwnedAssign<'_>,
) -> Result<(), Memory>
    requires within { spot.component < length design.now.components.items }
    ensures value { IfOk result (λ _. first.new ≡
        first_of first.old (assign_breaks (component_of (plain_design design.now) spot.component) shapes.now
        (plain_spot spot) (plain_owned owned.entry))) }
{
    let assign = owned.assign;
    if !is_static_port(design, spot.component, assign.target)
        && !is_wrong_in(design, spot.component, shapes, owned.owner, assign)
    {
        return Ok(());
    }
    if first.is_first(Rule::CallShape, spot, assign.place) {
        let name = path(alloc, design, spot.component, assign.target)?;
        first.keep(Break {
            rule: Rule::CallShape,
            spot,
            place: assign.place,
            name,
        });
    }
    Ok(())
}

/// Looks at the groups of a component.
fn add_groups(
    alloc: Global,
    first: &mut FirstBreak,
    design: &Design,
    number: usize,
    shapes: &[Option<GroupShape<'_>>],
) -> Result<(), Memory>
    requires within { number < length design.now.components.items }
    ensures value { IfOk result (λ _. let d = plain_design design.now in
        first.new ≡
        first_of first.old (numbered (group_breaks_at number shapes.now) 0 (component_at d number).groups)) }
{
    let groups = component(design, number).groups.as_slice();
    for place in 0..groups.len() {
        let spot = Spot {
            component: number,
            part: Part::Group(place),
        };
        let lacks = lacks_by(shape_at(shapes, place));
        add_group(alloc, first, lacks, spot, &groups[place])?;
    }
    Ok(())
}

/// Whether a group that calls does not drive its done, or the go of a cell.
fn lacks_by(shape: Option<&GroupShape<'_>>) -> bool
    ensures value { result ≡ decisions.lacks_by (option_map (λ s. s.now) shape.entry) }
{
    match shape {
        Some(shape) => shape.form.lacks,
        None => false,
    }
}

/// Keeps a break that is told of a group, if it breaks the rule.
fn add_group(
    alloc: Global,
    first: &mut FirstBreak,
    lacks: bool,
    spot: Spot,
    group: &Group,
) -> Result<(), Memory>
    ensures value { IfOk result (λ _. first.new ≡
        first_of first.old
        (decisions.told_if lacks (plain_spot spot) group.now.place (plain_group group.now).name)) }
{
    if lacks && first.is_first(Rule::CallShape, spot, group.place) {
        let name = Name::from_bytes(alloc, group.name.bytes())?;
        first.keep(Break {
            rule: Rule::CallShape,
            spot,
            place: group.place,
            name,
        });
    }
    Ok(())
}

/// Looks at the statements of a component, of which static invokes may break the rule.
fn add_statements(
    alloc: Global,
    first: &mut FirstBreak,
    design: &Design,
    number: usize,
    marks: &[bool],
) -> Result<(), Memory>
    requires within { number < length design.now.components.items }
    ensures value { IfOk result (λ _. let d = plain_design design.now in
        first.new ≡ first_of first.old
        (numbered (statement_breaks_at d number marks.now) 0 (statements_in (component_at d number)))) }
{
    let list = statements(alloc, component(design, number))?;
    for place in 0..list.len() {
        let spot = Spot {
            component: number,
            part: Part::Statement(place),
        };
        add_statement(
            alloc,
            first,
            component(design, number),
            marks,
            spot,
            list[place],
        )?;
    }
    Ok(())
}
