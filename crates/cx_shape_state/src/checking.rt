//! The rules over a whole design.

ghost use Rattle.std.specs.Prelude.{◌≡◌, ◌<◌, IfOk, length};
ghost use Rattle.cx_rules.specs.Ports.{component_of};
ghost use Rattle.cx_rules.specs.Items.{statements_in};
ghost use Rattle.cx_meaning.specs.Active as active;
ghost use Rattle.cx_meaning.specs.Designs.{component_at};
ghost use Rattle.cx_design.specs.PlainDesigns.{plain_design};
ghost use Rattle.cx_design_parts.specs.Breaks.{first_of};
ghost use Rattle.cx_design_parts.specs.Numbered.{numbered};
ghost use Rattle.cx_shape_state.specs.Tells.{Tells};
ghost use Rattle.cx_shape_state.specs.StateBreaks.{assign_breaks_at, component_breaks, state_breaks, test_breaks_at};

use crate::Resting;
use crate::assigns::add_assign;
use crate::statements::add_statement;
use cx_design::Design;
use cx_design_parts::{FirstBreak, Part, Spot, component, source_order, statements};
use cx_text::Memory;
use std::alloc::Global;

/// Looks at a whole design: keeps the first of its breaks and what was kept so far.
#[tactic(auto, using(cx_design_parts::proofs::Lists::first_append))]
pub fn add_breaks(alloc: Global, first: &mut FirstBreak, design: &Design) -> Result<(), Memory>
    ensures value { IfOk result (λ _. first.new ≡ first_of first.old (state_breaks (plain_design design.now))) }
{
    for number in 0..design.components.len() {
        add_component(alloc, first, design, number)?;
    }
    Ok(())
}

/// Looks at a component.
#[tactic(auto, using(cx_design_parts::proofs::Lists::first_append))]
fn add_component(
    alloc: Global,
    first: &mut FirstBreak,
    design: &Design,
    number: usize,
) -> Result<(), Memory>
    requires within { number < length design.now.components.items }
    ensures value { IfOk result
        (λ _. first.new ≡ first_of first.old (component_breaks (plain_design design.now) number)) }
{
    let resting = Resting::of(alloc, design, number)?;
    add_assigns(alloc, first, design, &resting, number)?;
    add_statements(alloc, first, design, &resting, number)?;
    Ok(())
}

/// Looks at the assignments of a component.
#[tactic(auto, using(cx_design_parts::proofs::Lists::first_append))]
fn add_assigns(
    alloc: Global,
    first: &mut FirstBreak,
    design: &Design,
    resting: &Resting,
    number: usize,
) -> Result<(), Memory>
    requires within { number < length design.now.components.items }
    requires tells { Tells (component_of (plain_design design.now) number) resting.now }
    ensures value { IfOk result (λ _. let d = plain_design design.now in
        first.new ≡ first_of first.old
        (numbered (assign_breaks_at d number) 0 (active.source_order (component_at d number)))) }
{
    let assigns = source_order(alloc, component(design, number))?;
    for place in 0..assigns.len() {
        let spot = Spot {
            component: number,
            part: Part::Assign(place),
        };
        add_assign(alloc, first, design, resting, spot, assigns[place])?;
    }
    Ok(())
}

/// Looks at the statements of a component.
#[tactic(auto, using(cx_design_parts::proofs::Lists::first_append))]
fn add_statements(
    alloc: Global,
    first: &mut FirstBreak,
    design: &Design,
    resting: &Resting,
    number: usize,
) -> Result<(), Memory>
    requires within { number < length design.now.components.items }
    requires tells { Tells (component_of (plain_design design.now) number) resting.now }
    ensures value { IfOk result (λ _. let d = plain_design design.now in
        first.new ≡
        first_of first.old (numbered (test_breaks_at d number) 0 (statements_in (component_at d number)))) }
{
    let list = statements(alloc, component(design, number))?;
    for place in 0..list.len() {
        let spot = Spot {
            component: number,
            part: Part::Statement(place),
        };
        add_statement(alloc, first, design, resting, spot, list[place])?;
    }
    Ok(())
}
