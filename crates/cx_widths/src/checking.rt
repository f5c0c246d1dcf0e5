//! The check over a whole design.

ghost use Rattle.std.specs.Prelude.{◌≡◌, ◌<◌, None, IfOk, length};
ghost use Rattle.cx_rules.specs.Ports.{component_of};
ghost use Rattle.cx_rules.specs.Items.{test_in};
ghost use Rattle.cx_design.specs.PlainForms.{plain_form};
ghost use Rattle.cx_design.specs.PlainDesigns.{plain_design};
ghost use Rattle.cx_design_parts.specs.Answers.{IsAnswer};
ghost use Rattle.cx_design_parts.specs.Breaks.{first_of, plain_spot};
ghost use Rattle.cx_widths.specs.WidthBreaks.{assigns_breaks, binds_breaks, conditions_breaks, test_breaks, width_breaks};

use crate::assigns::add_assign;
use crate::binds::binds;
use crate::conditions::add_condition;
use cx_design::{Design, Refusal};
use cx_design_parts::{FirstBreak, Part, Spot, Visited, component, source_order, statements, test};
use cx_text::Memory;
use std::alloc::Global;

/// Refuses a design that breaks one of the rules width, guard-width, literal, not-a-target and not-a-source, with the first
/// break of them.
pub fn check(alloc: Global, design: &Design) -> Result<(), Refusal>
    ensures answer { IsAnswer 3 (plain_design design.now) result }
{
    match first_break(alloc, design) {
        Ok(first) => first.result(),
        Err(Memory) => Err(Refusal::Memory),
    }
}

/// The first break of a design.
#[tactic(auto, using(cx_design_parts::proofs::Lists::first_append))]
fn first_break(alloc: Global, design: &Design) -> Result<FirstBreak, Memory>
    ensures value { IfOk result (λ first. first ≡ first_of None (width_breaks (plain_design design.now))) }
{
    let mut first = FirstBreak::new();
    for number in 0..design.components.len() {
        add_assigns(alloc, &mut first, design, number)?;
        add_conditions(alloc, &mut first, design, number)?;
        add_binds(alloc, &mut first, design, number)?;
    }
    Ok(first)
}

/// Looks at the assignments of a component.
#[tactic(auto, using(cx_design_parts::proofs::Lists::first_append))]
fn add_assigns(
    alloc: Global,
    first: &mut FirstBreak,
    design: &Design,
    number: usize,
) -> Result<(), Memory>
    requires within { number < length design.now.components.items }
    ensures value { IfOk result
        (λ _. first.new ≡ first_of first.old (assigns_breaks (plain_design design.now) number)) }
{
    let assigns = source_order(alloc, component(design, number))?;
    for place in 0..assigns.len() {
        let spot = Spot {
            component: number,
            part: Part::Assign(place),
        };
        add_assign(alloc, first, design, spot, assigns[place].assign)?;
    }
    Ok(())
}

/// Looks at the conditions in a component's control.
#[tactic(auto, using(cx_design_parts::proofs::Lists::first_append))]
fn add_conditions(
    alloc: Global,
    first: &mut FirstBreak,
    design: &Design,
    number: usize,
) -> Result<(), Memory>
    requires within { number < length design.now.components.items }
    ensures value { IfOk result
        (λ _. first.new ≡ first_of first.old (conditions_breaks (plain_design design.now) number)) }
{
    let list = statements(alloc, component(design, number))?;
    for place in 0..list.len() {
        let spot = Spot {
            component: number,
            part: Part::Statement(place),
        };
        add_visited(alloc, first, design, spot, list[place])?;
    }
    Ok(())
}

/// Looks at the condition of a statement, where it has one.
fn add_visited(
    alloc: Global,
    first: &mut FirstBreak,
    design: &Design,
    spot: Spot,
    visited: Visited<'_>,
) -> Result<(), Memory>
    requires within { spot.component < length design.now.components.items }
    ensures value { IfOk result (λ _. first.new ≡
        first_of first.old (test_breaks (component_of (plain_design design.now) spot.component)
        (plain_spot spot) visited.entry.place (test_in (plain_form visited.entry.form.now)))) }
{
    match test(visited.form) {
        Some(condition) => add_condition(alloc, first, design, spot, visited.place, condition),
        None => Ok(()),
    }
}

/// Looks at the inputs that a component's static invokes bind.
#[tactic(auto, using(cx_design_parts::proofs::Lists::first_append))]
fn add_binds(
    alloc: Global,
    first: &mut FirstBreak,
    design: &Design,
    number: usize,
) -> Result<(), Memory>
    requires within { number < length design.now.components.items }
    ensures value { IfOk result (λ _. first.new ≡ first_of first.old (binds_breaks (plain_design design.now) number)) }
{
    let list = binds(alloc, component(design, number).invokes.as_slice())?;
    for place in 0..list.len() {
        let spot = Spot {
            component: number,
            part: Part::Bind(place),
        };
        add_assign(alloc, first, design, spot, list[place])?;
    }
    Ok(())
}
