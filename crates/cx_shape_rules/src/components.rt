//! The rule on the control of a static component.

ghost use Rattle.std.specs.Prelude.{◌≡◌, ◌<◌, ℕ, Some, IfOk, length};
ghost use Rattle.cx_design.specs.PlainForms.{plain_component};
ghost use Rattle.cx_design.specs.PlainDesigns.{plain_design};
ghost use Rattle.cx_design_parts.specs.Breaks.{first_of, plain_spot};
ghost use Rattle.cx_shape_rules.specs.Measures.{capped};
ghost use Rattle.cx_shape_rules.specs.ShapeBreaks as breaks;
ghost use Rattle.cx_shape_rules.specs.ShapeBreaks.{control_breaks, control_breaks_at};

use crate::measures::control_measure;
use crate::statements::may_stand;
use crate::telling::add_named;
use cx_design::{Component, Design};
use cx_design_parts::{Context, FirstBreak, Part, Spot, component};
use cx_text::{Memory, Rule};
use std::alloc::Global;

/// Looks at the control of a component.
pub fn add_control(
    alloc: Global,
    first: &mut FirstBreak,
    design: &Design,
    number: usize,
) -> Result<(), Memory>
    requires within { number < length design.now.components.items }
    ensures value { IfOk result
        (λ _. first.new ≡ first_of first.old (control_breaks_at (plain_design design.now) number)) }
{
    let spot = Spot {
        component: number,
        part: Part::Itself(0),
    };
    add_part(alloc, first, spot, component(design, number))
}

/// Looks at the control of a component that stands at a spot.
fn add_part(
    alloc: Global,
    first: &mut FirstBreak,
    spot: Spot,
    part: &Component,
) -> Result<(), Memory>
    ensures value { IfOk result
        (λ _. first.new ≡ first_of first.old (control_breaks (plain_spot spot) (plain_component part.now))) }
{
    let wrong = has_wrong_control(alloc, part)?;
    add_named(
        alloc,
        first,
        wrong,
        Rule::StaticShape,
        spot,
        part.place,
        part.name.bytes(),
    )
}

/// Whether the control of a static component may not stand in static control, or has another length than the component.
fn has_wrong_control(alloc: Global, part: &Component) -> Result<bool, Memory>
    ensures value { IfOk result (λ wrong. wrong ≡ breaks.has_wrong_control (plain_component part.now)) }
{
    let Some(latency) = part.latency else {
        return Ok(false);
    };
    if !may_stand(part, Context::InStatic, &part.control.form) {
        return Ok(true);
    }
    let measure = control_measure(alloc, part)?;
    Ok(measure.has_length && is_other(latency, measure.cycles))
}

/// Whether a length is another than a latency. The cycles stop where no latency reaches.
fn is_other(latency: u64, cycles: u128) -> bool
    ensures value { (length : ℕ) → cycles ≡ capped length → result ≡ breaks.is_other (Some latency) length }
{
    latency as u128 != cycles
}
