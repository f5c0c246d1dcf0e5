//! The check over a whole design.

ghost use Rattle.std.specs.Prelude.{◌≡◌, ◌<◌, List, None, IfOk, length};
ghost use Rattle.cx_design.specs.PlainDesigns.{plain_design};
ghost use Rattle.cx_design_parts.specs.Answers.{AreBreaks, AreBreaksBy, IsAnswer};
ghost use Rattle.cx_design_parts.specs.Breaks.{Broken, first_of};
ghost use Rattle.cx_comb.specs.CombBreaks.{BreaksAt};

use crate::circles::find_circles;
use crate::telling::add_circles;
use cx_design::{Design, Refusal};
use cx_design_parts::FirstBreak;
use cx_text::Memory;
use std::alloc::Global;

/// Refuses a design in which a port depends on itself, under the continuous assignments of a component or under them with one
/// group, with the first break of these rules.
pub fn check(alloc: Global, design: &Design) -> Result<(), Refusal>
    ensures answer { IsAnswer 5 (plain_design design.now) result }
{
    match first_break(alloc, design) {
        Ok(first) => first.result(),
        Err(Memory) => Err(Refusal::Memory),
    }
}

/// The first break of a design.
fn first_break(alloc: Global, design: &Design) -> Result<FirstBreak, Memory>
    ensures value { IfOk result (λ first.
        (found : List Broken) × AreBreaks 5 (plain_design design.now) found × (first ≡ first_of None found)) }
{
    let mut first = FirstBreak::new();
    for number in 0..design.components.len() {
        add_component(alloc, &mut first, design, number)?;
    }
    Ok(first)
}

/// Looks at a component.
fn add_component(
    alloc: Global,
    first: &mut FirstBreak,
    design: &Design,
    number: usize,
) -> Result<(), Memory>
    requires within { number < length design.now.components.items }
    ensures value { IfOk result (λ _. (found : List Broken)
        × AreBreaksBy (BreaksAt (plain_design design.now) number) found
        × (first.new ≡ first_of first.old found)) }
{
    let circles = find_circles(alloc, design, number)?;
    add_circles(alloc, first, design, number, &circles)?;
    Ok(())
}
