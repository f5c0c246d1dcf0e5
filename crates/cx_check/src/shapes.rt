//! The check over a whole design.

ghost use Rattle.std.specs.Prelude.{◌≡◌, List, None, IfOk};
ghost use Rattle.cx_design.specs.PlainDesigns.{plain_design};
ghost use Rattle.cx_design_parts.specs.Answers.{AreBreaks, IsAnswer};
ghost use Rattle.cx_design_parts.specs.Breaks.{Broken, first_of};

use cx_design::{Design, Refusal};
use cx_design_parts::FirstBreak;
use cx_text::Memory;
use std::alloc::Global;

/// Refuses a design that breaks one of the rules no-done, done-not-state, always-enable, comb-enable, static-guard,
/// static-shape, call-shape and output-not-state, with the first break of them.
pub fn check_shapes(alloc: Global, design: &Design) -> Result<(), Refusal>
    ensures answer { IsAnswer 4 (plain_design design.now) result }
{
    match first_break(alloc, design) {
        Ok(first) => first.result(),
        Err(Memory) => Err(Refusal::Memory),
    }
}

/// The first break of a design.
fn first_break(alloc: Global, design: &Design) -> Result<FirstBreak, Memory>
    ensures value { IfOk result (λ first.
        (found : List Broken) × AreBreaks 4 (plain_design design.now) found × (first ≡ first_of None found)) }
{
    let mut first = FirstBreak::new();
    cx_shape_rules::add_breaks(alloc, &mut first, design)?;
    cx_shape_state::add_breaks(alloc, &mut first, design)?;
    cx_shape_calls::add_breaks(alloc, &mut first, design)?;
    Ok(first)
}
