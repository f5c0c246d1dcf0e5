//! Laws of instrumented designs: each function does nothing, and its clause is the law.

ghost use Rattle.std.specs.Prelude.{◌<◌, ◌^◌};
ghost use Rattle.cx_meaning.specs.Designs.{PlainDesign};
ghost use Rattle.cx_rules.specs.Accepted.{IsAccepted, KeepsStage};
ghost use Rattle.cx_rules.specs.Sizes.{design_size};
ghost use Rattle.cx_rules.specs.Wellformed.{IsDesign};
ghost use Rattle.cx_profiling.specs.Counters.{entry_count};
ghost use Rattle.cx_profiling.specs.Instrumented.{instrumented};

/// What every design keeps the instrumented one keeps: its numbers name its own parts, its names are apart, and so on, where 32
/// bits count its size.
pub fn instrumented_is_a_design()
    ensures { (d : PlainDesign) → IsDesign d → design_size (instrumented d) < 2 ^ 32 → IsDesign (instrumented d) }
{}

/// The instrumented design of an accepted design keeps the rules of the third stage: on widths, on widths in guards and conditions,
/// on literals, on targets and on sources, where 32 bits count its entries.
pub fn instrumented_keeps_the_widths()
    ensures { (d : PlainDesign) → IsDesign d → IsAccepted d → entry_count d < 2 ^ 32 → KeepsStage 3 (instrumented d) }
{}

/// The instrumented design of an accepted design is accepted, where it keeps the limits: it breaks no rule on widths, on shapes, on
/// circles or on races.
pub fn instrumented_is_accepted()
    ensures { (d : PlainDesign) → IsDesign d → IsAccepted d → KeepsStage 7 (instrumented d) →
        IsAccepted (instrumented d) }
{}
