//! Laws of what is written of an instrumented design: each function does nothing, and its clause is the law.

ghost use Rattle.std.specs.Prelude.{◌<◌, ◌^◌, ℕ, List};
ghost use Rattle.cx_meaning.specs.Designs.{PlainDesign};
ghost use Rattle.cx_rules.specs.Accepted.{KeepsStage};
ghost use Rattle.cx_rules.specs.Flat.{ArePlainNames, IsFlat};
ghost use Rattle.cx_rules.specs.Sizes.{design_size};
ghost use Rattle.cx_rules.specs.Wellformed.{IsDesign};
ghost use Rattle.cx_emitted.specs.ByteLaws.{HasGuards};
ghost use Rattle.cx_emitted.specs.Shallow.{IsShallow};
ghost use Rattle.cx_compiler.specs.Compiled.{IsRealised, IsRunWritten, IsTextOf, RunEmitsWithin};
ghost use Rattle.cx_compiler.specs.Words.{HasWords};
ghost use Rattle.cx_flattening.specs.Ends.{NoneNamesDone};
ghost use Rattle.cx_compiler.specs.Runnable.{CanBeFlattened, runnable};
ghost use Rattle.cx_profiling.specs.Instrumented.{instrumented};

use crate::flat_laws::{what_is_run_is_accepted, what_is_run_is_flat};
use cx_emitted::script_laws::sources_realise_always;

/// An instrumented design has no static component where its design has none.
pub fn instrumented_is_flat()
    ensures { (d : PlainDesign) → IsDesign d → IsFlat d → IsFlat (instrumented d) }
{}

/// No part of a guard of an instrumented design stands for an assignment without a guard, where none of its design does.
pub fn instrumented_keeps_guards()
    ensures { (d : PlainDesign) → IsDesign d → HasGuards d → HasGuards (instrumented d) }
{}

/// The external memories of an instrumented design have words for names where those of its design have, and 32 bits count its size.
pub fn instrumented_keeps_words()
    ensures { (d : PlainDesign) → IsDesign d → design_size (instrumented d) < 2 ^ 32 → HasWords d →
        HasWords (instrumented d) }
{}

/// No statement of an instrumented design stands within more static ifs than those of its design do, which are 64 at most.
pub fn instrumented_is_shallow()
    ensures { (d : PlainDesign) → IsDesign d → IsShallow d → IsShallow (instrumented d) }
{}

/// In an instrumented design nothing looks at the done of a static component's cell, where nothing of its design does.
pub fn instrumented_names_no_static_done()
    ensures { (d : PlainDesign) → IsDesign d → NoneNamesDone d → NoneNamesDone (instrumented d) }
{}

/// No name of a cell or of a port of an instrumented design is empty or holds a point, where none of its design does and 32 bits
/// count its size.
pub fn instrumented_has_plain_names()
    ensures { (d : PlainDesign) → IsDesign d → ArePlainNames d → design_size (instrumented d) < 2 ^ 32 →
        ArePlainNames (instrumented d) }
{}

/// So an instrumented design can be flattened where its design can, it keeps the limits and 32 bits count its size; and where it is
/// within the size that is compiled, the net of what is run of it can be emitted, and what spells the source of that is its text.
pub fn instrumented_is_written()
    ensures flattens { (d : PlainDesign) → CanBeFlattened d → design_size (instrumented d) < 2 ^ 32 →
        KeepsStage 7 (instrumented d) → CanBeFlattened (instrumented d) }
    ensures emitted { (d : PlainDesign) → CanBeFlattened d → design_size (instrumented d) < 2 ^ 32 →
        KeepsStage 7 (instrumented d) → HasGuards d → HasWords d → RunEmitsWithin (instrumented d) }
    ensures text { (d : PlainDesign) → CanBeFlattened d → design_size (instrumented d) < 2 ^ 32 →
        KeepsStage 7 (instrumented d) → HasGuards d → HasWords d → IsRealised (runnable (instrumented d))
        → (answer : List ℕ) → IsRunWritten (instrumented d) answer → IsTextOf (runnable (instrumented d)) answer }
{
    sources_realise_always();
    what_is_run_is_accepted();
    what_is_run_is_flat();
}
