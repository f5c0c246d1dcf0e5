//! Laws of the designs of texts, as flattening asks for them: each function does nothing, and its clause is the law.

ghost use Rattle.std.specs.Prelude.{◌≡◌, ◌<◌, ◌≤◌, ◌^◌, ℕ, List, None};
ghost use Rattle.cx_ast.specs.PlainTree.{PlainTree};
ghost use Rattle.cx_meaning.specs.Designs.{PlainDesign};
ghost use Rattle.cx_rules.specs.Accepted.{IsAccepted};
ghost use Rattle.cx_rules.specs.Counts.{counted_design_size};
ghost use Rattle.cx_rules.specs.Flat.{ArePlainNames, IsFlat};
ghost use Rattle.cx_rules.specs.Sizes.{design_size};
ghost use Rattle.cx_rules.specs.Wellformed.{IsDesign};
ghost use Rattle.cx_numbering.specs.DesignOf.{design_of};
ghost use Rattle.cx_numbering.specs.NameRules.{names_break};
ghost use Rattle.cx_flattening.specs.Ends.{NoneNamesDone};
ghost use Rattle.cx_flattening.specs.Told.{KeepsRuns};
ghost use Rattle.cx_commands.specs.Unread.{HasTree};
ghost use Rattle.cx_compiler.specs.Runnable.{CanBeFlattened, RunsAsMeant, runnable};

use cx_flattening::laws::{
    accepted_designs_keep_their_runs, flat_designs_are_accepted, flat_designs_are_designs,
    flat_designs_are_flat, flat_designs_keep_weights, means_the_same_without,
};

/// In the design of a text no name of a cell or of a port is empty or holds a point, whatever rules the text breaks.
pub fn texts_have_plain_names()
    ensures { (text : List ℕ) (tree : PlainTree) → HasTree text tree → ArePlainNames (design_of tree) }
{}

/// In the design of a tree that breaks no rule on names nothing looks at the done of a static component's cell.
pub fn no_text_names_a_static_done()
    ensures { (tree : PlainTree) → names_break tree ≡ None → NoneNamesDone (design_of tree) }
{}

/// The flat design of an accepted text with fewer than 2^32 parts tells of each run what the design of the text tells, and has
/// its external memories.
pub fn accepted_texts_keep_their_runs()
    ensures { (text : List ℕ) (tree : PlainTree) → HasTree text tree → names_break tree ≡ None →
        IsAccepted (design_of tree)
        → design_size (design_of tree) < 2 ^ 32 → KeepsRuns (design_of tree) }
{
    accepted_designs_keep_their_runs();
}

/// The design of an accepted text with fewer than 2^32 parts has all that flattening asks for.
pub fn accepted_texts_can_be_flattened()
    ensures { (text : List ℕ) (tree : PlainTree) → HasTree text tree → names_break tree ≡ None →
        IsAccepted (design_of tree)
        → design_size (design_of tree) < 2 ^ 32 → CanBeFlattened (design_of tree) }
{}

/// The design that is run has no static component, and a design that has none is run as it is.
pub fn what_is_run_is_flat()
    ensures flat { (d : PlainDesign) → IsFlat (runnable d) }
    ensures itself { (d : PlainDesign) → IsFlat d → runnable d ≡ d }
{
    flat_designs_are_flat();
}

/// The design that is run of one that can be flattened keeps what every design keeps and breaks no rule, and its size is at most the
/// size that is counted, with static components counted where they are invoked.
pub fn what_is_run_is_accepted()
    ensures design { (d : PlainDesign) → CanBeFlattened d → IsDesign (runnable d) }
    ensures accepted { (d : PlainDesign) → CanBeFlattened d → IsAccepted (runnable d) }
    ensures size { (d : PlainDesign) → CanBeFlattened d → design_size (runnable d) ≤ counted_design_size d }
{
    flat_designs_are_designs();
    flat_designs_are_accepted();
    flat_designs_keep_weights();
}

/// The design that is run of an accepted design with plain names, in which nothing looks at the done of a static component's cell,
/// tells of each run what the design tells by its own meaning, and has its external memories.
pub fn what_is_run_runs_as_meant()
    ensures { (d : PlainDesign) → IsDesign d → IsAccepted d → NoneNamesDone d → ArePlainNames d → RunsAsMeant d }
{
    accepted_designs_keep_their_runs();
    means_the_same_without();
}

/// So does that of an accepted text with fewer than 2^32 parts.
pub fn accepted_texts_run_as_meant()
    ensures { (text : List ℕ) (tree : PlainTree) → HasTree text tree → names_break tree ≡ None →
        IsAccepted (design_of tree)
        → design_size (design_of tree) < 2 ^ 32 → RunsAsMeant (design_of tree) }
{
    accepted_designs_keep_their_runs();
    means_the_same_without();
}
