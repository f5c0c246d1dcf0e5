//! Laws of lists of breaks: each function does nothing, and its clause is the law.

ghost use Rattle.std.specs.Prelude.{◌≡◌, ◌+◌, ◌++◌, ℕ, List, Option, Some, slice_get};
ghost use Rattle.cx_text.specs.Members.{In};
ghost use Rattle.cx_meaning.specs.Designs.{PlainDesign};
ghost use Rattle.cx_design_parts.specs.Answers.{AreBreaks, AreBreaksBy, StageBreaks};
ghost use Rattle.cx_design_parts.specs.Breaks.{Broken, first_of};
ghost use Rattle.cx_design_parts.specs.Numbered.{numbered};

/// The first of two lists is the first of the second, where that of the first is kept.
pub fn first_of_joined()
    ensures { (best : Option Broken) (xs ys : List Broken) → first_of best (xs ++ ys) ≡ first_of (first_of best xs) ys }
{}

/// The breaks of numbered parts are those of each part at its number.
pub fn breaks_of_numbered()
    ensures within { (f : ℕ → ℕ → List Broken) (n : ℕ) (parts : List ℕ) (b : Broken) → In (numbered f n parts) b
        → (m : ℕ) × (part : ℕ) × (slice_get parts m ≡ Some part) × In (f (n + m) part) b }
    ensures all { (f : ℕ → ℕ → List Broken) (n : ℕ) (parts : List ℕ) (m part : ℕ) (b : Broken) →
        slice_get parts m ≡ Some part
        → In (f (n + m) part) b → In (numbered f n parts) b }
{}

/// A list that has the breaks of a stage answers for the stage.
pub fn breaks_of_stage()
    ensures { (stage : ℕ) (d : PlainDesign) (found : List Broken) →
        AreBreaksBy (StageBreaks stage d) found → AreBreaks stage d found }
{}
