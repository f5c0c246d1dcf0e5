//! Laws of places: each function does nothing, and its clause is the law.

ghost use Rattle.std.specs.Prelude.{◌≡◌, ℕ, List};
ghost use Rattle.cx_text.specs.declared.places.Place.{Place};
ghost use Rattle.cx_text.specs.declared.rules.Rule.{Rule};
ghost use Rattle.cx_meaning.specs.Designs.{PlainDesign};
ghost use Rattle.cx_meaning.specs.Instances.{State, tree_of, words_of};
ghost use Rattle.cx_meaning.specs.Running.{run_main};
ghost use Rattle.cx_rules.specs.Accepted.{Breaks, IsAccepted};
ghost use Rattle.cx_rules.specs.Externals.{external_rows};
ghost use Rattle.cx_rules.specs.Spots.{Spot};
ghost use Rattle.cx_rewrites.specs.Places.{SameDesign};

/// Designs that are the same apart from places, and whose assignments stand in the same order, have the same run: it ends in the
/// same turn with the same state, has the same fault in the same turn, or needs more turns, on all data and under each budget.
/// One is accepted where the other is, and breaks the same rules at the same parts.
pub fn places_do_not_matter()
    ensures run { (d e : PlainDesign) (words : List (List ℕ)) (n : ℕ) → SameDesign d e →
        run_main d words n ≡ run_main e words n }
    ensures accepted { (d e : PlainDesign) → SameDesign d e → IsAccepted d → IsAccepted e }
    ensures breaks { (d e : PlainDesign) (rule : Rule) (spot : Spot) (place : Place) (name : List ℕ)
        → SameDesign d e → Breaks d rule spot place name
        → (at : Place) × (called : List ℕ) × Breaks e rule spot at called }
    ensures words { (d e : PlainDesign) (s : State) → SameDesign d e → words_of (tree_of d) s ≡ words_of (tree_of e) s }
    ensures rows { (d e : PlainDesign) → SameDesign d e → external_rows d ≡ external_rows e }
{}
