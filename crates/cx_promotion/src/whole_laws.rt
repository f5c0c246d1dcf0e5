//! Laws of promoted runs, with static components: each function does nothing, and its clause is the law.

ghost use Rattle.std.specs.Prelude.{◌≡◌};
ghost use Rattle.cx_meaning.specs.Designs.{PlainDesign};
ghost use Rattle.cx_meaning.specs.Instances.{State, tree_of, words_of};
ghost use Rattle.cx_rules.specs.Accepted.{IsAccepted};
ghost use Rattle.cx_rules.specs.Wellformed.{IsDesign};
ghost use Rattle.cx_rewrites.specs.Places.{SameDesign};
ghost use Rattle.cx_flattening.specs.Ends.{NoneNamesDone};
ghost use Rattle.cx_promotion.specs.Made.{DesignMade, WholeQuickens};

/// A design that promotion makes of an accepted one, also of one with static components, has its external
/// memories. Where the old run of main ends, on whatever data and under whatever budget, the new one ends under
/// that budget, in no more turns, in the same state of every cell. So does that of a design which is the new one
/// apart from places. Of faults, and of runs that do not end, nothing is promised.
pub fn whole_promoted_runs_quicker()
    ensures quickens { (old new : PlainDesign) → IsDesign old → IsAccepted old → NoneNamesDone old →
        DesignMade old new → WholeQuickens old new }
    ensures again { (old new again : PlainDesign)
        → IsDesign old → IsAccepted old → NoneNamesDone old
        → DesignMade old new → SameDesign new again → WholeQuickens old again }
    ensures words { (old new : PlainDesign) (s : State)
        → IsDesign old → IsAccepted old → DesignMade old new
        → words_of (tree_of new) s ≡ words_of (tree_of old) s }
{}
