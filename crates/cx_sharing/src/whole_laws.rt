//! The law of shared runs, with static components: the function does nothing, and its clauses are the law.

ghost use Rattle.std.specs.Prelude.{◌≡◌, ℕ, List};
ghost use Rattle.cx_meaning.specs.Designs.{PlainDesign};
ghost use Rattle.cx_meaning.specs.Instances.{State, tree_of, words_of};
ghost use Rattle.cx_meaning.specs.Cycles.{Fault};
ghost use Rattle.cx_meaning.specs.Answers.{End, More};
ghost use Rattle.cx_meaning.specs.Answers as answers;
ghost use Rattle.cx_rules.specs.Accepted.{IsAccepted};
ghost use Rattle.cx_rules.specs.Externals.{external_rows};
ghost use Rattle.cx_rules.specs.Wellformed.{IsDesign};
ghost use Rattle.cx_flattening.specs.Ends.{NoneNamesDone};
ghost use Rattle.cx_flattening.specs.Whole.{whole_main};
ghost use Rattle.cx_sharing.specs.SharedDesign.{shared_design};
ghost use Rattle.cx_sharing.specs.Following.{SharedStands, shared_fault};

/// The shared design of an accepted design, in which nothing looks at the done of a static component's cell, runs as the design
/// does, static components among it, on all data and under each budget of turns: it ends in the same turn, with the same words of
/// the external memories and the same states of all cells that hold something; it has the fault in the same turn, at the path by
/// the new numbers and of the port of the cell that stands for its cell; or it needs more turns where that does. The external
/// memories are the same ones.
pub fn whole_shared_runs_alike()
    ensures ends { (d : PlainDesign) (words : List (List ℕ)) (n t : ℕ) (s : State)
        → IsDesign d → IsAccepted d → NoneNamesDone d → whole_main d words n ≡ End s t
        → (z : State) × (whole_main (shared_design d) words n ≡ End z t)
        × (words_of (tree_of (shared_design d)) z ≡ words_of (tree_of d) s) × SharedStands (tree_of d) s z }
    ensures faults { (d : PlainDesign) (words : List (List ℕ)) (n t : ℕ) (fault : Fault)
        → IsDesign d → IsAccepted d → NoneNamesDone d → whole_main d words n ≡ answers.Fault fault t
        → whole_main (shared_design d) words n ≡ answers.Fault (shared_fault (tree_of d) fault) t }
    ensures more { (d : PlainDesign) (words : List (List ℕ)) (n : ℕ)
        → IsDesign d → IsAccepted d → NoneNamesDone d → whole_main d words n ≡ More
        → whole_main (shared_design d) words n ≡ More }
    ensures rows { (d : PlainDesign) → IsDesign d → external_rows (shared_design d) ≡ external_rows d }
{}
