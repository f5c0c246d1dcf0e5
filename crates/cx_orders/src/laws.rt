//! Laws of woven runs: each function does nothing but call others, and its clause is the law.

ghost use Rattle.std.specs.Prelude.{◌≡◌, ◌≤◌, ◌<◌, ℕ, suc, List};
ghost use Rattle.cx_meaning.specs.Designs.{PlainDesign};
ghost use Rattle.cx_meaning.specs.Instances.{State};
ghost use Rattle.cx_meaning.specs.Cycles.{Fault};
ghost use Rattle.cx_meaning.specs.Answers as answers;
ghost use Rattle.cx_meaning.specs.Running.{run_main};
ghost use Rattle.cx_rules.specs.Accepted.{IsAccepted};
ghost use Rattle.cx_rules.specs.Wellformed.{IsDesign};
ghost use Rattle.cx_orders.specs.Alone.{LeafHasAlone};
ghost use Rattle.cx_orders.specs.Enough.{AllEnd};
ghost use Rattle.cx_orders.specs.Woven.{Choices, Ends, Faults, More, woven};

use cx_frames::apart_laws::listed_cells_suffice;
use cx_frames::arm_laws::{next_arm, own_inputs_suffice, runs_agree, whole_par};
use cx_laws::laws::{accepted_entries_are_acyclic, loaded_start_is_settled};
use cx_meaning::laws::designs_keep_idle;

/// In an accepted design, where one order of the leaves ends, every order does with as many choices, in the same state; with
/// fewer it has not ended, and none has a fault.
pub fn orders_agree()
    ensures ends { (d : PlainDesign) (words : List (List ℕ)) (one other : Choices) (n m : ℕ)
        (after : State) (made sum : ℕ)
        → IsDesign d → IsAccepted d → woven d words one n ≡ Ends after made sum → made ≤ m
        → (others : ℕ) × (woven d words other m ≡ Ends after made others) }
    ensures goes_on { (d : PlainDesign) (words : List (List ℕ)) (one other : Choices) (n m : ℕ)
        (after : State) (made sum : ℕ)
        → IsDesign d → IsAccepted d → woven d words one n ≡ Ends after made sum → m < made
        → woven d words other m ≡ More }
    ensures faults { (d : PlainDesign) (words : List (List ℕ)) (one other : Choices) (n m : ℕ)
        (after : State) (made sum : ℕ) (fault : Fault) (before : ℕ)
        → IsDesign d → IsAccepted d → woven d words one n ≡ Ends after made sum
        → woven d words other m ≡ Faults fault before → ⊥ }
{
    accepted_entries_are_acyclic();
}

/// In an accepted design, where an order of the leaves ends, the run of main ends in the same state, within as many turns as
/// the order has choices.
pub fn run_ends_too()
    ensures { (d : PlainDesign) (words : List (List ℕ)) (one : Choices) (n : ℕ) (after : State) (made sum : ℕ)
        → IsDesign d → IsAccepted d → woven d words one n ≡ Ends after made sum
        → (turns : ℕ) × (run_main d words made ≡ answers.End after turns) × (turns ≤ made) }
{
    accepted_entries_are_acyclic();
    listed_cells_suffice();
    own_inputs_suffice();
    next_arm();
    whole_par();
    designs_keep_idle();
    loaded_start_is_settled();
}

/// In an accepted design, where an order of the leaves comes to a fault after some choices, the fault is one that the arm of the
/// leaf has, run alone, in one of as many turns and the next one; and in one of these the run of main has a fault.
pub fn run_faults_too()
    ensures arm { (d : PlainDesign) (words : List (List ℕ)) (one : Choices) (n : ℕ) (fault : Fault) (before : ℕ)
        → IsDesign d → IsAccepted d → woven d words one n ≡ Faults fault before
        → LeafHasAlone d words one fault before }
    ensures run { (d : PlainDesign) (words : List (List ℕ)) (one : Choices) (n : ℕ) (fault : Fault) (before : ℕ)
        → IsDesign d → IsAccepted d → woven d words one n ≡ Faults fault before
        → (first : Fault) × (turn : ℕ) × (run_main d words (suc before) ≡ answers.Fault first turn) × (turn ≤ before) }
{
    accepted_entries_are_acyclic();
    listed_cells_suffice();
    own_inputs_suffice();
    next_arm();
    whole_par();
    designs_keep_idle();
    loaded_start_is_settled();
}

/// In an accepted design, where the run of main ends, every order of the leaves ends in the same state, after a number of
/// choices that is one for all orders.
pub fn orders_end()
    ensures { (d : PlainDesign) (words : List (List ℕ)) (n : ℕ) (after : State) (turns : ℕ)
        → IsDesign d → IsAccepted d → run_main d words n ≡ answers.End after turns
        → AllEnd d words after }
{
    accepted_entries_are_acyclic();
    listed_cells_suffice();
    own_inputs_suffice();
    next_arm();
    whole_par();
    runs_agree();
    designs_keep_idle();
    loaded_start_is_settled();
}
