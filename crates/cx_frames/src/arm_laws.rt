//! Laws of arms that run one after another: each function does nothing but call others, and its clause is the law.

ghost use Rattle.std.specs.Prelude.{◌≡◌, ◌≤◌, ◌<◌, ◌+◌, ℕ, suc, List, [], ◌∷◌, ◌++◌, Some, length, slice_get, take};
ghost use Rattle.cx_text.specs.Members.{In};
ghost use Rattle.cx_text.specs.declared.places.Place.{Place};
ghost use Rattle.cx_meaning.specs.Designs.{PlainDesign, PlainStatement, PlainStatements, Placed, Par, no_statements, statements_of, list_of};
ghost use Rattle.cx_meaning.specs.Instances.{Instance, State, Path, part_of, tree_of, instance_at, IsSettled};
ghost use Rattle.cx_meaning.specs.Sights.{Held};
ghost use Rattle.cx_meaning.specs.Control.{drives};
ghost use Rattle.cx_meaning.specs.Running.{run_control, run_statement};
ghost use Rattle.cx_rules.specs.Accepted.{IsAccepted};
ghost use Rattle.cx_rules.specs.Footprints.{Reads};
ghost use Rattle.cx_rules.specs.Items.{Visited, statements_in};
ghost use Rattle.cx_rules.specs.Wellformed.{IsDesign};
ghost use Rattle.cx_frames.specs.Agreeing.{Agree, Alike};
ghost use Rattle.cx_frames.specs.Arms.{all_drive, arms_run};
ghost use Rattle.cx_frames.specs.Ran.{Outcome, Ended, Unfinished, Ran, limit, joined};

use cx_laws::laws::{accepted_entries_are_acyclic, reads_are_closed};
use cx_meaning::laws::grows_with_budget;

/// What a statement of an accepted design does depends on what it reads alone: from states that agree there it ends after
/// the same turns in states that agree there, or has the same fault in the same turn, or runs on.
pub fn runs_agree()
    ensures { (d : PlainDesign) (path : Path) (held : Held) (v : Visited) (s t : State) (n : ℕ)
        → IsDesign d → IsAccepted d → In (statements_in (part_of (instance_at (tree_of d) path))) v
        → Agree (Reads (part_of (instance_at (tree_of d) path)) (Placed v.form v.place)) s t
        → Alike (Reads (part_of (instance_at (tree_of d) path)) (Placed v.form v.place))
        (run_statement (instance_at (tree_of d) path) held (Placed v.form v.place) s n)
        (run_statement (instance_at (tree_of d) path) held (Placed v.form v.place) t n) }
{
    accepted_entries_are_acyclic();
    reads_are_closed();
}

/// Before the first arm nothing has run.
pub fn stay()
    ensures { (i : Instance) (held : Held) (s : State) (n : ℕ)
        → IsSettled i s → Ran i (all_drive (part_of i) []) (arms_run i held []) s n s (Ended 0) }
{}

/// In an accepted design one more arm of a `par` may run on the state that the arms before it left, within the turns in
/// which it still matters: what it leaves is what all of them leave, each from the first state, with their joined outcome.
pub fn next_arm()
    ensures split { (d : PlainDesign) (path : Path) (held : Held) (v : Visited)
        (arms : PlainStatements) (done later : List PlainStatement) (arm : PlainStatement) (s cur next : State) (n : ℕ) (o p : Outcome)
        → IsDesign d → IsAccepted d → In (statements_in (part_of (instance_at (tree_of d) path))) v
        → v.form ≡ Par arms → list_of arms ≡ done ++ (arm ∷ later)
        → Ran (instance_at (tree_of d) path) (all_drive (part_of (instance_at (tree_of d) path)) done)
        (arms_run (instance_at (tree_of d) path) held done) s n cur o
        → Ran (instance_at (tree_of d) path) (drives (part_of (instance_at (tree_of d) path)) arm)
        (run_statement (instance_at (tree_of d) path) held arm) cur (limit n o) next p
        → Ran (instance_at (tree_of d) path) (all_drive (part_of (instance_at (tree_of d) path)) (done ++ (arm ∷ [])))
        (arms_run (instance_at (tree_of d) path) held (done ++ (arm ∷ []))) s n next (joined o p) }
    ensures numbered { (d : PlainDesign) (path : Path) (held : Held) (v : Visited)
        (list : List PlainStatement) (k : ℕ) (arm : PlainStatement) (s cur next : State) (n : ℕ) (o p : Outcome)
        → IsDesign d → IsAccepted d → In (statements_in (part_of (instance_at (tree_of d) path))) v
        → v.form ≡ Par (statements_of list) → slice_get list k ≡ Some arm
        → Ran (instance_at (tree_of d) path) (all_drive (part_of (instance_at (tree_of d) path)) (take k list))
        (arms_run (instance_at (tree_of d) path) held (take k list)) s n cur o
        → Ran (instance_at (tree_of d) path) (drives (part_of (instance_at (tree_of d) path)) arm)
        (run_statement (instance_at (tree_of d) path) held arm) cur (limit n o) next p
        → Ran (instance_at (tree_of d) path) (all_drive (part_of (instance_at (tree_of d) path)) (take (k + 1) list))
        (arms_run (instance_at (tree_of d) path) held (take (k + 1) list)) s n next (joined o p) }
{
    runs_agree();
    grows_with_budget();
}

/// When all arms of a `par` have run, the `par` has; without arms it is an idle turn.
pub fn whole_par()
    ensures arms { (i : Instance) (held : Held) (arms : PlainStatements) (place : Place)
        (first : PlainStatement) (rest : List PlainStatement)
        (s after : State) (n : ℕ) (o : Outcome)
        → list_of arms ≡ first ∷ rest
        → Ran i (all_drive (part_of i) (list_of arms)) (arms_run i held (list_of arms)) s n after o
        → Ran i (drives (part_of i) (Placed (Par arms) place))
        (run_statement i held (Placed (Par arms) place)) s n after o }
    ensures listed { (i : Instance) (held : Held) (list : List PlainStatement) (place : Place)
        (s after : State) (n : ℕ) (o : Outcome)
        → 1 ≤ length list
        → Ran i (all_drive (part_of i) list) (arms_run i held list) s n after o
        → Ran i (drives (part_of i) (Placed (Par (statements_of list)) place))
        (run_statement i held (Placed (Par (statements_of list)) place)) s n after o }
    ensures none { (i : Instance) (held : Held) (place : Place) (s : State) (n : ℕ)
        → IsSettled i s
        → Ran i (drives (part_of i) (Placed (Par no_statements) place))
        (run_statement i held (Placed (Par no_statements) place)) s (suc n) s (Ended 1) }
    ensures waits { (i : Instance) (held : Held) (place : Place) (s : State)
        → IsSettled i s
        → Ran i (drives (part_of i) (Placed (Par no_statements) place))
        (run_statement i held (Placed (Par no_statements) place)) s 0 s Unfinished }
{}

/// What the control of an instance does depends on how the inputs are held that its component has, and on no others.
pub fn own_inputs_suffice()
    ensures { (d : PlainDesign) (path : Path) (held other : Held) (s : State) (n : ℕ)
        → IsDesign d → IsAccepted d
        → ((input : ℕ) → input < length (part_of (instance_at (tree_of d) path)).inputs → held input ≡ other input)
        → run_control (instance_at (tree_of d) path) held s n ≡ run_control (instance_at (tree_of d) path) other s n }
{
    accepted_entries_are_acyclic();
}
