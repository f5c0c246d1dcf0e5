//! Laws of counts: each function does nothing but call others, and its clause is the law.

ghost use Rattle.std.specs.Prelude.{◌≡◌, ◌<◌, ◌+◌, ℕ, List, Some, length, slice_get, take};
ghost use Rattle.cx_text.specs.Members.{In};
ghost use Rattle.cx_meaning.specs.Designs.{PlainDesign, PlainForm, PlainStatement, Placed, Par, statements_of};
ghost use Rattle.cx_meaning.specs.Instances.{Instance, State, Path, part_of, tree_of, instance_at};
ghost use Rattle.cx_meaning.specs.Sights.{Held};
ghost use Rattle.cx_rules.specs.Accepted.{IsAccepted};
ghost use Rattle.cx_rules.specs.Footprints.{Reads};
ghost use Rattle.cx_rules.specs.Items.{Visited, statements_in};
ghost use Rattle.cx_rules.specs.Wellformed.{IsDesign};
ghost use Rattle.cx_laws.specs.Positions.{HasNoEmptyIf};
ghost use Rattle.cx_laws.specs.Samples.{Samples};
ghost use Rattle.cx_frames.specs.Agreeing.{Agree};
ghost use Rattle.cx_frames.specs.Arms.{all_drive, arms_run};
ghost use Rattle.cx_frames.specs.Ran.{Outcome, Ran};
ghost use Rattle.cx_profiling.specs.Counting.{count_control, count_island};
ghost use Rattle.cx_profiling.specs.StatementCounts.{count_statement, count_of_arms, sampled_count};

use cx_laws::laws::{accepted_entries_are_acyclic, reads_are_closed};

/// What a statement of an accepted design counts depends on what it reads alone: from states that agree there it counts the
/// same, under each budget.
pub fn counts_agree()
    ensures { (d : PlainDesign) (path : Path) (held : Held) (v : Visited) (s t : State) (n : ℕ)
        → IsDesign d → IsAccepted d → In (statements_in (part_of (instance_at (tree_of d) path))) v
        → Agree (Reads (part_of (instance_at (tree_of d) path)) (Placed v.form v.place)) s t
        → (q : Path) (g : ℕ) → count_statement (instance_at (tree_of d) path) held (Placed v.form v.place) s n q g
        ≡ count_statement (instance_at (tree_of d) path) held (Placed v.form v.place) t n q g }
{
    accepted_entries_are_acyclic();
    reads_are_closed();
}

/// In an accepted design one more arm of a `par` counts, on the state that the arms before it left, what it counts from the first
/// state, under each budget and however those arms came out.
pub fn next_arm_counts()
    ensures { (d : PlainDesign) (path : Path) (held : Held) (v : Visited)
        (list : List PlainStatement) (k : ℕ) (arm : PlainStatement) (s cur : State) (n m : ℕ) (o : Outcome)
        → IsDesign d → IsAccepted d → In (statements_in (part_of (instance_at (tree_of d) path))) v
        → v.form ≡ Par (statements_of list) → slice_get list k ≡ Some arm
        → Ran (instance_at (tree_of d) path) (all_drive (part_of (instance_at (tree_of d) path)) (take k list))
        (arms_run (instance_at (tree_of d) path) held (take k list)) s n cur o
        → (q : Path) (g : ℕ) → count_statement (instance_at (tree_of d) path) held arm cur m q g
        ≡ count_statement (instance_at (tree_of d) path) held arm s m q g }
{
    counts_agree();
}

/// So in an accepted design the arms of a `par` up to one more count what those before it count, and what it counts on the state
/// that they left.
pub fn arms_add_up()
    ensures { (d : PlainDesign) (path : Path) (held : Held) (v : Visited)
        (list : List PlainStatement) (k : ℕ) (arm : PlainStatement) (s cur : State) (n m : ℕ) (o : Outcome)
        → IsDesign d → IsAccepted d → In (statements_in (part_of (instance_at (tree_of d) path))) v
        → v.form ≡ Par (statements_of list) → slice_get list k ≡ Some arm
        → Ran (instance_at (tree_of d) path) (all_drive (part_of (instance_at (tree_of d) path)) (take k list))
        (arms_run (instance_at (tree_of d) path) held (take k list)) s n cur o
        → (q : Path) (g : ℕ) → count_of_arms (instance_at (tree_of d) path) held (take (k + 1) list) s m q g
        ≡ count_of_arms (instance_at (tree_of d) path) held (take k list) s m q g
        + count_statement (instance_at (tree_of d) path) held arm cur m q g }
{
    counts_agree();
}

/// What the control of an instance counts depends on how the inputs are held that its component has, and on no others.
pub fn own_inputs_suffice_for_counts()
    ensures { (d : PlainDesign) (path : Path) (held other : Held) (s : State) (n : ℕ)
        → IsDesign d → IsAccepted d
        → ((input : ℕ) → input < length (part_of (instance_at (tree_of d) path)).inputs → held input ≡ other input)
        → (q : Path) (g : ℕ) → count_control (instance_at (tree_of d) path) held s n q g ≡
        count_control (instance_at (tree_of d) path) other s n q g }
{
    accepted_entries_are_acyclic();
}

/// An island counts by its samples alone what it counts by its flat list, where no static if in it is empty.
pub fn islands_count_by_samples()
    ensures { (i : Instance) (held : Held) (form : PlainForm) (kept : Samples) (s : State) (n : ℕ)
        → HasNoEmptyIf (part_of i) form → (q : Path) (g : ℕ)
        → sampled_count i held form kept s n q g ≡ count_island i held form s n q g }
{}
