//! Laws of the runs of instrumented designs: each function does nothing, and its clause is the law.

ghost use Rattle.std.specs.Prelude.{◌≡◌, ◌≤◌, ℕ, List};
ghost use Rattle.cx_meaning.specs.Designs.{PlainDesign};
ghost use Rattle.cx_meaning.specs.Instances.{tree_of};
ghost use Rattle.cx_text.specs.Members.{In};
ghost use Rattle.cx_rules.specs.Accepted.{IsAccepted};
ghost use Rattle.cx_rules.specs.Flat.{IsFlat};
ghost use Rattle.cx_rules.specs.Wellformed.{IsDesign};
ghost use Rattle.cx_profiling.specs.Counters.{ProfileEntry, entries_of, entry_count};
ghost use Rattle.cx_profiling.specs.Counting.{tally_of};
ghost use Rattle.cx_profiling.specs.WholeCounting.{whole_tally_of};
ghost use Rattle.cx_profiling.specs.Instrumented.{instrumented};
ghost use Rattle.cx_profiling.specs.RunsAlike.{InstrumentsAs};
ghost use Rattle.cx_profiling.specs.WholeRunsAlike.{WholeInstrumentsAs};
ghost use Rattle.cx_flattening.specs.Ends.{NoneNamesDone};

/// An instrumented design runs as its design, on all data and under each budget: it ends two turns later for each entry of the
/// profile, its old memories have the words that those of the design have and its last memory the counts; or it has the same
/// fault in the same turn; or it goes on where the design does.
pub fn instrumented_runs_alike()
    ensures { (d : PlainDesign) → IsDesign d → IsAccepted d → IsAccepted (instrumented d) →
        1 ≤ entry_count d → InstrumentsAs d }
{}

/// No group is counted more often than the budget has turns.
pub fn counts_are_within_turns()
    ensures { (d : PlainDesign) → IsDesign d → IsAccepted d →
        (words : List (List ℕ)) (n : ℕ) (e : ProfileEntry) → In (entries_of (tree_of d)) e
        → tally_of d words n e.path e.group ≤ n }
{}

/// Of a design without static components the counts are those without them.
pub fn counts_are_the_same_without()
    ensures { (d : PlainDesign) (words : List (List ℕ)) (n : ℕ) → IsDesign d → IsFlat d →
        whole_tally_of d words n ≡ tally_of d words n }
{}

/// With static components, of which nothing looks at a done, as in the design of each text: an instrumented design runs as its
/// design, by the meaning with static invokes, two turns longer for each entry, with the counts of all instances.
pub fn whole_instrumented_runs_alike()
    ensures { (d : PlainDesign) → IsDesign d → IsAccepted d → NoneNamesDone d →
        IsAccepted (instrumented d) → 1 ≤ entry_count d → WholeInstrumentsAs d }
{}

/// No group is counted more often than the budget has turns, with static components too.
pub fn whole_counts_are_within_turns()
    ensures { (d : PlainDesign) → IsDesign d → IsAccepted d → NoneNamesDone d →
        (words : List (List ℕ)) (n : ℕ) (e : ProfileEntry)
        → In (entries_of (tree_of d)) e → whole_tally_of d words n e.path e.group ≤ n }
{}
