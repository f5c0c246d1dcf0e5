//! The counts of a flat design: each function does nothing, and its clause is the law.

ghost use Rattle.std.specs.Prelude.{◌≡◌, ◌<◌, ℕ, List, length};
ghost use Rattle.cx_meaning.specs.Designs.{PlainDesign};
ghost use Rattle.cx_meaning.specs.Instances.{Path, instance_at, part_of, tree_of};
ghost use Rattle.cx_text.specs.Members.{In};
ghost use Rattle.cx_rules.specs.Accepted.{IsAccepted};
ghost use Rattle.cx_rules.specs.Wellformed.{IsDesign};
ghost use Rattle.cx_flattening.specs.Ends.{NoneNamesDone};
ghost use Rattle.cx_flattening.specs.FlatDesign.{flat_design};
ghost use Rattle.cx_flattening.specs.Runnable.{runnable};
ghost use Rattle.cx_profiling.specs.Counters.{ProfileEntry, entries_of};
ghost use Rattle.cx_profiling.specs.Counting.{tally_of};
ghost use Rattle.cx_profiling.specs.FlatEntries.{entry_at, flat_entries, total_of};
ghost use Rattle.cx_profiling.specs.WholeCounting.{whole_tally_of};

use cx_flattening::laws::flat_trees_are_flattened;

/// What the run of an accepted design counts of a group of an instance, the run of its flat design counts of the entries that stand
/// for it, together; so does the run of the design that is run, which is the design itself where nothing is static; and so it is of
/// each entry of a profile.
pub fn flat_designs_count_the_same()
    ensures groups { (d : PlainDesign) (words : List (List ℕ)) (n : ℕ) (path : Path) (g : ℕ)
        → IsDesign d → IsAccepted d → NoneNamesDone d → g < length (part_of (instance_at (tree_of d) path)).groups
        → whole_tally_of d words n path g ≡
        total_of (tally_of (flat_design d) words n) (flat_entries d (entry_at path g)) }
    ensures runs { (d : PlainDesign) (words : List (List ℕ)) (n : ℕ) (path : Path) (g : ℕ)
        → IsDesign d → IsAccepted d → NoneNamesDone d → g < length (part_of (instance_at (tree_of d) path)).groups
        → whole_tally_of d words n path g ≡
        total_of (tally_of (runnable d) words n) (flat_entries d (entry_at path g)) }
    ensures entries { (d : PlainDesign) (words : List (List ℕ)) (n : ℕ) (e : ProfileEntry)
        → IsDesign d → IsAccepted d → NoneNamesDone d → In (entries_of (tree_of d)) e
        → whole_tally_of d words n e.path e.group ≡ total_of (tally_of (runnable d) words n) (flat_entries d e) }
{
    flat_trees_are_flattened();
}

/// Each entry that stands for a group of an instance is there: its group is one of the instance at its path, in the flat design, and in
/// the design that is run.
pub fn flat_entries_are_there()
    ensures groups { (d : PlainDesign) (path : Path) (g : ℕ) (e : ProfileEntry)
        → IsDesign d → g < length (part_of (instance_at (tree_of d) path)).groups
        → In (flat_entries d (entry_at path g)) e
        → e.group < length (part_of (instance_at (tree_of (flat_design d)) e.path)).groups }
    ensures runs { (d : PlainDesign) (e f : ProfileEntry)
        → IsDesign d → In (entries_of (tree_of d)) e → In (flat_entries d e) f
        → f.group < length (part_of (instance_at (tree_of (runnable d)) f.path)).groups }
{
    flat_trees_are_flattened();
}
