//! Laws: each function does nothing, and its clause is the law.

ghost use Rattle.std.specs.Prelude.{◌≡◌, ◌<◌, ℕ, suc, List, [], Some, true};
ghost use Rattle.cx_text.specs.Members.{In};
ghost use Rattle.cx_meaning.specs.Designs.{PlainDesign, PlainComponent, PlainForm, PlainStatement};
ghost use Rattle.cx_meaning.specs.Instances.{Set, Instance, State, Path, part_of, tree_of, instance_at, start, IsSettled};
ghost use Rattle.cx_meaning.specs.Active.{Entry, entries};
ghost use Rattle.cx_meaning.specs.Sights.{Held, Look};
ghost use Rattle.cx_meaning.specs.Islands.{History, and_now, form_flat, form_length, active_in, looked_at, island};
ghost use Rattle.cx_rules.specs.Items.{Visited, statements_in};
ghost use Rattle.cx_rules.specs.Footprints.{Reads};
ghost use Rattle.cx_rules.specs.Accepted.{IsAccepted};
ghost use Rattle.cx_rules.specs.Flat.{IsFlat};
ghost use Rattle.cx_rules.specs.Wellformed.{IsDesign};
ghost use Rattle.cx_rules.specs.Circles.{IsAcyclic};
ghost use Rattle.cx_laws.specs.Closures.{IsClosed};
ghost use Rattle.cx_laws.specs.Positions.{active_at, begun_at, HasNoEmptyIf};
ghost use Rattle.cx_laws.specs.Samples.{Samples, says, active_by, begun_by, samples_after, AreKept};
ghost use Rattle.cx_laws.specs.SampledIslands.{sampled_island};

/// Every start is settled, with whatever words the external memories are loaded.
pub fn loaded_start_is_settled()
    ensures { (d : PlainDesign) (words : List (List ℕ)) → IsSettled (tree_of d) (start (tree_of d) words) }
{}

/// What a statement reads is closed: it has what the statement drives and names, and with each cell what continuous
/// assignments of its ports name.
pub fn reads_are_closed()
    ensures { (part : PlainComponent) (s : PlainStatement) → IsClosed part s (Reads part s) }
{}

/// And it is within every other set of cells that is closed.
pub fn reads_are_least()
    ensures { (part : PlainComponent) (s : PlainStatement) (set : Set) (c : ℕ)
        → IsClosed part s (λ e. set e ≡ true) → Reads part s c → set c ≡ true }
{}

/// The groups that are active in a cycle of an island, by nested timers and without unrolling, are those of its flat list, in
/// the same order.
pub fn timers_give_the_active_groups()
    ensures { (part : PlainComponent) (form : PlainForm) (h : History) (t : ℕ)
        → t < form_length part form → active_in h t (form_flat part form 0 []) ≡ active_at part h t form }
{}

/// And so are the ports of the static ifs that begin, where no static if is empty.
pub fn timers_give_the_begun_ports()
    ensures { (part : PlainComponent) (form : PlainForm) (h : History) (t : ℕ)
        → HasNoEmptyIf part form → t < form_length part form
        → looked_at h t (form_flat part form 0 []) ≡ begun_at part h t form }
{}

/// In an accepted design without static components no static if is empty, in no instance of its tree.
pub fn accepted_has_no_empty_if()
    ensures { (d : PlainDesign) (path : Path) (v : Visited)
        → IsFlat d → IsAccepted d → In (statements_in (part_of (instance_at (tree_of d) path))) v
        → HasNoEmptyIf (part_of (instance_at (tree_of d) path)) v.form }
{}

/// Where every static if that runs has its sample, the samples give the active groups and the ports of the static ifs that begin.
pub fn samples_give_the_cycle()
    ensures active { (part : PlainComponent) (form : PlainForm) (h : History) (t : ℕ) (kept : Samples)
        → AreKept part h t form kept → active_by part kept t form ≡ active_at part h t form }
    ensures begun { (part : PlainComponent) (form : PlainForm) (h : History) (t : ℕ) (kept : Samples)
        → AreKept part h t form kept → begun_by part kept t form ≡ begun_at part h t form }
{}

/// In the first cycle of an island every static if that runs has its sample once those that begin have taken their ports, and
/// so it is in each later cycle. Nothing but the samples has to be kept.
pub fn samples_are_kept()
    ensures first { (part : PlainComponent) (form : PlainForm) (h : History) (look : Look) (kept : Samples)
        → AreKept part (and_now h 0 look) 0 form (samples_after part (says look) 0 form kept) }
    ensures later { (part : PlainComponent) (form : PlainForm) (h : History) (t : ℕ) (look : Look) (kept : Samples)
        → AreKept part h t form kept
        → AreKept part (and_now h (suc t) look) (suc t) form (samples_after part (says look) (suc t) form kept) }
{}

/// An island runs so: it keeps nothing of earlier cycles but its samples, and unrolls nothing. No static if in it is empty.
pub fn islands_run_by_samples()
    ensures { (i : Instance) (held : Held) (form : PlainForm) (kept : Samples) (s : State) (n : ℕ)
        → HasNoEmptyIf (part_of i) form → sampled_island i held form kept s n ≡ island i held form s n }
{}

/// In an accepted design each group that a static statement has active in a cycle is active at one offset.
pub fn accepted_groups_have_one_offset()
    ensures { (d : PlainDesign) (path : Path) (v : Visited) (h : History) (t : ℕ) (e : Entry)
        → IsAccepted d → In (statements_in (part_of (instance_at (tree_of d) path))) v
        → In (active_in h t (form_flat (part_of (instance_at (tree_of d) path)) v.form 0 [])) e
        → (entries
        (active_in h t (form_flat (part_of (instance_at (tree_of d) path)) v.form 0 []))).offset e.group ≡
        Some e.offset }
{}

/// In an accepted design nothing leads in a circle under the groups that a static statement has active together in a cycle,
/// whatever the values of its samples: in no instance of its tree.
pub fn accepted_entries_are_acyclic()
    ensures { (d : PlainDesign) (path : Path) (v : Visited) (h : History) (t : ℕ)
        → IsDesign d → IsAccepted d → In (statements_in (part_of (instance_at (tree_of d) path))) v
        → IsAcyclic (instance_at (tree_of d) path)
        (entries (active_in h t (form_flat (part_of (instance_at (tree_of d) path)) v.form 0 []))) }
{}
