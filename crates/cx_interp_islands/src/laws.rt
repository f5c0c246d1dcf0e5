//! Laws: each function does nothing but call others, and its clause is the law.

ghost use Rattle.std.specs.Prelude.{◌≡◌, ◌<◌, ℕ, suc, true};
ghost use Rattle.cx_text.specs.Members.{In};
ghost use Rattle.cx_text.specs.declared.limits.TheConstants.{REPETITIONS};
ghost use Rattle.cx_meaning.specs.declared.ports.PortRef.{PortRef};
ghost use Rattle.cx_meaning.specs.Designs.{PlainComponent, PlainDesign, PlainForm};
ghost use Rattle.cx_meaning.specs.Instances.{Path, part_of, tree_of, instance_at};
ghost use Rattle.cx_meaning.specs.Sights.{Look};
ghost use Rattle.cx_meaning.specs.Islands.{form_length};
ghost use Rattle.cx_rules.specs.Items.{Visited, statements_in};
ghost use Rattle.cx_rules.specs.StaticControl.{is_island};
ghost use Rattle.cx_rules.specs.Flat.{IsFlat};
ghost use Rattle.cx_rules.specs.Accepted.{IsAccepted};
ghost use Rattle.cx_laws.specs.Samples.{Samples, says, active_by, samples_after};
ghost use Rattle.cx_eval_drives.specs.Actives.{AreTogether};
ghost use Rattle.cx_interp_islands.specs.Asked.{IsTestIn, form_tests};
ghost use Rattle.cx_interp_islands.specs.Sampled.{AreSampled};

use cx_laws::laws::{samples_are_kept, samples_give_the_cycle, timers_give_the_active_groups};

/// In an accepted design without static components each island takes fewer cycles than the limit of repetitions, in
/// each instance of its tree: its length and its offsets fit 64 bits.
pub fn accepted_islands_are_short()
    ensures { (d : PlainDesign) (path : Path) (v : Visited)
        → IsFlat d → IsAccepted d → In (statements_in (part_of (instance_at (tree_of d) path))) v
        → is_island (part_of (instance_at (tree_of d) path)) v ≡ true
        → form_length (part_of (instance_at (tree_of d) path)) v.form < REPETITIONS }
{}

/// In the first cycle of an island the samples are those of a run once those that begin are taken, and so it is in each later
/// cycle.
pub fn taken_samples_are_of_a_run()
    ensures first { (part : PlainComponent) (form : PlainForm) (look : Look) (kept : Samples)
        → AreSampled part 0 form (samples_after part (says look) 0 form kept) }
    ensures later { (part : PlainComponent) (form : PlainForm) (t : ℕ) (look : Look) (kept : Samples)
        → AreSampled part t form kept
        → AreSampled part (suc t) form (samples_after part (says look) (suc t) form kept) }
{
    samples_are_kept();
}

/// The groups that such samples give in a cycle are groups that the statement has active together.
pub fn sampled_groups_are_together()
    ensures { (part : PlainComponent) (v : Visited) (t : ℕ) (kept : Samples)
        → In (statements_in part) v → t < form_length part v.form → AreSampled part t v.form kept
        → AreTogether part (active_by part kept t v.form) }
{
    samples_give_the_cycle();
    timers_give_the_active_groups();
}

/// The ports of the static ifs in a statement of a component are conditions of statements of the component.
pub fn static_tests_are_conditions()
    ensures { (part : PlainComponent) (v : Visited) (p : PortRef)
        → In (statements_in part) v → In (form_tests v.form) p → IsTestIn (statements_in part) p }
{}
