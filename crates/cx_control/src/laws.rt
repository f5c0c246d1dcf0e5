//! Laws of the control of an accepted design: each function does nothing but call others, and its clause is the law.

ghost use Rattle.cx_meaning.specs.Designs.{PlainDesign};
ghost use Rattle.cx_meaning.specs.Instances.{Path, tree_of, instance_at, idle_at};
ghost use Rattle.cx_rules.specs.Accepted.{IsAccepted};
ghost use Rattle.cx_rules.specs.Flat.{IsFlat};
ghost use Rattle.cx_rules.specs.Wellformed.{IsDesign};
ghost use Rattle.cx_control.specs.Leaves.{Coded};
ghost use Rattle.cx_control.specs.Controls.{coded_control};
ghost use Rattle.cx_control.specs.Numbers.{number_idle_at};
ghost use Rattle.cx_control.specs.Standing.{good_control};
ghost use Rattle.cx_control.specs.Keeping.{Keeps};
ghost use Rattle.cx_control.specs.ControlRules.{ControlRules};
ghost use Rattle.cx_control.specs.IslandRules.{IslandRules};
ghost use Rattle.cx_control.specs.StatementCodingLaws.{IsRegion};
ghost use Rattle.cx_control.specs.DesignRuns.{MachineRuns};

use cx_frames::apart_laws::cycles_keep_the_rest;
use cx_frames::arm_laws::own_inputs_suffice;
use cx_laws::laws::{
    accepted_entries_are_acyclic, accepted_has_no_empty_if, loaded_start_is_settled,
    reads_are_closed, samples_give_the_cycle, timers_give_the_active_groups,
    timers_give_the_begun_ports,
};

/// Every instance of an accepted design without static components keeps the rules that its control needs.
pub fn instances_keep_rules()
    ensures rules { (d : PlainDesign) (path : Path) → IsDesign d → IsFlat d → IsAccepted d →
        ControlRules (instance_at (tree_of d) path) }
    ensures islands { (d : PlainDesign) (path : Path) → IsFlat d → IsAccepted d →
        IslandRules (instance_at (tree_of d) path) }
{
    cycles_keep_the_rest();
    own_inputs_suffice();
    accepted_entries_are_acyclic();
    accepted_has_no_empty_if();
    reads_are_closed();
    samples_give_the_cycle();
    timers_give_the_active_groups();
    timers_give_the_begun_ports();
}

/// The places of the control of each instance are numbers, and fine places are given back by theirs; the invariant holds at a start
/// from rest, is kept by every step without a fault, and an end leaves all at rest.
pub fn controls_stand()
    ensures codes { (d : PlainDesign) (path : Path)
        → IsDesign d → IsFlat d → IsAccepted d
        → IsRegion (Coded.machine (coded_control (instance_at (tree_of d) path)))
        (Coded.coding (coded_control (instance_at (tree_of d) path))) }
    ensures keeps { (d : PlainDesign) (path : Path)
        → IsDesign d → IsFlat d → IsAccepted d
        → Keeps (coded_control (instance_at (tree_of d) path)) (good_control (instance_at (tree_of d) path))
        (λ below cell. idle_at (instance_at (tree_of d) path) below cell)
        (λ below n v. number_idle_at (instance_at (tree_of d) path) below n v) }
{
    instances_keep_rules();
}

/// The machine of an accepted design without static components ends as its main does, after as many cycles and with
/// the same cells, and is not done while main needs more turns.
pub fn machine_runs()
    ensures { (d : PlainDesign) → IsDesign d → IsFlat d → IsAccepted d → MachineRuns d }
{
    instances_keep_rules();
    loaded_start_is_settled();
}
