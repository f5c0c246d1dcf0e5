//! What is said of the lists and the net of an accepted design: each function does nothing but call others, and its clause is the law.

ghost use Rattle.cx_meaning.specs.Designs.{PlainDesign};
ghost use Rattle.cx_meaning.specs.Instances.{Path, instance_at, part_of, tree_of};
ghost use Rattle.cx_rules.specs.Accepted.{IsAccepted};
ghost use Rattle.cx_rules.specs.Flat.{IsFlat};
ghost use Rattle.cx_rules.specs.Wellformed.{IsDesign};
ghost use Rattle.cx_net.specs.NetTree.{net_tree};
ghost use Rattle.cx_static.specs.Lowering.{lowered_component, lowered_of};
ghost use Rattle.cx_wiring.specs.Wiring.{net_of};
ghost use Rattle.cx_wiring.specs.InNet.{RealisesInNet};
ghost use Rattle.cx_wiring_runs.specs.Listed.{KeepsWhatRuns};

use cx_control::laws::instances_keep_rules;
use cx_laws::laws::{accepted_has_no_empty_if, loaded_start_is_settled};

/// The net of every accepted design without static components realises it.
pub fn design_is_realised()
    ensures { (d : PlainDesign) → IsDesign d → IsFlat d → IsAccepted d →
        RealisesInNet d (net_tree (net_of (lowered_of d))) }
{
    instances_keep_rules();
    loaded_start_is_settled();
}

/// What `lower` makes of the control of an instance of an accepted design without static components keeps what runs:
/// the parts of dynamic control stand as they stood, and in place of each island stands one whose lists run as it,
/// cycle by cycle.
pub fn lowering_keeps_what_runs()
    ensures { (d : PlainDesign) (path : Path) → IsFlat d → IsAccepted d →
        KeepsWhatRuns (instance_at (tree_of d) path)
        (lowered_component (part_of (instance_at (tree_of d) path))) }
{
    accepted_has_no_empty_if();
    instances_keep_rules();
}
