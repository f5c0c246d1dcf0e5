//! Laws: each function does nothing but call others, and its clause is the law.

ghost use Rattle.std.specs.Prelude.{◌≡◌};
ghost use Rattle.cx_meaning.specs.declared.ports.PortRef.{PortRef};
ghost use Rattle.cx_meaning.specs.Designs.{PlainComponent, PlainDesign};
ghost use Rattle.cx_meaning.specs.Instances.{Instance, Path, tree_of, instance_at};
ghost use Rattle.cx_meaning.specs.Active.{drivers, source_order};
ghost use Rattle.cx_rules.specs.Accepted.{IsAccepted};
ghost use Rattle.cx_rules.specs.Circles.{IsAcyclic};
ghost use Rattle.cx_rules.specs.Wellformed.{IsDesign};
ghost use Rattle.cx_design.specs.declared.actives.Active.{Active};
ghost use Rattle.cx_design.specs.PlainActives.{plain_active};
ghost use Rattle.cx_eval_drives.specs.Actives.{CanBeActive};
ghost use Rattle.cx_eval_drives.specs.Drives.{acting_of, offset_by, owned_for};

use cx_laws::laws::accepted_entries_are_acyclic;

/// The active assignments of a port are those of its own assignments, in source order, whose group is active.
pub fn own_assigns_drive()
    ensures { (i : Instance) (part : PlainComponent) (active : Active) (p : PortRef)
        → drivers part (plain_active i active) p ≡ acting_of (offset_by active) (owned_for p (source_order part)) }
{}

/// In an accepted design nothing leads in a circle under what can be active, in no instance of its tree.
pub fn active_is_acyclic()
    ensures { (d : PlainDesign) (path : Path) (active : Active)
        → IsDesign d → IsAccepted d → CanBeActive (instance_at (tree_of d) path) active
        → IsAcyclic (instance_at (tree_of d) path) (plain_active (instance_at (tree_of d) path) active) }
{
    accepted_entries_are_acyclic();
}
