//! Laws: each function does nothing but call others, and its clause is the law.

ghost use Rattle.std.specs.Prelude.{◌≡◌, ℕ, List, Some};
ghost use Rattle.cx_bits.specs.BitVector.{BitVector};
ghost use Rattle.cx_meaning.specs.declared.ports.PortRef.{PortRef};
ghost use Rattle.cx_meaning.specs.declared.sights.Seen.TheVariants.{Value};
ghost use Rattle.cx_meaning.specs.Designs.{PlainDesign};
ghost use Rattle.cx_meaning.specs.Instances.{Path, State, instance_at, part_of, tree_of};
ghost use Rattle.cx_meaning.specs.Active.{Active};
ghost use Rattle.cx_meaning.specs.Sights.{seen};
ghost use Rattle.cx_rules.specs.Accepted.{IsAccepted};
ghost use Rattle.cx_rules.specs.Circles.{IsAcyclic};
ghost use Rattle.cx_rules.specs.Ports.{width_of};
ghost use Rattle.cx_rules.specs.WidthRules.{IsBadLiteral};
ghost use Rattle.cx_rules.specs.Wellformed.{IsDesign, IsThere};
ghost use Rattle.cx_state.specs.Tables.{IsNumber};
ghost use Rattle.cx_state.specs.States.{PlainInstance, IsStateOf, StandsFor, inputs_held, under_path};
ghost use Rattle.cx_laws.specs.Widths.{HoldsStates, HoldsWidths};

use cx_laws::width_laws::found_has_width;

/// In a state of a design the inputs of every instance are held with their widths, and each primitive cell at and below it
/// holds a state of its row.
pub fn states_hold_widths()
    ensures inputs { (d : PlainDesign) (rows : List PlainInstance) (n : ℕ) (path : Path)
        → IsStateOf d rows → IsNumber d n path
        → HoldsWidths (part_of (instance_at (tree_of d) path)) (inputs_held rows n) }
    ensures cells { (d : PlainDesign) (rows : List PlainInstance) (s : State) (path : Path)
        → IsStateOf d rows → StandsFor (tree_of d) rows s
        → HoldsStates (instance_at (tree_of d) path) (under_path path s) }
{}

/// So each value that is found there has the width of its port, where the design is accepted and nothing leads in a circle.
pub fn state_seen_has_width()
    ensures { (d : PlainDesign) (rows : List PlainInstance) (s : State) (n : ℕ) (path : Path)
        (act : Active) (p : PortRef) (b : BitVector)
        → IsDesign d → IsAccepted d → IsAcyclic (instance_at (tree_of d) path) act
        → IsStateOf d rows → StandsFor (tree_of d) rows s → IsNumber d n path
        → IsThere (instance_at (tree_of d) path) p → (IsBadLiteral p → ⊥)
        → seen (instance_at (tree_of d) path) (inputs_held rows n) act (under_path path s) p ≡ Value b
        → width_of (instance_at (tree_of d) path) p ≡ Some b.width }
{
    found_has_width();
    states_hold_widths();
}
