//! Laws: each function does nothing but call others, and its clause is the law.

ghost use Rattle.std.specs.Prelude.{◌≡◌, Some};
ghost use Rattle.cx_bits.specs.BitVector.{BitVector};
ghost use Rattle.cx_meaning.specs.declared.ports.PortRef.{PortRef};
ghost use Rattle.cx_meaning.specs.declared.sights.Seen.TheVariants.{Value};
ghost use Rattle.cx_meaning.specs.Designs.{PlainDesign};
ghost use Rattle.cx_meaning.specs.Instances.{Path, State, instance_at, part_of, tree_of};
ghost use Rattle.cx_meaning.specs.Active.{Active};
ghost use Rattle.cx_meaning.specs.Sights.{Held, Sees, seen};
ghost use Rattle.cx_rules.specs.Accepted.{IsAccepted};
ghost use Rattle.cx_rules.specs.Circles.{IsAcyclic};
ghost use Rattle.cx_rules.specs.Ports.{width_of};
ghost use Rattle.cx_rules.specs.WidthRules.{IsBadLiteral};
ghost use Rattle.cx_rules.specs.Wellformed.{IsDesign, IsThere};
ghost use Rattle.cx_laws.specs.Widths.{HoldsStates, HoldsWidths};

/// In an accepted design each value that is seen has the width of its port: in every instance of the tree whose inputs are
/// held with their widths, and at and below which each primitive cell holds a state of its row.
pub fn seen_has_width()
    ensures { (d : PlainDesign) (path : Path) (held : Held) (act : Active) (s : State) (p : PortRef) (b : BitVector)
        → IsDesign d → IsAccepted d
        → HoldsWidths (part_of (instance_at (tree_of d) path)) held → HoldsStates (instance_at (tree_of d) path) s
        → IsThere (instance_at (tree_of d) path) p → (IsBadLiteral p → ⊥)
        → Sees (instance_at (tree_of d) path) held act s p (Value b)
        → width_of (instance_at (tree_of d) path) p ≡ Some b.width }
{}

/// So has each value that is found where nothing leads in a circle under the active set.
pub fn found_has_width()
    ensures { (d : PlainDesign) (path : Path) (held : Held) (act : Active) (s : State) (p : PortRef) (b : BitVector)
        → IsDesign d → IsAccepted d → IsAcyclic (instance_at (tree_of d) path) act
        → HoldsWidths (part_of (instance_at (tree_of d) path)) held → HoldsStates (instance_at (tree_of d) path) s
        → IsThere (instance_at (tree_of d) path) p → (IsBadLiteral p → ⊥)
        → seen (instance_at (tree_of d) path) held act s p ≡ Value b
        → width_of (instance_at (tree_of d) path) p ≡ Some b.width }
{}
