//! Laws of what stands at ports and cells: each function does nothing but call others, and its clause is the law.

ghost use Rattle.std.specs.Prelude.{◌≡◌, ℕ, [], ◌∷◌, Some};
ghost use Rattle.cx_text.specs.Members.{In};
ghost use Rattle.cx_bits.specs.BitVector.{BitVector};
ghost use Rattle.cx_prim.specs.CellStates.{CellState};
ghost use Rattle.cx_prim.specs.Rows.{Row};
ghost use Rattle.cx_meaning.specs.declared.ports.PortRef.{PortRef};
ghost use Rattle.cx_meaning.specs.declared.ports.PortRef.TheVariants.{Cell, Done};
ghost use Rattle.cx_meaning.specs.declared.sights.Seen.TheVariants.{Value};
ghost use Rattle.cx_meaning.specs.Designs.{PlainDesign, PlainStatement};
ghost use Rattle.cx_meaning.specs.Instances.{Instance, OfRow, Path, State, cell_at, cells_of, instance_at, part_of, tree_of};
ghost use Rattle.cx_meaning.specs.Active.{Active, Owned, offset_of, source_order};
ghost use Rattle.cx_meaning.specs.Sights.{Held, Sees, seen};
ghost use Rattle.cx_meaning.specs.Cycles.{Next, cell_outcome};
ghost use Rattle.cx_rules.specs.Accepted.{IsAccepted};
ghost use Rattle.cx_rules.specs.Circles.{IsAcyclic};
ghost use Rattle.cx_rules.specs.Wellformed.{IsDesign};
ghost use Rattle.cx_frames.specs.Rests.{IsUndriven};
ghost use Rattle.cx_control.specs.Apart.{HasLess, IsApart, IsOf};
ghost use Rattle.cx_control.specs.Together.{IsTogether};
ghost use Rattle.cx_control.specs.Flows.{Around, Reaches, Solves, Undisturbed, Values, given};

use cx_frames::apart_laws::accepted_always_enables_nothing;
use cx_laws::width_laws::seen_has_width;

/// In an accepted design what a port is seen as under one active set, where that is a value, stands there in every solution
/// of the equations of the instance under all that is active together, if the rest does not disturb the port.
pub fn seen_values_flow()
    ensures { (d : PlainDesign) (path : Path) (held : Held) (act go : Active) (s : State) (around : Around) (v : Values)
        (p : PortRef) (b : BitVector)
        → IsDesign d → IsAccepted d → Solves (instance_at (tree_of d) path) go s around v
        → Undisturbed (instance_at (tree_of d) path) held act go s around p
        → Sees (instance_at (tree_of d) path) held act s p (Value b) → v p ≡ b }
{
    accepted_always_enables_nothing();
    seen_has_width();
}

/// So a primitive cell whose ports are undisturbed comes to the same at the edge as in its cycle, where that is no fault.
pub fn cells_step()
    ensures { (d : PlainDesign) (path : Path) (held : Held) (act go : Active) (s : State) (around : Around) (v : Values)
        (c : ℕ) (row : Row) (after : CellState)
        → IsDesign d → IsAccepted d → Solves (instance_at (tree_of d) path) go s around v
        → IsAcyclic (instance_at (tree_of d) path) act
        → ((p : ℕ) → Undisturbed (instance_at (tree_of d) path) held act go s around (Cell c p))
        → cell_at (cells_of (instance_at (tree_of d) path)) c ≡ OfRow row
        → cell_outcome (seen (instance_at (tree_of d) path) held act s) c row (s (c ∷ [])) ≡ Next after
        → row.next (s (c ∷ [])) (given v c 0 row.ports) ≡ after }
{
    accepted_always_enables_nothing();
    seen_has_width();
}

/// And one that no active group drives makes its idle step.
pub fn cells_idle()
    ensures { (d : PlainDesign) (path : Path) (go : Active) (s : State) (around : Around) (v : Values)
        (c : ℕ) (row : Row)
        → IsDesign d → IsAccepted d → Solves (instance_at (tree_of d) path) go s around v
        → IsUndriven (part_of (instance_at (tree_of d) path)) go c
        → cell_at (cells_of (instance_at (tree_of d) path)) c ≡ OfRow row
        → row.next (s (c ∷ [])) (given v c 0 row.ports) ≡ row.idle (s (c ∷ [])) }
{
    accepted_always_enables_nothing();
    seen_has_width();
}

/// The rest does not disturb a port of a statement that runs beside it: of each group that drives a cell that the statement
/// reads, all that is active together has what the statement's own set has. So of each port of a cell that it depends on the
/// assignments are the same, and it depends on no hole of another group.
pub fn apart_is_undisturbed()
    ensures assigns { (d : PlainDesign) (path : Path) (s : PlainStatement) (act go : Active) (p : PortRef)
        (c q : ℕ) (o : Owned)
        → IsDesign d → IsAccepted d → IsApart (part_of (instance_at (tree_of d) path)) s act go
        → IsOf (part_of (instance_at (tree_of d) path)) s act p
        → Reaches (instance_at (tree_of d) path) act p (Cell c q)
        → In (source_order (part_of (instance_at (tree_of d) path))) o → o.assign.target ≡ Cell c q
        → offset_of act o.owner ≡ offset_of go o.owner }
    ensures holes { (d : PlainDesign) (path : Path) (s : PlainStatement) (act go : Active) (p : PortRef) (g : ℕ)
        → IsDesign d → IsAccepted d → IsApart (part_of (instance_at (tree_of d) path)) s act go
        → IsOf (part_of (instance_at (tree_of d) path)) s act p
        → Reaches (instance_at (tree_of d) path) act p (Done g) → act.offset g ≡ Some 0 }
{}

/// Where nothing leads in a circle under an active set, nothing does under one with less in it.
pub fn less_is_acyclic()
    ensures { (i : Instance) (act less : Active) → IsAcyclic i act → HasLess less act → IsAcyclic i less }
{}

/// In an accepted design nothing leads in a circle under what the control of an instance may have active at once: of a `par` and
/// of a static `par` one set of each arm, each timer with a count of its own, whatever cells hold.
pub fn together_is_acyclic()
    ensures { (d : PlainDesign) (path : Path) (act : Active)
        → IsDesign d → IsAccepted d → IsTogether (part_of (instance_at (tree_of d) path)).control act
        → IsAcyclic (instance_at (tree_of d) path) act }
{}
