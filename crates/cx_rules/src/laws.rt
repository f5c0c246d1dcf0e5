//! Laws of what is seen where nothing leads in a circle: each function does nothing, and its clause is the law.

ghost use Rattle.std.specs.Prelude.{◌≡◌, ◌<◌, ℕ, Bool, true, false, [], ◌∷◌, length};
ghost use Rattle.cx_text.specs.Members.{In};
ghost use Rattle.cx_prim.specs.Rows.{Row};
ghost use Rattle.cx_prim.specs.declared.ports.Side.TheVariants.{Enable};
ghost use Rattle.cx_meaning.specs.declared.ports.PortRef.TheVariants.{Cell};
ghost use Rattle.cx_meaning.specs.Cycles.{cell_outcome};
ghost use Rattle.cx_meaning.specs.declared.ports.PortRef.{PortRef};
ghost use Rattle.cx_meaning.specs.declared.sights.Seen.{Seen};
ghost use Rattle.cx_meaning.specs.Designs.{PlainComponent, PlainDesign, PlainStatement};
ghost use Rattle.cx_meaning.specs.Control.{drives, group_drives};
ghost use Rattle.cx_meaning.specs.Rows.{side_of};
ghost use Rattle.cx_meaning.specs.Instances.{Instance, OfRow, Path, State, cell_at, cells_of, part_of, tree_of, instance_at, under};
ghost use Rattle.cx_meaning.specs.Active.{Active, Owned, source_order, group};
ghost use Rattle.cx_meaning.specs.Sights.{Held, Sees, bit_of, seen, step, outputs_below};
ghost use Rattle.cx_rules.specs.Accepted.{IsAccepted};
ghost use Rattle.cx_rules.specs.Circles.{IsAcyclic, AreAcyclic, AcyclicBelow};
ghost use Rattle.cx_rules.specs.Footprints.{Reads};
ghost use Rattle.cx_rules.specs.Frames.{IsFrame};

/// Each port is seen as what `seen` finds.
pub fn sees_what_is_found()
    ensures { (i : Instance) (held : Held) (act : Active) (s : State) (p : PortRef)
        → IsAcyclic i act → AcyclicBelow (cells_of i) → Sees i held act s p (seen i held act s p) }
{}

/// What is found solves the steps: each port is what one step gives over what all ports are.
pub fn found_solves_steps()
    ensures { (i : Instance) (held : Held) (act : Active) (s : State) (p : PortRef)
        → IsAcyclic i act → AcyclicBelow (cells_of i)
        → seen i held act s p ≡ step i held act s (seen i held act s) (outputs_below (cells_of i) (λ c. under c s)) p }
{}

/// What a port of a frame is seen as depends on the frame alone, a conflict or undefined too.
pub fn sees_by_frame()
    ensures { (i : Instance) (held other_held : Held) (act other : Active) (s t : State)
        (set : PortRef → Bool) (p : PortRef) (x : Seen)
        → IsFrame i held other_held act other s t set → set p ≡ true
        → Sees i held act s p x → Sees i other_held other t p x }
{}

/// A cell whose ports are all in a frame comes to the same in a cycle: the same next state, or the same fault.
pub fn steps_by_frame()
    ensures { (i : Instance) (held other_held : Held) (act other : Active) (s t : State)
        (set : PortRef → Bool) (c : ℕ) (row : Row)
        → IsFrame i held other_held act other s t set → IsAcyclic i act → IsAcyclic i other → AcyclicBelow (cells_of i)
        → ((p : ℕ) → set (Cell c p) ≡ true)
        → cell_outcome (seen i held act s) c row (s (c ∷ [])) ≡
        cell_outcome (seen i other_held other t) c row (t (c ∷ [])) }
{}

/// In an accepted design nothing leads in a circle: in no instance of its tree, under its continuous assignments and in
/// what is below it.
pub fn accepted_is_acyclic()
    ensures { (d : PlainDesign) (path : Path) → IsAccepted d → AreAcyclic (instance_at (tree_of d) path) }
{}

/// Nor under the continuous assignments with one group.
pub fn accepted_group_is_acyclic()
    ensures { (d : PlainDesign) (path : Path) (g : ℕ)
        → IsAccepted d → g < length (part_of (instance_at (tree_of d) path)).groups
        → IsAcyclic (instance_at (tree_of d) path) (group g) }
{}

/// The enabling ports of a cell that no active group drives are 0, where no continuous assignment drives them. So what one
/// arm of a `par` has active looks at no other port of a cell that another arm drives.
pub fn foreign_enables_are_zero()
    ensures { (i : Instance) (act : Active) (c p : ℕ) (row : Row) (held : Held) (s : State)
        → ((o : Owned) → In (source_order (part_of i)) o → o.owner ≡ None → o.assign.target ≡ Cell c p → ⊥)
        → ((g : ℕ) → group_drives (part_of i) g c ≡ true → act.offset g ≡ None)
        → cell_at (cells_of i) c ≡ OfRow row → side_of row p ≡ Enable
        → seen i held act s (Cell c p) ≡ bit_of false }
{}

/// What a statement drives it reads.
pub fn drives_within_reads()
    ensures { (part : PlainComponent) (s : PlainStatement) (c : ℕ) → drives part s c ≡ true → Reads part s c }
{}
