//! Laws: each function does nothing, and its clause is the law.

ghost use Rattle.std.specs.Prelude.{◌≡◌, ℕ, true, false, [], ◌∷◌, None};
ghost use Rattle.cx_text.specs.Members.{In};
ghost use Rattle.cx_text.specs.declared.places.Place.{Place};
ghost use Rattle.cx_prim.specs.Rows.{Row};
ghost use Rattle.cx_meaning.specs.declared.ports.PortRef.TheVariants.{Cell};
ghost use Rattle.cx_meaning.specs.Designs.{Placed, PlainComponent, PlainDesign, PlainForm, PlainStatement};
ghost use Rattle.cx_meaning.specs.Instances.{Instance, OfInstance, OfRow, Path, Set, State, cell_at, cells_of, idle, instance_at, merge, part_of, tree_of};
ghost use Rattle.cx_meaning.specs.Active.{Active, Owned, capture, entries, group, source_order};
ghost use Rattle.cx_meaning.specs.Sights.{Held, seen};
ghost use Rattle.cx_meaning.specs.Cycles.{Fault, Faults, Goes, Next, cell_outcome, cycle_of, every_cell};
ghost use Rattle.cx_meaning.specs.Islands.{History, active_in, form_flat};
ghost use Rattle.cx_meaning.specs.Answers.{End};
ghost use Rattle.cx_meaning.specs.Control.{drives, group_drives, groups_of};
ghost use Rattle.cx_meaning.specs.Running.{run_statement};
ghost use Rattle.cx_rules.specs.Ports.{is_primitive_enable};
ghost use Rattle.cx_rules.specs.Accepted.{IsAccepted};
ghost use Rattle.cx_frames.specs.Rests.{IsKeptAt, IsSettledAt, IsUndriven};

/// In an accepted design no continuous assignment drives an enabling port of a primitive cell, in no instance of its tree.
pub fn accepted_always_enables_nothing()
    ensures { (d : PlainDesign) (path : Path) (o : Owned)
        → IsAccepted d → In (source_order (part_of (instance_at (tree_of d) path))) o → o.owner ≡ None
        → is_primitive_enable (instance_at (tree_of d) path) o.assign.target ≡ false }
{}

/// In a cycle of an accepted design a cell that no active group drives makes an idle step and is no fault, so it stays as it
/// is where it is settled. Every component cell stays as it is, whatever is active.
pub fn cycles_keep_the_rest()
    ensures idles { (d : PlainDesign) (path : Path) (held : Held) (act : Active) (s : State) (c : ℕ) (row : Row)
        → IsAccepted d → IsUndriven (part_of (instance_at (tree_of d) path)) act c
        → cell_at (cells_of (instance_at (tree_of d) path)) c ≡ OfRow row
        → cell_outcome (seen (instance_at (tree_of d) path) held act s) c row (s (c ∷ [])) ≡
        Next (row.idle (s (c ∷ []))) }
    ensures kept { (d : PlainDesign) (path : Path) (held : Held) (act : Active) (listed : Set) (s after : State) (c : ℕ)
        → IsAccepted d → IsUndriven (part_of (instance_at (tree_of d) path)) act c
        → IsSettledAt (instance_at (tree_of d) path) s c
        → cycle_of (instance_at (tree_of d) path) held act listed s ≡ Goes after → IsKeptAt s after c }
    ensures elsewhere { (d : PlainDesign) (path : Path) (held : Held) (act : Active) (listed : Set)
        (s : State) (c p : ℕ) (fault : Fault)
        → IsAccepted d → IsUndriven (part_of (instance_at (tree_of d) path)) act c
        → cycle_of (instance_at (tree_of d) path) held act listed s ≡ Faults fault → fault.port ≡ Cell c p → ⊥ }
    ensures children { (i child : Instance) (held : Held) (act : Active) (listed : Set) (s after : State) (c : ℕ)
        → cell_at (cells_of i) c ≡ OfInstance child → cycle_of i held act listed s ≡ Goes after → IsKeptAt s after c }
    ensures root { (i : Instance) (held : Held) (act : Active) (listed : Set) (s after : State)
        → cycle_of i held act listed s ≡ Goes after → after [] ≡ s [] }
{}

/// In an accepted design a cycle of listed cells is the whole cycle, its fault included, where no active group drives another
/// cell and every other cell is settled.
pub fn listed_cells_suffice()
    ensures { (d : PlainDesign) (path : Path) (held : Held) (act : Active) (listed : Set) (s : State)
        → IsAccepted d
        → ((c : ℕ) → listed c ≡ false → IsUndriven (part_of (instance_at (tree_of d) path)) act c)
        → ((c : ℕ) → listed c ≡ false → IsSettledAt (instance_at (tree_of d) path) s c)
        → cycle_of (instance_at (tree_of d) path) held act listed s ≡
        cycle_of (instance_at (tree_of d) path) held act every_cell s }
{}

/// An idle turn changes no more than the listed cells and what is below them, where every other cell is settled.
pub fn listed_cells_suffice_when_idle()
    ensures { (i : Instance) (s : State) (listed : Set) (path : Path)
        → ((c : ℕ) → listed c ≡ false → IsSettledAt i s c) → idle i s path ≡ merge listed (idle i s) s path }
{}

/// A group that a statement enables, or that stands with a test of it, drives only what the statement drives.
pub fn group_within()
    ensures { (part : PlainComponent) (s : PlainStatement) (g c : ℕ)
        → In (groups_of s) g → group_drives part g c ≡ true → drives part s c ≡ true }
{}

/// What a statement does not drive no group drives that is active in a turn of it: a group of it alone, a call group of it in
/// its capture cycle, or the static groups that an island of it has active together.
pub fn active_groups_within()
    ensures alone { (part : PlainComponent) (s : PlainStatement) (g c : ℕ)
        → In (groups_of s) g → drives part s c ≡ false → IsUndriven part (group g) c }
    ensures capture { (part : PlainComponent) (s : PlainStatement) (g called c : ℕ)
        → In (groups_of s) g → drives part s c ≡ false → IsUndriven part (capture g called) c }
    ensures island { (part : PlainComponent) (form : PlainForm) (place : Place) (h : History) (t c : ℕ)
        → drives part (Placed form place) c ≡ false
        → IsUndriven part (entries (active_in h t (form_flat part form 0 []))) c }
{}

/// In an accepted design a run of a statement leaves every cell that the statement does not drive as it was, where the cell was
/// settled: in every instance of its tree, for every statement.
pub fn runs_keep_the_rest()
    ensures kept { (d : PlainDesign) (path : Path) (held : Held) (statement : PlainStatement)
        (s after : State) (n t c : ℕ)
        → IsAccepted d → run_statement (instance_at (tree_of d) path) held statement s n ≡ End after t
        → drives (part_of (instance_at (tree_of d) path)) statement c ≡ false
        → IsSettledAt (instance_at (tree_of d) path) s c → IsKeptAt s after c }
    ensures root { (d : PlainDesign) (path : Path) (held : Held) (statement : PlainStatement)
        (s after : State) (n t : ℕ)
        → IsAccepted d → run_statement (instance_at (tree_of d) path) held statement s n ≡ End after t
        → after [] ≡ s [] }
{}
