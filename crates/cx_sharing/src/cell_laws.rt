//! Laws of the cells of a shared design: each function does nothing, and its clause is the law.

ghost use Rattle.std.specs.Prelude.{◌≡◌, ◌≤◌, ℕ, false, true, [], flat_map, length};
ghost use Rattle.cx_meaning.specs.Designs.{PlainComponent, PlainDesign, component_at};
ghost use Rattle.cx_sharing.specs.Uses.{is_combinational, kind_in};
ghost use Rattle.cx_sharing.specs.Giving.{keeper, stays};
ghost use Rattle.cx_sharing.specs.SharedRows.{rows_of};
ghost use Rattle.cx_sharing.specs.SharedDesign.{shared_design};

/// No component of the shared design has a cell more than in the design.
pub fn shared_is_smaller()
    ensures { (d : PlainDesign) (k : ℕ) →
        length (component_at (shared_design d) k).cells ≤ length (component_at d k).cells }
{}

/// A shared design shares nothing more: each cell of it stands for itself, and no row is told of it.
pub fn shared_once()
    ensures keepers { (d : PlainDesign) (k c : ℕ) → keeper (component_at (shared_design d) k) c ≡ c }
    ensures rows { (d : PlainDesign) → flat_map rows_of (shared_design d).components ≡ [] }
{}

/// Only combinational cells are given, so none that holds something.
pub fn given_cells_hold_nothing()
    ensures { (part : PlainComponent) (c : ℕ) → stays part c ≡ false → is_combinational (kind_in part.cells c) ≡ true }
{}
