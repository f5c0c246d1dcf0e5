//! Laws of states: each function does nothing, and its clause is the law.

ghost use Rattle.std.specs.Prelude.{◌≡◌, ℕ, Bool, true};
ghost use Rattle.cx_prim.specs.Rows.{Row};
ghost use Rattle.cx_meaning.specs.Designs.{PlainComponent};
ghost use Rattle.cx_meaning.specs.Instances.{Cells, Instance, Node, OfInstance, Path, Set, State, cell_at, idle, just, merge, put, under};
ghost use Rattle.cx_rewrites.specs.Standing.{IsRenumbered, Stands, holds_below};

/// States that are the same in every cell that counts, by the cells' new numbers, stay so: after an idle turn, merged by sets that
/// say the same of these cells, at a child, and with a child's state put back.
pub fn renumbered_states_stand()
    ensures idle { (number : PlainComponent → ℕ → ℕ) (counts : Row → Bool) (i j : Instance) (s z : State)
        → IsRenumbered number counts i j → Stands number counts i s z → Stands number counts i (idle i s) (idle j z) }
    ensures merged { (number : PlainComponent → ℕ → ℕ) (counts : Row → Bool) (part : PlainComponent) (cells : Cells)
        (set other : Set) (a b c d : State)
        → ((e : ℕ) (path : Path) → holds_below counts cells e path ≡ true → other (number part e) ≡ set e)
        → Stands number counts (Node part cells) a b → Stands number counts (Node part cells) c d
        → Stands number counts (Node part cells) (merge set a c) (merge other b d) }
    ensures child { (number : PlainComponent → ℕ → ℕ) (counts : Row → Bool) (part : PlainComponent) (cells : Cells)
        (c : ℕ) (kid : Instance) (s z : State)
        → cell_at cells c ≡ OfInstance kid → Stands number counts (Node part cells) s z
        → Stands number counts kid (under c s) (under (number part c) z) }
    ensures back { (number : PlainComponent → ℕ → ℕ) (counts : Row → Bool) (part : PlainComponent) (cells : Cells)
        (c : ℕ) (kid : Instance) (own twin s z : State)
        → cell_at cells c ≡ OfInstance kid
        → ((e : ℕ) (path : Path) → holds_below counts cells e path ≡ true →
        just (number part c) (number part e) ≡ just c e)
        → Stands number counts kid own twin → Stands number counts (Node part cells) s z
        → Stands number counts (Node part cells) (put c own s) (put (number part c) twin z) }
{}
