//! What the names of an instance stand for, and how wide that is.

ghost use Rattle.std.specs.Prelude.{◌≡◌, ◌<◌, ◌≤◌, ℕ, List, Some, slice_get, true};
ghost use Rattle.cx_vtree.specs.Plain.{PlainExpr, PlainPort, PlainDecl, PlainSource};
ghost use Rattle.cx_vtree.specs.InstanceTree.{Placed, ports_at, decls_at, instances_of, arrays_at};
ghost use Rattle.cx_vtree.specs.Sound.{decl_name, decl_meaning, port_meaning, width_of, is_source, is_driven, is_array, is_sound};
ghost use Rattle.cx_vlaws.specs.Widths.{scope_at, IsExpression};
ghost use Rattle.cx_vlaws.specs.Origins.{IsNet, width_at};

/// The name of a port or a declaration stands for it.
pub fn names_stand_for_their_parts()
    ensures ports { (source : PlainSource) (i k : ℕ) (p : PlainPort) → is_sound source ≡ true
        → slice_get (ports_at (instances_of source) i) k ≡ Some p
        → scope_at (instances_of source) i p.name ≡ port_meaning p }
    ensures decls { (source : PlainSource) (i k : ℕ) (d : PlainDecl) → is_sound source ≡ true
        → slice_get (decls_at (instances_of source) i) k ≡ Some d
        → scope_at (instances_of source) i (decl_name d) ≡ decl_meaning d }
{}

/// What a name that is read or driven stands for is there: a net, or an array.
pub fn meant_is_there()
    ensures sources { (tree : List Placed) (i : ℕ) (n : List ℕ) → is_source (scope_at tree i n) ≡ true → IsNet tree i n }
    ensures driven { (tree : List Placed) (i : ℕ) (n : List ℕ) → is_driven (scope_at tree i n) ≡ true → IsNet tree i n }
    ensures arrays { (tree : List Placed) (i : ℕ) (n : List ℕ) → is_array (scope_at tree i n) ≡ true
        → (k : ℕ) × (slice_get (arrays_at tree i) k ≡ Some n) }
{}

/// Each net, and each word of an array, is 1 to 128 bits wide.
pub fn widths_are_bounded()
    ensures ports { (source : PlainSource) (i k : ℕ) (p : PlainPort) → is_sound source ≡ true
        → slice_get (ports_at (instances_of source) i) k ≡ Some p → (0 < p.width) × (p.width ≤ 128) }
    ensures decls { (source : PlainSource) (i k : ℕ) (d : PlainDecl) → is_sound source ≡ true
        → slice_get (decls_at (instances_of source) i) k ≡ Some d
        → (0 < width_of (decl_meaning d)) × (width_of (decl_meaning d) ≤ 128) }
    ensures nets { (source : PlainSource) (i : ℕ) (n : List ℕ) → is_sound source ≡ true →
        IsNet (instances_of source) i n
        → (0 < width_at (instances_of source) i n) × (width_at (instances_of source) i n ≤ 128) }
{}

/// An expression that fits in an instance is 1 to 128 bits wide.
pub fn expressions_are_bounded()
    ensures { (source : PlainSource) (i w : ℕ) (e : PlainExpr) → is_sound source ≡ true
        → IsExpression (scope_at (instances_of source) i) e w → (0 < w) × (w ≤ 128) }
{}
