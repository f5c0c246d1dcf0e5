//! What happens at an edge.

ghost use Rattle.std.specs.Prelude.{◌≡◌, ℕ, Some, map, slice_get, true};
ghost use Rattle.cx_vtree.specs.Plain.{PlainSource, PlainAssign, PlainStore};
ghost use Rattle.cx_vtree.specs.InstanceTree.{instances_of};
ghost use Rattle.cx_vtree.specs.Edges.{edge_at, acting_sets, acting_stores};
ghost use Rattle.cx_vtree.specs.Sound.{is_sound};
ghost use Rattle.cx_vlaws.specs.Names.{AreApart};
ghost use Rattle.cx_vlaws.specs.Widths.{scope_at};
ghost use Rattle.cx_vlaws.specs.Edges.{IsSet, IsStore};

/// In each branch of an edge what is set is a register, at most once, and gets a value of its width.
pub fn sets_are_of_registers()
    ensures sets { (source : PlainSource) (i reset k : ℕ) (a : PlainAssign) → is_sound source ≡ true
        → slice_get (acting_sets reset (edge_at (instances_of source) i)) k ≡ Some a
        → IsSet (scope_at (instances_of source) i) a }
    ensures once { (source : PlainSource) (i reset : ℕ) → is_sound source ≡ true
        → AreApart (map (λ a. a.name) (acting_sets reset (edge_at (instances_of source) i))) }
{}

/// In each branch of an edge what is stored into is an array, at most once: by a guard of one bit, at an index of some width,
/// and a value of the array's width.
pub fn stores_are_of_arrays()
    ensures stores { (source : PlainSource) (i reset k : ℕ) (s : PlainStore) → is_sound source ≡ true
        → slice_get (acting_stores reset (edge_at (instances_of source) i)) k ≡ Some s
        → IsStore (scope_at (instances_of source) i) s }
    ensures once { (source : PlainSource) (i reset : ℕ) → is_sound source ≡ true
        → AreApart (map (λ s. s.array) (acting_stores reset (edge_at (instances_of source) i))) }
{}
