//! The names of an instance.

ghost use Rattle.std.specs.Prelude.{◌≡◌, ℕ, List, Some, slice_get, true};
ghost use Rattle.cx_vtree.specs.Plain.{PlainSource};
ghost use Rattle.cx_vtree.specs.InstanceTree.{Placed, instances_of, nets_at, arrays_at};
ghost use Rattle.cx_vtree.specs.Sound.{is_sound};
ghost use Rattle.cx_vlaws.specs.Names.{AreApart, names_at};

/// The names that the ports and the declarations of an instance give are pairwise different: so are those of its nets, and
/// those of its arrays, and no net is an array.
pub fn names_are_apart()
    ensures names { (source : PlainSource) (i : ℕ) → is_sound source ≡ true →
        AreApart (names_at (instances_of source) i) }
    ensures nets { (source : PlainSource) (i : ℕ) → is_sound source ≡ true →
        AreApart (nets_at (instances_of source) i) }
    ensures arrays { (source : PlainSource) (i : ℕ) → is_sound source ≡ true →
        AreApart (arrays_at (instances_of source) i) }
    ensures kinds { (source : PlainSource) (i j k : ℕ) (n : List ℕ) → is_sound source ≡ true
        → slice_get (nets_at (instances_of source) i) j ≡ Some n
        → slice_get (arrays_at (instances_of source) i) k ≡ Some n → ⊥ }
{}

/// Two instances whose modules have one name have one module.
pub fn modules_have_names()
    ensures { (source : PlainSource) (i j : ℕ) (p q : Placed) → is_sound source ≡ true
        → slice_get (instances_of source) i ≡ Some p → slice_get (instances_of source) j ≡ Some q
        → p.part.name ≡ q.part.name → p.part ≡ q.part }
{}
