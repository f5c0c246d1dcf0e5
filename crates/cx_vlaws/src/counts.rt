//! How large the tree is.

ghost use Rattle.std.specs.Prelude.{◌≡◌, ◌≤◌, ◌<◌, ◌+◌, ℕ, suc, List, Some, length, slice_get, true};
ghost use Rattle.cx_vtree.specs.Plain.{ArrayOf, PlainSource};
ghost use Rattle.cx_vtree.specs.InstanceTree.{Placed, decls_at, nets_at, instances_of, arrays_at};
ghost use Rattle.cx_vtree.specs.Sound.{is_sound};
ghost use Rattle.cx_vlaws.specs.Counts.{declared_words, nets_count, arrays_count, words_count};

/// The tree has at most 4,194,304 nets, 131,072 instances and 4,194,304 words of arrays, and no more arrays than words.
pub fn counts_are_bounded()
    ensures nets { (source : PlainSource) → is_sound source ≡ true → nets_count (instances_of source) ≤ 4194304 }
    ensures instances { (source : PlainSource) → is_sound source ≡ true → length (instances_of source) ≤ 131072 }
    ensures words { (source : PlainSource) → is_sound source ≡ true → words_count (instances_of source) ≤ 4194304 }
    ensures arrays { (source : PlainSource) → is_sound source ≡ true →
        arrays_count (instances_of source) ≤ words_count (instances_of source) }
{}

/// An array has 1 to 4,194,304 words.
pub fn arrays_have_words()
    ensures { (source : PlainSource) (i k : ℕ) (n : List ℕ) (w size : ℕ) → is_sound source ≡ true
        → slice_get (decls_at (instances_of source) i) k ≡ Some (ArrayOf n w size) → (0 < size) × (size ≤ 4194304) }
{}

/// A count that goes on from each instance to the next by what the instance has is at the end that of the tree.
pub fn counts_go_by_instances()
    ensures nets { (tree : List Placed) (f : ℕ → ℕ) → f 0 ≡ 0 → ((i : ℕ) → f (suc i) ≡ f i + length (nets_at tree i))
        → f (length tree) ≡ nets_count tree }
    ensures arrays { (tree : List Placed) (f : ℕ → ℕ) → f 0 ≡ 0 → ((i : ℕ) → f (suc i) ≡ f i + length (arrays_at tree i))
        → f (length tree) ≡ arrays_count tree }
    ensures words { (tree : List Placed) (f : ℕ → ℕ) → f 0 ≡ 0 →
        ((i : ℕ) → f (suc i) ≡ f i + declared_words (decls_at tree i))
        → f (length tree) ≡ words_count tree }
{}
