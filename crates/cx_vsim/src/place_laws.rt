//! What soundness of a source gives of its external memories.

ghost use Rattle.std.specs.Prelude.{◌≡◌, ℕ, Some, true, slice_get};
ghost use Rattle.cx_vtree.specs.Plain.{PlainSource, PlainExternal};
ghost use Rattle.cx_vtree.specs.InstanceTree.{instances_of};
ghost use Rattle.cx_vtree.specs.Sound.{is_sound};
ghost use Rattle.cx_vsim.specs.Externals.{HasArray};

use cx_vlaws::externals_are_memories;

/// Each external memory of a sound source has an array.
pub(crate) fn externals_have_arrays()
    ensures { (source : PlainSource) (k : ℕ) (e : PlainExternal) → is_sound source ≡ true →
        slice_get source.externals k ≡ Some e → HasArray (instances_of source) e }
{
    externals_are_memories();
}
