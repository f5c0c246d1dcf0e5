//! What holds of every source.

ghost use Rattle.std.specs.Prelude.{◌≡◌, ◌<◌, ◌^◌, All, length, true};
ghost use Rattle.cx_data.specs.Widths.{HasWordWidth};
ghost use Rattle.cx_vtree.specs.InstanceTree.{instances_of};
ghost use Rattle.cx_vtree.specs.Plain.{PlainSource};
ghost use Rattle.cx_vtree.specs.PlainParts.{rows_of};
ghost use Rattle.cx_vtree.specs.PlainSources.{plain_source};
ghost use Rattle.cx_vtree.specs.Sound.{is_sound};
ghost use Rattle.cx_vsim.specs.Memories.{HasMemories};

use crate::trees_can_be_built;
use cx_vlaws::{
    counts_are_bounded, externals_are_apart, externals_are_memories, widths_are_bounded,
};
use cx_vtree::Source;

/// A source breaks no rule, and a word of an external memory has a width of a data file.
pub fn source_is_sound(source: &Source)
    ensures sound { is_sound (plain_source source.now) ≡ true }
    ensures widths { All HasWordWidth (rows_of (plain_source source.now).externals) }
{
    let _ = source.modules();
    externals_are_memories();
    widths_are_bounded();
}

/// Each external memory of a sound source is the array of an instance, and no two are one.
pub(crate) fn memories_are_arrays()
    ensures { (source : PlainSource) → is_sound source ≡ true → HasMemories source }
{
    trees_can_be_built();
    externals_are_memories();
    externals_are_apart();
}

/// The numbers of the instances of a sound source fit 32 bits.
pub(crate) fn instances_are_few()
    ensures { (source : PlainSource) → is_sound source ≡ true → length (instances_of source) < 2 ^ 32 }
{
    counts_are_bounded();
}
