//! Words of arrays into the memories of a dump.

ghost use Rattle.std.specs.Prelude.{◌≡◌, map};
ghost use Rattle.cx_text.specs.Loading.{plain_loaded, with_words};
ghost use Rattle.cx_vnets.specs.Stores.{plain_words};
ghost use Rattle.cx_vsim.specs.Stands.{words_by};
ghost use Rattle.cx_vsim.specs.Arrays.{AllGivenFit, CanGive};

use crate::read_words;
use cx_text::Loaded;
use cx_vnets::Words;

/// Writes the words of the arrays of these numbers over those of memories.
pub(crate) fn unload_words(numbers: &[usize], arrays: &[Words], into: &mut Loaded)
    requires can { CanGive numbers.now (map plain_words arrays.now) (plain_loaded into.old) }
    ensures value { plain_loaded into.new ≡
        with_words (plain_loaded into.old) (words_by numbers.now (map plain_words arrays.now)) }
    ensures fit { AllGivenFit numbers.now (map plain_words arrays.now) }
{
    for i in 0..numbers.len() {
        read_words(&arrays[numbers[i]], &mut into.memories[i].words);
    }
}
