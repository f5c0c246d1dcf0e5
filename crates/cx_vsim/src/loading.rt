//! Words of a data file into arrays.

ghost use Rattle.std.specs.Prelude.{◌≡◌, map};
ghost use Rattle.cx_text.specs.Loading.{plain_loaded};
ghost use Rattle.cx_vnets.specs.Stores.{plain_words};
ghost use Rattle.cx_vsim.specs.Arrays.{CanTake, with_arrays};

use crate::write_words;
use cx_text::Loaded;
use cx_vnets::Words;

/// Writes the words of memories over those of the arrays of these numbers.
pub(crate) fn load_words(numbers: &[usize], arrays: &mut [Words], loaded: &Loaded)
    requires can { CanTake numbers.now (map plain_words arrays.old) (plain_loaded loaded.now) }
    ensures value { map plain_words arrays.new ≡
        with_arrays numbers.now (plain_loaded loaded.now) (map plain_words arrays.old) }
{
    for i in 0..numbers.len() {
        let memory = &loaded.memories[i];
        write_words(&mut arrays[numbers[i]], &memory.words);
    }
}
