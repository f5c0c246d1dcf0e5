//! The words that a memory holds.

ghost use Rattle.std.specs.Prelude.{◌≡◌, length};
ghost use Rattle.cx_prim.specs.CellStates.{IsState, TakesWords, words_of};
ghost use Rattle.cx_prim.specs.Table.{row_of};

use crate::{PrimState, Primitive};

/// Writes the words of a memory into `words`, which is as long, in row-major order. It takes no memory.
pub fn read_words(primitive: &Primitive, held: &PrimState, words: &mut [u64])
    requires state { IsState (row_of primitive.now).shape held.now }
    requires memory { TakesWords (row_of primitive.now).shape (words_of held.now) }
    requires sized { length words.old ≡ length (words_of held.now) }
    ensures value { words.new ≡ words_of held.now }
{
    for n in 0..words.len() {
        words[n] = primitive.word(held, n as u64);
    }
}
