//! Arrays of words.

ghost use Rattle.std.specs.Prelude.{◌≡◌};
ghost use Rattle.cx_vnets.specs.Arrays.{word_of};

use cx_bits::Bits;

/// The words of an array, with the zero of their width.
#[derive(Drop)]
pub struct Words {
    pub zero: Bits,
    pub words: Vec<Bits>,
}

/// The word at an index; the zero where there is no such word.
pub fn word(array: &Words, index: Bits) -> Bits
    ensures { result ≡ word_of array.now index.value }
{
    let number = index.value();
    if number < array.words.len() as u128 {
        array.words[number as usize]
    } else {
        array.zero
    }
}
