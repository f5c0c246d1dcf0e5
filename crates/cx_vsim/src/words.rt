//! The words of one array.

ghost use Rattle.std.specs.Prelude.{◌≡◌, ◌<◌, ◌^◌, All, length};
ghost use Rattle.cx_bits.specs.BitVector.{Fits};
ghost use Rattle.cx_vnets.specs.Stores.{plain_words};
ghost use Rattle.cx_vsim.specs.WordNumbers.{AreBelow, AreNarrow, numbers_of, words_of_width};

use cx_bits::Bits;
use cx_vnets::Words;

/// Writes the words of an array over as many others.
pub fn read_words(array: &Words, words: &mut [u64])
    requires long { length words.old ≡ length array.now.words.items }
    requires narrow { AreNarrow array.now.words.items }
    ensures value { words.new ≡ numbers_of array.now.words.items }
    ensures fits { All Fits array.now.words.items }
{
    for n in 0..words.len() {
        words[n] = array.words[n].value() as u64;
    }
}

/// Writes words over those of an array that has as many.
pub fn write_words(array: &mut Words, words: &[u64])
    requires long { length words.now ≡ length array.old.words.items }
    requires below { AreBelow array.old.zero.width words.now }
    ensures value { plain_words array.new ≡
        record { zero = array.old.zero; words = words_of_width array.old.zero.width words.now } }
{
    let width = array.zero.width();
    for n in 0..words.len() {
        array.words[n] = bits_of(width, words[n]);
    }
}

/// A word as a value of its width.
fn bits_of(width: u8, word: u64) -> Bits
    requires wide { 0 < width }
    requires narrow { width < 129 }
    requires below { word < 2 ^ width }
    ensures { result ≡ record { width = width; value = word } }
{
    match Bits::new(width, u128::from(word)) {
        Some(bits) => bits,
        None => unreachable!(),
    }
}
