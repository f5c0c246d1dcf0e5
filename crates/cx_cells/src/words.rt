//! The words of memories of at most 64 bits.

ghost use Rattle.std.specs.Prelude.{◌≡◌, ◌<◌, ◌^◌, IfOk, All, length, slice_index};

use cx_text::Memory;
use std::alloc::Global;

/// The same words, for a memory to hold.
pub fn widened(alloc: Global, words: &[u64]) -> Result<Vec<u128>, Memory>
    ensures value { IfOk result (λ wide. wide.items ≡ words.now) }
{
    let mut wide = Vec::with_capacity(alloc, words.len())?;
    for word in words {
        wide.push(u128::from(*word))?;
    }
    Ok(wide)
}

/// Word `n`.
pub fn word_at(words: &[u128], n: u64) -> u64
    requires within { n < length words.now }
    requires fits { slice_index words.now n < 2 ^ 64 }
    ensures value { result ≡ slice_index words.now n }
{
    words[n as usize] as u64
}
