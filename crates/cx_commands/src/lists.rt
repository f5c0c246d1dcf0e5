//! The word of a list of choices: decimal numbers with commas between.

ghost use Rattle.std.specs.Prelude.{◌≡◌, ◌≤◌, ◌<◌, ◌^◌, All, IfOk, SomeIff, MatchBool, length, map};
ghost use Rattle.std.specs.Str.Parse.{digits_value};
ghost use Rattle.cx_commands.specs.Lists.{IsChoice, IsList, numbers_in, parts_of};

use cx_text::{Memory, decimal};
use std::alloc::Global;

/// The most numbers of a list.
const CHOICES: usize = 4096;

/// A number of a list: digits with a value below 2^32, without a zero before others.
fn choice(digits: &[u8]) -> Option<u32>
    ensures { SomeIff result (IsChoice digits.now) (digits_value 10 digits.now) }
{
    if digits.len() > 1 && digits[0] == b'0' {
        return None;
    }
    u32::try_from(decimal(digits)?).ok()
}

/// Whether a word is a list.
pub(crate) fn is_list(word: &[u8]) -> bool
    ensures { MatchBool result (IsList word.now) (IsList word.now → ⊥) }
{
    let mut count = 0usize;
    for part in word.split(|byte| *byte == b',') {
        if count == CHOICES || choice(part).is_none() {
            return false;
        }
        count += 1;
    }
    true
}

/// The numbers of a list.
pub fn numbers(alloc: Global, word: &[u8]) -> Result<Vec<u32>, Memory>
    requires list { IsList word.now }
    ensures numbers { IfOk result (λ listed. listed.items ≡ numbers_in word.now) }
{
    let mut listed = Vec::new(alloc);
    for part in word.split(|byte| *byte == b',') {
        if let Some(number) = choice(part) {
            listed.push(number)?;
        }
    }
    Ok(listed)
}
