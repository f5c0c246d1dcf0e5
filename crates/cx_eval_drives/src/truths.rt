//! What a guard is: 1, 0, or no value.

ghost use Rattle.std.specs.Prelude.{◌≡◌};
ghost use Rattle.cx_meaning.specs.Truths as truths;
ghost use Rattle.cx_eval_drives.specs.Plain.{plain_truth};

use cx_bits::Bits;
use cx_design::{Comparison, Seen};

/// 1, 0, or no value: a conflict, or undefined.
#[derive(Clone, Copy, Debug, PartialEq, Eq)]
pub enum Truth {
    One,
    Zero,
    Conflict,
    Undefined,
}

/// A bit as a truth.
pub fn of_bit(bit: bool) -> Truth
    ensures { plain_truth result ≡ truths.truth_of_bit bit }
{
    if bit { Truth::One } else { Truth::Zero }
}

/// What a port says as a guard.
pub fn truth_of(seen: Seen) -> Truth
    ensures { plain_truth result ≡ truths.truth_of seen }
{
    match seen {
        Seen::Value(bits) => of_bit(bits.value() == 1),
        Seen::Conflict => Truth::Conflict,
        Seen::Undefined => Truth::Undefined,
    }
}

/// The opposite.
pub fn not_truth(truth: Truth) -> Truth
    ensures { plain_truth result ≡ truths.not_truth (plain_truth truth) }
{
    match truth {
        Truth::One => Truth::Zero,
        Truth::Zero => Truth::One,
        Truth::Conflict => Truth::Conflict,
        Truth::Undefined => Truth::Undefined,
    }
}

/// Both: 0 where either is 0, and else the first that is not 1.
pub fn and_truth(first: Truth, second: Truth) -> Truth
    ensures { plain_truth result ≡ truths.and_truth (plain_truth first) (plain_truth second) }
{
    match (first, second) {
        (Truth::One, second) => second,
        (Truth::Zero, _) | (_, Truth::Zero) => Truth::Zero,
        (Truth::Conflict, _) => Truth::Conflict,
        (Truth::Undefined, _) => Truth::Undefined,
    }
}

/// Either: 1 where either is 1, and else the first that is not 0.
pub fn or_truth(first: Truth, second: Truth) -> Truth
    ensures { plain_truth result ≡ truths.or_truth (plain_truth first) (plain_truth second) }
{
    match (first, second) {
        (Truth::Zero, second) => second,
        (Truth::One, _) | (_, Truth::One) => Truth::One,
        (Truth::Conflict, _) => Truth::Conflict,
        (Truth::Undefined, _) => Truth::Undefined,
    }
}

/// Whether the comparison of two numbers holds.
fn compares(comparison: Comparison, first: u128, second: u128) -> bool
    ensures { result ≡ truths.compares comparison first second }
{
    match comparison {
        Comparison::Equal => first == second,
        Comparison::NotEqual => first != second,
        Comparison::Less => first < second,
        Comparison::Greater => first > second,
        Comparison::AtMost => first <= second,
        Comparison::AtLeast => first >= second,
    }
}

/// A comparison with a value on its left.
fn compared_value(comparison: Comparison, first: Bits, second: Seen) -> Truth
    ensures { plain_truth result ≡ truths.compared comparison (Seen.Value first) second }
{
    match second {
        Seen::Value(second) => of_bit(compares(comparison, first.value(), second.value())),
        Seen::Conflict => Truth::Conflict,
        Seen::Undefined => Truth::Undefined,
    }
}

/// A comparison: of something that is no value the first side that is none.
pub fn compared(comparison: Comparison, first: Seen, second: Seen) -> Truth
    ensures { plain_truth result ≡ truths.compared comparison first second }
{
    match first {
        Seen::Value(first) => compared_value(comparison, first, second),
        Seen::Conflict => Truth::Conflict,
        Seen::Undefined => Truth::Undefined,
    }
}
