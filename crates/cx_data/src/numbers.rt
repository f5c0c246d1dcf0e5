//! The numbers in nested arrays, and the words that they give.

ghost use Rattle.std.specs.Prelude.{◌≡◌, ◌==◌, ◌≤◌, ◌++◌, map, None, Some, Ok, Err, [], IfOk, if◌then◌else◌, option_map};
ghost use Rattle.serde_json.specs.Events.{items_len};
ghost use Rattle.serde_json.specs.View.{view, items_view, number_view};
ghost use Rattle.cx_data.specs.Numbers.{numbers_of, numbers_of_each, word_of, words_of};

use cx_text::Memory;
use serde_json::{Number, Value};
use std::alloc::Global;

/// The numbers of a value in row-major order, where its arrays nest and have lengths by the sizes.
pub(crate) fn numbers_of(
    alloc: Global,
    value: &Value,
    sizes: &[u64],
) -> Result<Option<Vec<Number>>, Memory>
    ensures value { IfOk result (λ o.
        option_map (λ v. map number_view v.items) o ≡ numbers_of sizes.now (view value.now)) }
{
    let mut numbers = Vec::new(alloc);
    if push_numbers(&mut numbers, value, sizes)? {
        Ok(Some(numbers))
    } else {
        Ok(None)
    }
}

/// Appends the numbers of a value, and answers whether its arrays nest and have lengths by the sizes.
#[cycle(numbers)]
fn push_numbers(numbers: &mut Vec<Number>, value: &Value, sizes: &[u64]) -> Result<bool, Memory>
    ensures value { IfOk result (λ shaped.
        option_map (λ ns. map number_view numbers.old.items ++ ns) (numbers_of sizes.now (view value.now))
        ≡ (if shaped then Some (map number_view numbers.new.items) else None)) }
{
    match sizes.split_first() {
        None => push_number(numbers, value),
        Some((size, inner)) => match value.as_array() {
            Some(items) => push_items(numbers, items.as_slice(), *size, inner),
            None => Ok(false),
        },
    }
}

/// Appends the numbers of `size` items, and answers whether they are so many and each has these sizes.
#[cycle(numbers)]
fn push_items(
    numbers: &mut Vec<Number>,
    items: &[Value],
    size: u64,
    sizes: &[u64],
) -> Result<bool, Memory>
    ensures value { IfOk result (λ shaped.
        option_map (λ ns. map number_view numbers.old.items ++ ns)
        (if items_len (items_view items.now) == size
        then numbers_of_each (numbers_of sizes.now) (items_view items.now) else None)
        ≡ (if shaped then Some (map number_view numbers.new.items) else None)) }
{
    if items.len() as u64 == size {
        push_each(numbers, items, sizes)
    } else {
        Ok(false)
    }
}

/// Appends the numbers of each item, and answers whether each has these sizes.
#[cycle(numbers)]
fn push_each(numbers: &mut Vec<Number>, items: &[Value], sizes: &[u64]) -> Result<bool, Memory>
    ensures value { IfOk result (λ shaped.
        option_map (λ ns. map number_view numbers.old.items ++ ns)
        (numbers_of_each (numbers_of sizes.now) (items_view items.now))
        ≡ (if shaped then Some (map number_view numbers.new.items) else None)) }
{
    for item in items {
        if !push_numbers(numbers, item, sizes)? {
            return Ok(false);
        }
    }
    Ok(true)
}

/// Appends a number, and answers whether the value is one.
fn push_number(numbers: &mut Vec<Number>, value: &Value) -> Result<bool, Memory>
    ensures value { IfOk result (λ shaped.
        option_map (λ ns. map number_view numbers.old.items ++ ns) (numbers_of [] (view value.now))
        ≡ (if shaped then Some (map number_view numbers.new.items) else None)) }
{
    match value.as_number() {
        Some(number) => {
            numbers.push(*number)?;
            Ok(true)
        }
        None => Ok(false),
    }
}

/// The word of a number, where it is an integer in the range of the width. A negative one has its two's complement.
pub(crate) fn word_of(signed: bool, width: u8, number: &Number) -> Option<u64>
    requires positive { 1 ≤ width }
    requires narrow { width ≤ 64 }
    ensures value { result ≡ word_of signed width (number_view number.now) }
{
    let integer = number.as_i128()?;
    let magnitude = integer.unsigned_abs();
    let half = 1u128 << (width - 1);
    let end = if signed { half } else { 2 * half };
    if integer >= 0 {
        if magnitude < end {
            Some(magnitude as u64)
        } else {
            None
        }
    } else if signed && magnitude <= half {
        Some((2 * half - magnitude) as u64)
    } else {
        None
    }
}
