//! The value of a code, or the first net that it waits for.

ghost use Rattle.std.specs.Prelude.{◌≡◌, ◌+◌, IsSome, Some, option_map};
ghost use Rattle.cx_vnets.specs.Codes.{code_width};
ghost use Rattle.cx_vtree.specs.Operators as operators;
ghost use Rattle.cx_vnets.specs.Arrays.{IsEven, array_width, word_at};
ghost use Rattle.cx_vnets.specs.Looks.{look, seen_from, words_from, widths_from, array_widths_from};
ghost use Rattle.cx_vnets.specs.Edges.{code_of, width_of};
ghost use Rattle.cx_vnets.specs.Operands.{above, applied, choice};
ghost use Rattle.cx_vtree.specs.Sound.{operator_width, choice_width, sides_width};

use crate::arrays::{Words, word};
use crate::codes::{Code, NetPosition};
use crate::marks::{FoundValue, NetMark, seen};
use crate::operators::{operate, part};
use cx_bits::Bits;
use cx_vtree::Operator;

/// The number of a net or an array among all.
fn number(start: u32, offset: u32) -> usize
    ensures { result ≡ start + offset }
{
    start as usize + offset as usize
}

/// What a code of an instance gives by what is known.
pub fn value(
    marks: &[NetMark],
    values: &[Bits],
    arrays: &[Words],
    place: NetPosition,
    code: &Code,
) -> FoundValue
    requires even { IsEven arrays.now }
    requires fits { IsSome (code_width (widths_from values.now place.nets)
        (array_widths_from arrays.now place.arrays) code.now) }
    ensures { result ≡ look (seen_from marks.now values.now place.nets) (words_from arrays.now place.arrays) code.now }
{
    match code {
        Code::Net(k) => seen(marks, values, number(place.nets, *k)),
        Code::Literal(bits) => FoundValue::Worth(*bits),
        Code::Slice(k, high, low) => match seen(marks, values, number(place.nets, *k)) {
            FoundValue::Waits(net) => FoundValue::Waits(net),
            FoundValue::Worth(whole) => FoundValue::Worth(part(whole, *high, *low)),
        },
        Code::Item(a, index) => match value(marks, values, arrays, place, index) {
            FoundValue::Waits(net) => FoundValue::Waits(net),
            FoundValue::Worth(at) => FoundValue::Worth(word(&arrays[number(place.arrays, *a)], at)),
        },
        Code::Binary(op, left, right) => match value(marks, values, arrays, place, left) {
            FoundValue::Waits(net) => FoundValue::Waits(net),
            FoundValue::Worth(x) => match value(marks, values, arrays, place, right) {
                FoundValue::Waits(net) => FoundValue::Waits(net),
                FoundValue::Worth(y) => FoundValue::Worth(operate(*op, x, y)),
            },
        },
        Code::Not(inner) => match value(marks, values, arrays, place, inner) {
            FoundValue::Waits(net) => FoundValue::Waits(net),
            FoundValue::Worth(x) => FoundValue::Worth(x.not()),
        },
        Code::Choose(test, one, other) => match value(marks, values, arrays, place, test) {
            FoundValue::Waits(net) => FoundValue::Waits(net),
            FoundValue::Worth(t) => {
                if t.value() == 0 {
                    value(marks, values, arrays, place, other)
                } else {
                    value(marks, values, arrays, place, one)
                }
            }
        },
        Code::Cat(high, low) => match value(marks, values, arrays, place, high) {
            FoundValue::Waits(net) => FoundValue::Waits(net),
            FoundValue::Worth(x) => match value(marks, values, arrays, place, low) {
                FoundValue::Waits(net) => FoundValue::Waits(net),
                FoundValue::Worth(y) => FoundValue::Worth(x.cat(y)),
            },
        },
    }
}

/// What a code of an instance gives where all nets have their values. What the first operator and operands that are nets or
/// literals give is found here, without a further call.
// compiled into each caller, with what it calls but for `nested`: a cycle takes 8 to 12 % fewer instructions so (measured)
#[cycle(settled)]
#[inline(always)]
pub fn settled(values: &[Bits], arrays: &[Words], place: NetPosition, code: &Code) -> Bits
    requires even { IsEven arrays.now }
    requires fits { IsSome (width_of values.now arrays.now place code.now) }
    ensures { code_of values.now arrays.now place code.now ≡ Some result }
{
    match code {
        Code::Net(k) => values[number(place.nets, *k)],
        Code::Literal(bits) => *bits,
        Code::Slice(k, high, low) => part(values[number(place.nets, *k)], *high, *low),
        Code::Item(a, index) => word_settled(values, arrays, place, *a, index),
        Code::Binary(op, left, right) => operated(values, arrays, place, *op, left, right),
        Code::Not(inner) => inverted(values, arrays, place, inner),
        Code::Choose(test, one, other) => chosen(values, arrays, place, test, one, other),
        Code::Cat(high, low) => joined(values, arrays, place, high, low),
    }
}

/// The word of an array at an index.
#[cycle(settled)]
#[inline(always)]
fn word_settled(
    values: &[Bits],
    arrays: &[Words],
    place: NetPosition,
    array: u32,
    index: &Code,
) -> Bits
    requires even { IsEven arrays.now }
    requires index { IsSome (width_of values.now arrays.now place index.now) }
    requires there { IsSome (array_width arrays.now (place.arrays + array)) }
    ensures { option_map (λ i. word_at arrays.now (place.arrays + array) i.value)
        (code_of values.now arrays.now place index.now) ≡ Some result }
{
    let at = operand(values, arrays, place, index);
    word(&arrays[number(place.arrays, array)], at)
}

/// What an operator gives of two operands.
#[cycle(settled)]
#[inline(always)]
fn operated(
    values: &[Bits],
    arrays: &[Words],
    place: NetPosition,
    op: Operator,
    left: &Code,
    right: &Code,
) -> Bits
    requires even { IsEven arrays.now }
    requires fits { IsSome (operator_width op (width_of values.now arrays.now place left.now)
        (width_of values.now arrays.now place right.now)) }
    ensures { applied op (code_of values.now arrays.now place left.now)
        (code_of values.now arrays.now place right.now) ≡ Some result }
{
    let x = operand(values, arrays, place, left);
    let y = operand(values, arrays, place, right);
    operate(op, x, y)
}

/// Each bit inverted.
#[cycle(settled)]
#[inline(always)]
fn inverted(values: &[Bits], arrays: &[Words], place: NetPosition, inner: &Code) -> Bits
    requires even { IsEven arrays.now }
    requires fits { IsSome (width_of values.now arrays.now place inner.now) }
    ensures { option_map operators.inverted (code_of values.now arrays.now place inner.now) ≡ Some result }
{
    operand(values, arrays, place, inner).not()
}

/// The second of three codes where the first is not 0, else the third.
#[cycle(settled)]
#[inline(always)]
fn chosen(
    values: &[Bits],
    arrays: &[Words],
    place: NetPosition,
    test: &Code,
    one: &Code,
    other: &Code,
) -> Bits
    requires even { IsEven arrays.now }
    requires fits { IsSome (choice_width (width_of values.now arrays.now place test.now)
        (width_of values.now arrays.now place one.now) (width_of values.now arrays.now place other.now)) }
    ensures { choice (code_of values.now arrays.now place test.now)
        (code_of values.now arrays.now place one.now) (code_of values.now arrays.now place other.now) ≡
        Some result }
{
    if operand(values, arrays, place, test).value() == 0 {
        operand(values, arrays, place, other)
    } else {
        operand(values, arrays, place, one)
    }
}

/// The first of two codes above the second.
#[cycle(settled)]
#[inline(always)]
fn joined(values: &[Bits], arrays: &[Words], place: NetPosition, high: &Code, low: &Code) -> Bits
    requires even { IsEven arrays.now }
    requires fits { IsSome (sides_width (width_of values.now arrays.now place high.now)
        (width_of values.now arrays.now place low.now)) }
    ensures { above (code_of values.now arrays.now place high.now)
        (code_of values.now arrays.now place low.now) ≡ Some result }
{
    let x = operand(values, arrays, place, high);
    let y = operand(values, arrays, place, low);
    x.cat(y)
}

/// What an operand gives. Most are nets or literals, which are found here.
#[cycle(settled)]
#[inline(always)]
fn operand(values: &[Bits], arrays: &[Words], place: NetPosition, code: &Code) -> Bits
    requires even { IsEven arrays.now }
    requires fits { IsSome (width_of values.now arrays.now place code.now) }
    ensures { code_of values.now arrays.now place code.now ≡ Some result }
{
    match code {
        Code::Net(k) => values[number(place.nets, *k)],
        Code::Literal(bits) => *bits,
        _ => nested(values, arrays, place, code),
    }
}

/// What an operand gives that has operands of its own.
#[cycle(settled)]
#[inline(never)]
fn nested(values: &[Bits], arrays: &[Words], place: NetPosition, code: &Code) -> Bits
    requires even { IsEven arrays.now }
    requires fits { IsSome (width_of values.now arrays.now place code.now) }
    ensures { code_of values.now arrays.now place code.now ≡ Some result }
{
    settled(values, arrays, place, code)
}
