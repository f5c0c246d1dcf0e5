//! Numbers and literals.

ghost use Rattle.std.specs.Prelude.{◌≡◌, ◌≤◌, ◌<◌, ◌^◌, true, IsTrue, IfOk, Some, option_map, if◌then◌else◌};
ghost use Rattle.std.specs.Char.{digit_value};
ghost use Rattle.std.specs.List.{list_all};
ghost use Rattle.std.specs.Str.Parse.{digits_value};
ghost use Rattle.cx_text.specs.Spans.{front, back};
ghost use Rattle.cx_vtree.specs.Plain.{Number};
ghost use Rattle.cx_vtree.specs.PlainParts.{plain_expr};
ghost use Rattle.cx_vread_exprs.specs.Answers.{Gives, place_of};
ghost use Rattle.cx_vread_exprs.specs.Exprs.{is_part};
ghost use Rattle.cx_vread_exprs.specs.Numbers.{IsBase, literal_value};
ghost use Rattle.cx_vread_exprs.specs.Numbers as numbers;
ghost use Rattle.cx_vread_exprs.specs.Tokens as tokens;

use crate::faults::Fault;
use crate::places::{ReadPoint, begins, expect};
use cx_bits::Bits;
use cx_text::{Memory, Name, numeral};
use cx_vscope::Numeral;
use cx_vtree::Expr;
use std::alloc::Global;

/// Whether a byte is a digit in a base: `0` to `9`, and in base 16 `a` to `f`.
fn is_digit(base: u32, byte: u8) -> bool
    ensures { result ≡ tokens.is_digit_in base byte }
{
    (48 <= byte && byte <= 57) || (base == 16 && 97 <= byte && byte <= 102)
}

/// The bytes after the digits that the bytes begin with.
fn behind(base: u32, text: &[u8]) -> &[u8]
    ensures { result.now ≡ back (tokens.is_digit_in base) text.now }
{
    let mut rest = text;
    while let Some((byte, after)) = rest.split_first() {
        if !is_digit(base, *byte) {
            return rest;
        }
        rest = after;
    }
    rest
}

/// The digits that the bytes begin with, and those behind them.
fn span(base: u32, text: &[u8]) -> (&[u8], &[u8])
    ensures front { result.0.now ≡ front (tokens.is_digit_in base) text.now }
    ensures back { result.1.now ≡ back (tokens.is_digit_in base) text.now }
{
    let rest = behind(base, text);
    (&text[..text.len() - rest.len()], rest)
}

/// Whether there is a digit, and no zero before another.
fn is_numeral(digits: &[u8]) -> bool
    ensures { result ≡ tokens.is_numeral digits.now }
{
    match digits {
        [] => false,
        [_] => true,
        [first, _, ..] => *first != 48,
    }
}

/// The digits of the number that the bytes begin with.
#[tactic(auto, using(cx_text::proofs::SpanLemmas::front_passes))]
fn digits<'a>(base: u32, at: ReadPoint<'a>) -> Result<(&'a [u8], ReadPoint<'a>), Fault>
    ensures digits { IfOk result (λ x. list_all (tokens.is_digit_in base) x.0.now ≡ true) }
    ensures some { IfOk result (λ x. tokens.is_numeral x.0.now ≡ true) }
    ensures value { Gives (λ x. (x.0.now, place_of x.1)) result (tokens.digits_at base (place_of at.entry)) }
{
    let (digits, rest) = span(base, at.rest);
    if !is_numeral(digits) {
        return Err(Fault::Syntax(at.rest.len()));
    }
    Ok((digits, ReadPoint { rest }))
}

/// The number that the bytes begin with, None where it is 2^128 or more.
pub fn number<'a>(base: u32, at: ReadPoint<'a>) -> Result<(Option<u128>, ReadPoint<'a>), Fault>
    requires { IsBase base }
    ensures { Gives (λ x. (x.0, place_of x.1)) result (tokens.number_at base (place_of at.entry)) }
{
    let (digits, at) = digits(base, at)?;
    Ok((value(base, digits), at))
}

/// The number that digits write, if it is below 2^128.
fn value(base: u32, digits: &[u8]) -> Option<u128>
    requires base { IsBase base }
    requires digits { IsTrue (list_all (tokens.is_digit_in base) digits.now) }
    requires some { IsTrue (tokens.is_numeral digits.now) }
    ensures { result ≡ tokens.capped (digits_value base digits.now) }
{
    numeral(base, digits)
}

/// A number, or the most that is kept of a greater one.
fn no_more(most: u8, n: Option<u128>) -> u8
    ensures value { result ≡ tokens.no_more most n }
    ensures most { result ≤ most }
{
    match n {
        Some(n) if n < most as u128 => n as u8,
        _ => most,
    }
}

/// A number that is a bit's number or a width: 255 stands for a greater one.
pub fn small<'a>(at: ReadPoint<'a>) -> Result<(u8, ReadPoint<'a>), Fault>
    ensures { Gives (λ x. (x.0, place_of x.1)) result (tokens.small_at (place_of at.entry)) }
{
    let (n, at) = number(10, at)?;
    Ok((no_more(255, n), at))
}

/// A number of any size.
#[tactic(auto, using(crate::proofs::Numerals::numeral_is))]
pub fn any_number<'a>(alloc: Global, at: ReadPoint<'a>) -> Result<(Numeral, ReadPoint<'a>), Fault>
    ensures { Gives (λ x. (x.0, place_of x.1)) result (tokens.any_number_at (place_of at.entry)) }
{
    let (digits, at) = digits(10, at)?;
    Ok((Numeral::new(alloc, digits)?, at))
}

/// A width and the space after it, as `[7:0] `.
pub fn bounds<'a>(at: ReadPoint<'a>) -> Result<(u8, ReadPoint<'a>), Fault>
    ensures { Gives (λ x. (x.0, place_of x.1)) result (tokens.bounds_at (place_of at.entry)) }
{
    let at = expect(at, b"[")?;
    let (n, at) = number(10, at)?;
    let at = expect(at, b":0] ")?;
    Ok((no_more(254, n) + 1, at))
}

/// The value of a literal that a `Bits` is.
fn literal_bits(width: Option<u128>, value: Option<u128>) -> Option<Bits>
    ensures { option_map (λ b. b) result ≡ literal_value width value }
{
    let w = width?;
    let v = value?;
    if w > 128 {
        return None;
    }
    Bits::new(w as u8, v)
}

/// How many binary digits a hexadecimal digit has.
fn digit_bits(byte: u8) -> u8
    requires { IsTrue (tokens.is_digit_in 16 byte) }
    ensures value { result ≡ numbers.digit_bits (digit_value byte) }
    ensures most { result ≤ 4 }
{
    match byte {
        48 => 0,
        49 => 1,
        50 | 51 => 2,
        52..=55 => 3,
        _ => 4,
    }
}

/// How many binary digits the number has that hexadecimal digits write.
fn bit_length(digits: &[u8]) -> u128
    requires { IsTrue (list_all (tokens.is_digit_in 16) digits.now) }
    ensures value { result ≡ numbers.bit_length digits.now }
    ensures most { result < 2 ^ 67 }
{
    match digits.split_first() {
        None => 0,
        Some((first, rest)) => digit_bits(*first) as u128 + 4 * rest.len() as u128,
    }
}

/// Whether the number that digits write has more binary digits than a width, None where that is 2^128 or more.
fn overflows(width: Option<u128>, digits: &[u8]) -> bool
    requires { IsTrue (list_all (tokens.is_digit_in 16) digits.now) }
    ensures value { result ≡ numbers.overflows width digits.now }
    ensures most { numbers.bit_length digits.now < 2 ^ 67 }
{
    let bits = bit_length(digits);
    match width {
        None => false,
        Some(width) => width < bits,
    }
}

/// The clock, which no expression has.
pub fn misnamed(alloc: Global) -> Result<Expr, Memory>
    ensures { IfOk result (λ e. plain_expr e ≡ tokens.misnamed) }
{
    let name = Name::from_bytes(alloc, b"clk")?;
    Ok(Expr::Net(name))
}

/// A literal of 128 bits.
fn widest() -> Expr
    ensures { plain_expr result ≡ tokens.widest }
{
    match Bits::new(128, 0) {
        Some(bits) => Expr::Literal(bits),
        None => unreachable!(),
    }
}

/// Two literals side by side that have 256 bits.
pub fn miswidened(alloc: Global) -> Result<Expr, Memory>
    ensures { IfOk result (λ e. plain_expr e ≡ tokens.miswidened) }
{
    let high = Box::new(alloc, widest())?;
    Ok(Expr::Cat(high, Box::new(alloc, widest())?))
}

/// What stands for a literal whose value does not fit its width, or whose width is none.
fn stand_for(alloc: Global, overflows: bool) -> Result<Expr, Memory>
    ensures { IfOk result (λ e. plain_expr e ≡ (if overflows then tokens.misnamed else tokens.miswidened)) }
{
    if overflows {
        misnamed(alloc)
    } else {
        miswidened(alloc)
    }
}

/// A literal that a tree holds.
pub fn fitting(bits: Bits) -> Expr
    ensures { plain_expr result ≡ Number bits }
{
    Expr::Literal(bits)
}

/// The literal that digits write, or what stands for one that no tree holds.
fn literal_of(alloc: Global, width: &[u8], digits: &[u8]) -> Result<Expr, Memory>
    requires width { IsTrue (list_all (tokens.is_digit_in 10) width.now) }
    requires some_width { IsTrue (tokens.is_numeral width.now) }
    requires digits { IsTrue (list_all (tokens.is_digit_in 16) digits.now) }
    requires some_digit { IsTrue (tokens.is_numeral digits.now) }
    ensures { IfOk result
        (λ e. plain_expr e ≡ tokens.kept_literal (digits_value 10 width.now) (digits_value 16 digits.now)) }
{
    let width = value(10, width);
    match literal_bits(width, value(16, digits)) {
        Some(bits) => Ok(fitting(bits)),
        None => stand_for(alloc, overflows(width, digits)),
    }
}

/// A literal. One that no tree holds is read as an expression that breaks the same rules.
pub fn literal<'a>(alloc: Global, at: ReadPoint<'a>) -> Result<(Expr, ReadPoint<'a>), Fault>
    ensures { Gives (λ x. (plain_expr x.0, place_of x.1)) result (tokens.literal_at (place_of at.entry)) }
{
    let (width, at) = digits(10, at)?;
    let at = expect(at, b"'h")?;
    let (value, at) = digits(16, at)?;
    let literal = literal_of(alloc, width, value)?;
    Ok((literal, at))
}

/// Whether a decimal number and a colon stand here, as in the bounds of a part.
pub fn is_part(at: ReadPoint) -> bool
    ensures { result ≡ is_part (place_of at.entry) }
{
    let (digits, rest) = span(10, at.rest);
    let behind = ReadPoint { rest };
    is_numeral(digits) && begins(behind, b":")
}
