//! Numbers and literals.

ghost use Rattle.std.specs.Prelude.{◌≡◌, ◌≤◌};
ghost use Rattle.std.specs.Str.Parse.{AllDigits};
ghost use Rattle.cx_lex.specs.Bytes.{base_of};
ghost use Rattle.cx_lex.specs.Reading.{numeric_at, number_of, literal_at, literal_of, goes_on_at};
ghost use Rattle.cx_lex.specs.Views.{read_of};

use crate::classes::{Class, is_name_start, span};
use crate::faults::LexKind;
use crate::items::{Found, Front};
use cx_text::{decimal, numeral};

/// A number or literal at the front of the text, which begins with a digit.
pub(crate) fn numeric(text: &[u8]) -> Result<Front<'_>, LexKind>
    ensures { read_of result ≡ numeric_at text.now }
{
    let (digits, rest) = span(Class::DigitIn(10), text);
    match rest.split_first() {
        Some((byte, rest)) if *byte == b'\'' => literal(digits, rest),
        _ if goes_on(rest) => Err(LexKind::BadLiteral),
        _ => number(digits, rest),
    }
}

// Whether the next byte is none that may stand directly behind a number or literal.
fn goes_on(text: &[u8]) -> bool
    ensures { result ≡ goes_on_at text.now }
{
    match text.first() {
        Some(byte) => is_name_start(*byte) || byte.is_ascii_digit() || *byte == b'\'',
        None => false,
    }
}

// The number that the digits spell, before the rest.
fn number<'a>(digits: &[u8], rest: &'a [u8]) -> Result<Front<'a>, LexKind>
    requires { AllDigits 10 digits.now }
    ensures { read_of result ≡ number_of digits.now rest.now }
{
    let Some(value) = decimal(digits) else {
        return Err(LexKind::BadLiteral);
    };
    if value >= 1 << 64 {
        return Err(LexKind::BadLiteral);
    }
    Ok((Found::Number(value as u64), rest))
}

// The base that a letter names, or None.
fn base(letter: u8) -> Option<u32>
    ensures { result ≡ base_of letter }
{
    match letter {
        b'd' => Some(10),
        b'b' => Some(2),
        b'o' => Some(8),
        b'x' | b'h' => Some(16),
        _ => None,
    }
}

// A literal of this width, from its letter on.
fn literal<'a>(width: &[u8], text: &'a [u8]) -> Result<Front<'a>, LexKind>
    requires { AllDigits 10 width.now }
    ensures { read_of result ≡ literal_at width.now text.now }
{
    let Some((letter, text)) = text.split_first() else {
        return Err(LexKind::BadLiteral);
    };
    let Some(base) = base(*letter) else {
        return Err(LexKind::BadLiteral);
    };
    let (digits, rest) = span(Class::DigitIn(base), text);
    valued(width, base, digits, rest)
}

// A literal of this width and these digits, before the rest.
fn valued<'a>(width: &[u8], base: u32, digits: &[u8], rest: &'a [u8]) -> Result<Front<'a>, LexKind>
    requires low { 2 ≤ base }
    requires high { base ≤ 36 }
    requires width { AllDigits 10 width.now }
    requires digits { AllDigits base digits.now }
    ensures { read_of result ≡ literal_of width.now base digits.now rest.now }
{
    if goes_on(rest) {
        return Err(LexKind::BadLiteral);
    }
    let Some(width) = decimal(width) else {
        return Err(LexKind::BadLiteral);
    };
    if width >= 1 << 32 {
        return Err(LexKind::BadLiteral);
    }
    let Some(value) = numeral(base, digits) else {
        return Err(LexKind::BadLiteral);
    };
    Ok((Found::Literal(width as u32, value), rest))
}
