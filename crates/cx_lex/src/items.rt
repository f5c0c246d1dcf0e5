//! What stands at the front of a text: a token, a blank or a comment.

ghost use Rattle.std.specs.Prelude.{◌≡◌, ◌≢◌, ◌∷◌, []};
ghost use Rattle.cx_lex.specs.Reading.{item_at, name_at, string_at, comment_at, sign_at};
ghost use Rattle.cx_lex.specs.Views.{read_of};

use crate::classes::{Class, is_name_start, span};
use crate::comments::after_comment;
use crate::faults::LexKind;
use crate::literals::numeric;
use crate::signs::{long, short};
use cx_ast::Sign;
use cx_text::NAME_BYTES;

/// A token's kind, with its bytes where they lie in the text.
#[derive(Clone, Copy, Debug)]
pub(crate) enum Found<'a> {
    /// A blank or a comment.
    Gap,
    Word(&'a [u8]),
    Number(u64),
    Literal(u32, u128),
    Text(&'a [u8]),
    Sign(Sign),
}

/// What the front of a text is, and the text behind it.
pub(crate) type Front<'a> = (Found<'a>, &'a [u8]);

/// What stands at the front of a text, which begins with this byte.
pub(crate) fn item<'a>(byte: u8, text: &'a [u8], after: &'a [u8]) -> Result<Front<'a>, LexKind>
    requires { text.now ≡ byte ∷ after.now }
    ensures { read_of result ≡ item_at byte after.now }
{
    match byte {
        b' ' | b'\t' | b'\n' | b'\r' => Ok((Found::Gap, after)),
        b'0'..=b'9' => numeric(text),
        b'"' => string(after),
        b'/' => comment(after),
        _ if is_name_start(byte) => name(text),
        _ => sign(byte, after),
    }
}

// A name at the front of the text.
fn name(text: &[u8]) -> Result<Front<'_>, LexKind>
    ensures { read_of result ≡ name_at text.now }
{
    let (bytes, rest) = span(Class::NameByte, text);
    if bytes.len() > NAME_BYTES {
        return Err(LexKind::BadLiteral);
    }
    Ok((Found::Word(bytes), rest))
}

// A string, whose first quote stands before the text.
fn string(text: &[u8]) -> Result<Front<'_>, LexKind>
    ensures { read_of result ≡ string_at text.now }
{
    let (body, rest) = span(Class::InString, text);
    match rest.split_first() {
        Some((byte, rest)) if *byte == b'"' => {
            if body.len() > NAME_BYTES {
                return Err(LexKind::BadLiteral);
            }
            Ok((Found::Text(body), rest))
        }
        _ => Err(LexKind::OpenString),
    }
}

// A comment, whose first `/` stands before the text.
fn comment(text: &[u8]) -> Result<Front<'_>, LexKind>
    ensures { read_of result ≡ comment_at text.now }
{
    let Some((byte, after)) = text.split_first() else {
        return Err(LexKind::BadByte);
    };
    match *byte {
        b'/' => Ok((Found::Gap, span(Class::InLine, after).1)),
        b'*' => match after_comment(after) {
            Some(rest) => Ok((Found::Gap, rest)),
            None => Err(LexKind::OpenComment),
        },
        _ => Err(LexKind::BadByte),
    }
}

// The longest sign that begins with the byte before the text.
fn sign(byte: u8, text: &[u8]) -> Result<Front<'_>, LexKind>
    ensures { read_of result ≡ sign_at byte text.now }
{
    if let Some((second, rest)) = text.split_first() {
        if let Some(sign) = long(byte, *second) {
            return Ok((Found::Sign(sign), rest));
        }
    }
    match short(byte) {
        Some(sign) => Ok((Found::Sign(sign), text)),
        None => Err(LexKind::BadByte),
    }
}
