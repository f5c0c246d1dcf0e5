//! The bytes of tokens and of the layout between them.

ghost use Rattle.std.specs.Prelude.{◌≡◌, ◌++◌, ◌∷◌, [], OnOk, decimal};
ghost use Rattle.cx_lex.specs.Lex.{sign_bytes};
ghost use Rattle.cx_print.specs.declared.pieces.Gap.TheVariants.{Space, Line};
ghost use Rattle.cx_print.specs.Layout.{token_bytes, AppendsBlanks, AppendsGap, AppendsLayout};

use crate::pieces::{Gap, Piece};
use cx_ast::{Sign, TokenKind};
use cx_text::Memory;
use itoa::Buffer;

fn sign_text(sign: Sign) -> &'static str
    ensures { result.now ≡ sign_bytes sign }
{
    match sign {
        Sign::OpenBrace => "{",
        Sign::CloseBrace => "}",
        Sign::OpenParen => "(",
        Sign::CloseParen => ")",
        Sign::OpenBracket => "[",
        Sign::CloseBracket => "]",
        Sign::Less => "<",
        Sign::Greater => ">",
        Sign::Semicolon => ";",
        Sign::Colon => ":",
        Sign::Comma => ",",
        Sign::Dot => ".",
        Sign::Equal => "=",
        Sign::Question => "?",
        Sign::Not => "!",
        Sign::And => "&",
        Sign::Or => "|",
        Sign::At => "@",
        Sign::Percent => "%",
        Sign::EqualEqual => "==",
        Sign::NotEqual => "!=",
        Sign::LessEqual => "<=",
        Sign::GreaterEqual => ">=",
        Sign::Arrow => "->",
    }
}

// Adds a number in decimal.
fn number(out: &mut Vec<u8>, value: u128) -> Result<(), Memory>
    ensures { OnOk result (out.new.items ≡ out.old.items ++ decimal value) }
{
    let mut buffer = Buffer::new();
    out.extend_from_slice(buffer.format(value).as_bytes())?;
    Ok(())
}

// Adds a literal in base ten.
fn literal(out: &mut Vec<u8>, width: u32, value: u128) -> Result<(), Memory>
    ensures { OnOk result (out.new.items ≡ out.old.items ++ (decimal width ++ 39 ∷ 100 ∷ decimal value)) }
{
    number(out, u128::from(width))?;
    out.extend_from_slice(b"'d")?;
    number(out, value)
}

// Adds a string with its quotes.
fn quoted(out: &mut Vec<u8>, bytes: &[u8]) -> Result<(), Memory>
    ensures { OnOk result (out.new.items ≡ out.old.items ++ (34 ∷ bytes.now ++ 34 ∷ [])) }
{
    out.push(b'"')?;
    out.extend_from_slice(bytes)?;
    out.push(b'"')?;
    Ok(())
}

// Adds bytes.
fn plain(out: &mut Vec<u8>, bytes: &[u8]) -> Result<(), Memory>
    ensures { OnOk result (out.new.items ≡ out.old.items ++ bytes.now) }
{
    out.extend_from_slice(bytes)?;
    Ok(())
}

// Adds a token.
fn token(out: &mut Vec<u8>, kind: &TokenKind) -> Result<(), Memory>
    ensures { OnOk result (out.new.items ≡ out.old.items ++ token_bytes kind.now) }
{
    match kind {
        TokenKind::Word(name) => plain(out, name.bytes()),
        TokenKind::Number(value) => number(out, u128::from(*value)),
        TokenKind::Literal(width, value) => literal(out, *width, *value),
        TokenKind::Text(bytes) => quoted(out, bytes.bytes()),
        TokenKind::Sign(sign) => plain(out, sign_text(*sign).as_bytes()),
    }
}

// Adds two spaces for each level.
fn indent(out: &mut Vec<u8>, depth: usize) -> Result<(), Memory>
    ensures { OnOk result (AppendsBlanks out.old.items out.new.items) }
{
    for _ in 0..depth {
        plain(out, b"  ")?;
    }
    Ok(())
}

// Ends the line, and indents the next.
fn line(out: &mut Vec<u8>, depth: usize) -> Result<(), Memory>
    ensures { OnOk result (AppendsGap Line out.old.items out.new.items) }
{
    plain(out, b"\n")?;
    indent(out, depth)?;
    Ok(())
}

// Adds a space.
fn space(out: &mut Vec<u8>) -> Result<(), Memory>
    ensures { OnOk result (AppendsGap Space out.old.items out.new.items) }
{
    plain(out, b" ")?;
    Ok(())
}

// Adds what stands before a token.
fn gap(out: &mut Vec<u8>, gap: Gap, depth: usize) -> Result<(), Memory>
    ensures { OnOk result (AppendsGap gap out.old.items out.new.items) }
{
    match gap {
        Gap::Tight => Ok(()),
        Gap::Space => space(out),
        Gap::Line => line(out, depth),
    }
}

// How deep the token stands, and how deep what is behind it: braces nest.
fn levels(depth: usize, kind: &TokenKind) -> (usize, usize) {
    match kind {
        TokenKind::Sign(Sign::OpenBrace) => (depth, depth.saturating_add(1)),
        TokenKind::Sign(Sign::CloseBrace) => (depth.saturating_sub(1), depth.saturating_sub(1)),
        _ => (depth, depth),
    }
}

/// Adds the text of tokens and a line feed.
pub(crate) fn render(out: &mut Vec<u8>, pieces: &[Piece]) -> Result<(), Memory>
    ensures { OnOk result (AppendsLayout pieces.now out.old.items out.new.items) }
{
    let mut depth = 0;
    for piece in pieces {
        let (here, behind) = levels(depth, &piece.kind);
        gap(out, piece.gap, here)?;
        token(out, &piece.kind)?;
        depth = behind;
    }
    plain(out, b"\n")?;
    Ok(())
}
