//! Tokens with the layout before each.

ghost use Rattle.std.specs.Prelude.{◌≡◌, OnOk};
ghost use Rattle.cx_ast.specs.declared.tokens.TokenKind.TheVariants.{Word, Number, Sign as SignKind};
ghost use Rattle.cx_print.specs.Pieces.{put};

use cx_ast::{Sign, TokenKind};
use cx_text::{Memory, Name};
use std::alloc::Global;

/// What stands before a token.
#[derive(Clone, Copy, Debug, PartialEq, Eq)]
pub enum Gap {
    /// Nothing.
    Tight,
    /// A space.
    Space,
    /// The end of the line, and the indentation.
    Line,
}

/// A token that is to be printed.
#[derive(Debug, Drop)]
pub struct Piece {
    pub gap: Gap,
    pub kind: TokenKind,
}

/// Adds a token.
pub(crate) fn token(out: &mut Vec<Piece>, gap: Gap, kind: TokenKind) -> Result<(), Memory>
    ensures { OnOk result (out.new.items ≡ put gap kind out.old.items) }
{
    out.push(Piece { gap, kind })?;
    Ok(())
}

/// Adds a sign.
pub(crate) fn sign(out: &mut Vec<Piece>, gap: Gap, sign: Sign) -> Result<(), Memory>
    ensures { OnOk result (out.new.items ≡ put gap (SignKind sign) out.old.items) }
{
    token(out, gap, TokenKind::Sign(sign))
}

/// Adds a name or a reserved word.
pub(crate) fn word(
    alloc: Global,
    out: &mut Vec<Piece>,
    gap: Gap,
    bytes: &[u8],
) -> Result<(), Memory>
    ensures { OnOk result (out.new.items ≡ put gap (Word bytes.now) out.old.items) }
{
    token(out, gap, TokenKind::Word(Name::from_bytes(alloc, bytes)?))
}

/// Adds a number.
pub(crate) fn number(out: &mut Vec<Piece>, gap: Gap, value: u64) -> Result<(), Memory>
    ensures { OnOk result (out.new.items ≡ put gap (Number value) out.old.items) }
{
    token(out, gap, TokenKind::Number(value))
}
