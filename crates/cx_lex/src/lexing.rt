//! The tokens of a whole text.

ghost use Rattle.std.specs.Prelude.{◌≡◌, ◌≢◌, ◌+◌, ◌≤◌, ◌++◌, ◌⊎◌, List, ℕ, length, IfOk, IfErr, OnOk, OnErr, MatchResult};
ghost use Rattle.cx_text.specs.declared.places.Place.{Place as PlaceValue};
ghost use Rattle.cx_text.specs.Places.{start};
ghost use Rattle.cx_ast.specs.declared.tokens.Token.{Token as TokenValue};
ghost use Rattle.cx_lex.specs.declared.faults.LexKind.{LexKind as KindValue};
ghost use Rattle.cx_lex.specs.Lex.{Lex, FirstFault};
ghost use Rattle.cx_lex.specs.Reading.{memory_fault};
ghost use Rattle.cx_lex.specs.Views.{kind_of, added};

use crate::faults::{LexFault, LexKind};
use crate::items::{Found, item};
use cx_ast::{Token, TokenKind};
use cx_text::{Cursor, Memory, Name, Place};
use std::alloc::Global;

/// Reads the tokens of a text of at most 83,886,080 bytes, or tells the first that cannot be read.
pub fn lex(alloc: Global, text: &[u8]) -> Result<Vec<Token>, LexFault>
    requires { length text.now ≤ 83886080 }

    // What is answered are the text's tokens, and the text's tokens are answered unless memory is wanting.
    ensures tokens { IfOk result (λ tokens. Lex text.now tokens.items) }
    ensures all_tokens { (wanted : List TokenValue) → Lex text.now wanted
        → MatchResult result (λ tokens. tokens.items ≡ wanted) (λ e. e ≡ memory_fault) }

    // So it is with faults. Want of memory has the place 1:1.
    ensures fault { IfErr result (λ e. (e ≡ memory_fault) ⊎ FirstFault text.now e.kind e.place) }
    ensures all_faults { (kind : KindValue) (place : PlaceValue) → FirstFault text.now kind place
        → MatchResult result (λ _. ⊥) (λ e. (e ≡ memory_fault) ⊎ (e ≡ record { kind = kind; place = place })) }
{
    let mut tokens = Vec::new(alloc);
    let mut cursor = Cursor::new(text);
    let mut rest = text;
    while let Some((byte, after)) = rest.split_first() {
        let place = cursor.place();
        let (found, behind) = match item(*byte, rest, after) {
            Ok(front) => front,
            Err(kind) => return Err(LexFault { kind, place }),
        };
        push(alloc, &mut tokens, found, place)?;
        skip(&mut cursor, rest.len() - behind.len());
        rest = behind;
    }
    Ok(tokens)
}

// Goes so many bytes on.
fn skip(cursor: &mut Cursor<'_>, count: usize)
    requires { cursor.old.read + count ≤ length cursor.old.text }
    ensures { cursor.new ≡ record { text = cursor.old.text; read = cursor.old.read + count } }
{
    for _byte in 0..count {
        cursor.next();
    }
}

// Adds the token, where what was found is one.
fn push(
    alloc: Global,
    tokens: &mut Vec<Token>,
    found: Found<'_>,
    place: Place,
) -> Result<(), Memory>
    ensures ok { OnOk result (tokens.new.items ≡ tokens.old.items ++ added (kind_of found.entry) place) }
    ensures err { OnErr result (tokens.new.items ≡ tokens.old.items) }
{
    let Some(kind) = token_kind(alloc, found)? else {
        return Ok(());
    };
    tokens.push(Token { kind, place })?;
    Ok(())
}

// The kind of a token, with bytes of its own; None for a blank or comment.
fn token_kind(alloc: Global, found: Found<'_>) -> Result<Option<TokenKind>, Memory>
    ensures { IfOk result (λ kind. kind ≡ kind_of found.entry) }
{
    Ok(match found {
        Found::Gap => None,
        Found::Word(bytes) => Some(TokenKind::Word(Name::from_bytes(alloc, bytes)?)),
        Found::Number(value) => Some(TokenKind::Number(value)),
        Found::Literal(width, value) => Some(TokenKind::Literal(width, value)),
        Found::Text(bytes) => Some(TokenKind::Text(Name::from_bytes(alloc, bytes)?)),
        Found::Sign(sign) => Some(TokenKind::Sign(sign)),
    })
}

/// The law of tokens: a text has one list of tokens or one first fault, and not both.
pub fn one_reading()
    ensures some { (text : List ℕ) → ((tokens : List TokenValue) × Lex text tokens)
        ⊎ ((kind : KindValue) × (place : PlaceValue) × FirstFault text kind place) }
    ensures tokens { (text : List ℕ) (a b : List TokenValue) → Lex text a → Lex text b → a ≡ b }
    ensures not_both { (text : List ℕ) (tokens : List TokenValue) (kind : KindValue) (place : PlaceValue)
        → Lex text tokens → ¬ FirstFault text kind place }
    ensures fault { (text : List ℕ) (kind other : KindValue) (place elsewhere : PlaceValue)
        → FirstFault text kind place → FirstFault text other elsewhere → (kind ≡ other) × (place ≡ elsewhere) }
{}
