//! A token and its place.

use crate::signs::Sign;
use cx_text::{Name, Place};

/// What a token is.
#[derive(Debug, Drop)]
pub enum TokenKind {
    /// A name or a reserved word.
    Word(Name),
    /// A decimal number below 2 to the 64.
    Number(u64),
    /// A literal: its width in bits as written, and its value.
    Literal(u32, u128),
    /// The bytes of a string between its quotes.
    Text(Name),
    Sign(Sign),
}

/// A token, with the place of its first byte.
#[derive(Debug, Drop)]
pub struct Token {
    pub kind: TokenKind,
    pub place: Place,
}
