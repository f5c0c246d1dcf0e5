//! The signs of the Calyx text.

/// A sign: a token of one or two bytes that is no word, number, literal or string.
#[derive(Clone, Copy, Debug, PartialEq, Eq)]
pub enum Sign {
    OpenBrace,
    CloseBrace,
    OpenParen,
    CloseParen,
    OpenBracket,
    CloseBracket,
    Less,
    Greater,
    Semicolon,
    Colon,
    Comma,
    Dot,
    Equal,
    Question,
    Not,
    And,
    Or,
    At,
    Percent,
    EqualEqual,
    NotEqual,
    LessEqual,
    GreaterEqual,
    Arrow,
}
