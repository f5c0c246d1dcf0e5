//! The terminals of the grammar.

ghost use Rattle.std.specs.Prelude.{◌≡◌, ◌==◌};
ghost use Rattle.cx_grammar.specs.Terminals.{word_terminal, sign_terminal, terminal_of, number_of, is};

use cx_ast::{Sign, TokenKind};

/// What the grammar sees of a token: which reserved word or which sign it is, or that it is a name, a number, a literal or
/// a string.
#[derive(Clone, Copy, Debug)]
pub enum Terminal {
    Import,
    Component,
    Cells,
    Wires,
    Control,
    Group,
    Comb,
    Static,
    Seq,
    Par,
    If,
    Else,
    While,
    Repeat,
    Invoke,
    With,
    Ref,
    /// A word that is not reserved.
    Name,
    Number,
    Literal,
    Text,
    OpenBrace,
    CloseBrace,
    OpenParen,
    CloseParen,
    OpenBracket,
    CloseBracket,
    Less,
    Greater,
    Semicolon,
    Colon,
    Comma,
    Dot,
    Equal,
    Question,
    Not,
    And,
    Or,
    At,
    Percent,
    EqualEqual,
    NotEqual,
    LessEqual,
    GreaterEqual,
    Arrow,
}

impl Terminal {
    /// Tells whether two terminals are the same.
    pub fn is(self, other: Terminal) -> bool
        ensures value { result ≡ is self other }
    {
        self as u8 == other as u8
    }
}

/// Looks a word up among the reserved ones.
pub fn from_word(word: &[u8]) -> Terminal
    ensures value { result ≡ word_terminal word.now }
{
    if word == b"import".as_slice() {
        Terminal::Import
    } else if word == b"component".as_slice() {
        Terminal::Component
    } else if word == b"cells".as_slice() {
        Terminal::Cells
    } else if word == b"wires".as_slice() {
        Terminal::Wires
    } else if word == b"control".as_slice() {
        Terminal::Control
    } else if word == b"group".as_slice() {
        Terminal::Group
    } else if word == b"comb".as_slice() {
        Terminal::Comb
    } else if word == b"static".as_slice() {
        Terminal::Static
    } else if word == b"seq".as_slice() {
        Terminal::Seq
    } else if word == b"par".as_slice() {
        Terminal::Par
    } else if word == b"if".as_slice() {
        Terminal::If
    } else if word == b"else".as_slice() {
        Terminal::Else
    } else if word == b"while".as_slice() {
        Terminal::While
    } else if word == b"repeat".as_slice() {
        Terminal::Repeat
    } else if word == b"invoke".as_slice() {
        Terminal::Invoke
    } else if word == b"with".as_slice() {
        Terminal::With
    } else if word == b"ref".as_slice() {
        Terminal::Ref
    } else {
        Terminal::Name
    }
}

/// The terminal of a sign.
fn from_sign(sign: Sign) -> Terminal
    ensures value { result ≡ sign_terminal sign }
{
    match sign {
        Sign::OpenBrace => Terminal::OpenBrace,
        Sign::CloseBrace => Terminal::CloseBrace,
        Sign::OpenParen => Terminal::OpenParen,
        Sign::CloseParen => Terminal::CloseParen,
        Sign::OpenBracket => Terminal::OpenBracket,
        Sign::CloseBracket => Terminal::CloseBracket,
        Sign::Less => Terminal::Less,
        Sign::Greater => Terminal::Greater,
        Sign::Semicolon => Terminal::Semicolon,
        Sign::Colon => Terminal::Colon,
        Sign::Comma => Terminal::Comma,
        Sign::Dot => Terminal::Dot,
        Sign::Equal => Terminal::Equal,
        Sign::Question => Terminal::Question,
        Sign::Not => Terminal::Not,
        Sign::And => Terminal::And,
        Sign::Or => Terminal::Or,
        Sign::At => Terminal::At,
        Sign::Percent => Terminal::Percent,
        Sign::EqualEqual => Terminal::EqualEqual,
        Sign::NotEqual => Terminal::NotEqual,
        Sign::LessEqual => Terminal::LessEqual,
        Sign::GreaterEqual => Terminal::GreaterEqual,
        Sign::Arrow => Terminal::Arrow,
    }
}

/// The terminal of a token.
pub fn from_kind(kind: &TokenKind) -> Terminal
    ensures value { result ≡ terminal_of kind.now }
{
    match kind {
        TokenKind::Word(word) => from_word(word.bytes()),
        TokenKind::Number(_) => Terminal::Number,
        TokenKind::Literal(_, _) => Terminal::Literal,
        TokenKind::Text(_) => Terminal::Text,
        TokenKind::Sign(sign) => from_sign(*sign),
    }
}
