//! Signs.

ghost use Rattle.std.specs.Prelude.{◌≡◌};
ghost use Rattle.cx_lex.specs.Reading.{short_sign, long_sign};

use cx_ast::Sign;

/// The sign of one byte, or None.
pub(crate) fn short(byte: u8) -> Option<Sign>
    ensures { result ≡ short_sign byte }
{
    match byte {
        b'{' => Some(Sign::OpenBrace),
        b'}' => Some(Sign::CloseBrace),
        b'(' => Some(Sign::OpenParen),
        b')' => Some(Sign::CloseParen),
        b'[' => Some(Sign::OpenBracket),
        b']' => Some(Sign::CloseBracket),
        b'<' => Some(Sign::Less),
        b'>' => Some(Sign::Greater),
        b';' => Some(Sign::Semicolon),
        b':' => Some(Sign::Colon),
        b',' => Some(Sign::Comma),
        b'.' => Some(Sign::Dot),
        b'=' => Some(Sign::Equal),
        b'?' => Some(Sign::Question),
        b'!' => Some(Sign::Not),
        b'&' => Some(Sign::And),
        b'|' => Some(Sign::Or),
        b'@' => Some(Sign::At),
        b'%' => Some(Sign::Percent),
        _ => None,
    }
}

/// The sign of two bytes, or None.
pub(crate) fn long(first: u8, second: u8) -> Option<Sign>
    ensures { result ≡ long_sign first second }
{
    match (first, second) {
        (b'=', b'=') => Some(Sign::EqualEqual),
        (b'!', b'=') => Some(Sign::NotEqual),
        (b'<', b'=') => Some(Sign::LessEqual),
        (b'>', b'=') => Some(Sign::GreaterEqual),
        (b'-', b'>') => Some(Sign::Arrow),
        _ => None,
    }
}
