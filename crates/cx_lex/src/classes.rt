//! The kinds of bytes, and how far a text goes on with one kind.

ghost use Rattle.std.specs.Prelude.{◌≡◌, ◌+◌};
ghost use Rattle.cx_lex.specs.Classes.{passes, HasBase};
ghost use Rattle.cx_lex.specs.Bytes.{is_name_start};
ghost use Rattle.cx_text.specs.Spans.{front, back};

/// A kind of bytes.
#[derive(Clone, Copy, Debug, PartialEq, Eq)]
pub(crate) enum Class {
    /// A letter, `_` or a digit.
    NameByte,
    /// A digit of this base, with letters of either case from ten on.
    DigitIn(u32),
    /// Any byte but a line feed.
    InLine,
    /// Any byte but `"` and a line feed.
    InString,
}

impl Class {
    fn passes(self, byte: u8) -> bool
        requires { HasBase self }
        ensures { result ≡ passes self byte }
    {
        match self {
            Class::NameByte => is_name_start(byte) || byte.is_ascii_digit(),
            Class::DigitIn(base) => char::from(byte).is_digit(base),
            Class::InLine => byte != b'\n',
            Class::InString => byte != b'"' && byte != b'\n',
        }
    }
}

/// Whether a name may begin with the byte: a letter or `_`.
pub(crate) fn is_name_start(byte: u8) -> bool
    ensures { result ≡ is_name_start byte }
{
    byte.is_ascii_alphabetic() || byte == b'_'
}

/// The bytes from the front on that are of the class, and those behind them.
pub(crate) fn span(class: Class, text: &[u8]) -> (&[u8], &[u8])
    requires { HasBase class }
    ensures front { result.0.now ≡ front (passes class) text.now }
    ensures back { result.1.now ≡ back (passes class) text.now }
{
    let rest = behind(class, text);
    (&text[..text.len() - rest.len()], rest)
}

// The text behind the bytes of the class.
fn behind(class: Class, text: &[u8]) -> &[u8]
    requires { HasBase class }
    ensures { result.now ≡ back (passes class) text.now }
{
    let mut rest = text;
    while let Some((byte, after)) = rest.split_first() {
        if !class.passes(*byte) {
            return rest;
        }
        rest = after;
    }
    rest
}
