//! Comments.

ghost use Rattle.std.specs.Prelude.{◌≡◌, false, option_copied};
ghost use Rattle.cx_lex.specs.Reading.{after_close};

/// The text behind the first `*/`, or None where there is none.
pub(crate) fn after_comment(text: &[u8]) -> Option<&[u8]>
    ensures { option_copied result ≡ after_close false text.now }
{
    let mut rest = text;
    let mut star = false;
    while let Some((byte, after)) = rest.split_first() {
        if star && *byte == b'/' {
            return Some(after);
        }
        star = *byte == b'*';
        rest = after;
    }
    None
}
