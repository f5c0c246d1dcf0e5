//! What is known of a net while a cycle is evaluated.

ghost use Rattle.std.specs.Prelude.{◌≡◌};
ghost use Rattle.cx_vnets.specs.Looks as looks;

use cx_bits::Bits;

/// What is known of a net: nothing yet, that it waits for others, or its value.
#[derive(Clone, Copy, Debug, PartialEq, Eq)]
pub enum NetMark {
    Unseen,
    Open,
    Known,
}

/// A value, or the first net that it waits for.
#[derive(Clone, Copy, Debug, PartialEq, Eq)]
pub enum FoundValue {
    Worth(Bits),
    Waits(usize),
}

/// What is known of a net.
pub fn seen(marks: &[NetMark], values: &[Bits], net: usize) -> FoundValue
    ensures { result ≡ looks.seen marks.now values.now net }
{
    match marks.get(net) {
        Some(NetMark::Known) => match values.get(net) {
            Some(value) => FoundValue::Worth(*value),
            None => FoundValue::Waits(net),
        },
        _ => FoundValue::Waits(net),
    }
}
