//! Literals as they are seen.

ghost use Rattle.std.specs.Prelude.{◌≡◌};
ghost use Rattle.cx_meaning.specs.declared.ports.PortRef.TheVariants.{Literal};
ghost use Rattle.cx_eval_network.specs.Networks as networks;

use cx_bits::Bits;
use cx_design::{PortRef, Seen};

/// A literal as it is seen, where its value fits its width. Other ports are none.
pub fn literal_seen(port: PortRef) -> Seen
    ensures value { result ≡ networks.literal_seen port }
{
    match port {
        PortRef::Literal(width, value) => fitting(width, value),
        PortRef::Cell(_, _) | PortRef::Input(_) | PortRef::Output(_) | PortRef::Done(_) => {
            Seen::Undefined
        }
    }
}

/// A value of so many bits, where it fits.
fn fitting(width: u32, value: u128) -> Seen
    ensures value { result ≡ networks.literal_seen (Literal width value) }
{
    let Ok(narrow) = u8::try_from(width) else {
        return Seen::Undefined;
    };
    match Bits::new(narrow, value) {
        Some(bits) => Seen::Value(bits),
        None => Seen::Undefined,
    }
}
