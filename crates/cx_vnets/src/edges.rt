//! What changes at the edge that ends a cycle.

ghost use Rattle.std.specs.Prelude.{◌≡◌, slice_get};
ghost use Rattle.cx_vnets.specs.Arrays.{IsEven};
ghost use Rattle.cx_vnets.specs.Edges.{SetsFit, after_sets};
ghost use Rattle.cx_vnets.specs.Search.{SameWidths};
ghost use Rattle.cx_vnets.specs.Stale.{Tells};

use crate::arrays::Words;
use crate::codes::{Code, NetPosition};
use crate::stale::put;
use crate::values::settled;
use cx_bits::Bits;

/// A register takes the value of a code.
#[derive(Clone, Copy, Debug, PartialEq, Eq)]
pub struct Set {
    pub net: u32,
    pub code: u32,
    pub place: NetPosition,
}

/// Gives registers the values of their codes, where all nets have their values and these stay as they are, and marks those
/// that had another value.
pub fn set_registers(
    codes: &[Code],
    sets: &[Set],
    values: &[Bits],
    arrays: &[Words],
    registers: &mut [Bits],
    ranks: &[u32],
    stale: &mut [u8],
)
    requires even { IsEven arrays.now }
    requires fits { SetsFit codes.now values.now arrays.now sets.now }
    requires widths { SameWidths registers.old values.now }
    ensures value { registers.new ≡ after_sets codes.now values.now arrays.now sets.now registers.old }
    ensures widths { SameWidths registers.new values.now }
    ensures tells { Tells ranks.now stale.old stale.new (λ f. slice_get registers.new f ≡ slice_get registers.old f) }
{
    for set in sets {
        let value = settled(values, arrays, set.place, &codes[set.code as usize]);
        put(registers, ranks, stale, set.net as usize, value);
    }
}
