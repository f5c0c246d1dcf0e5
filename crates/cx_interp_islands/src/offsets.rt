//! Offsets in the parts of a static statement.

ghost use Rattle.std.specs.Prelude.{◌≡◌, ◌≤◌, ◌<◌, ◌-◌, ◌^◌, ◌%◌, nat_lt};
ghost use Rattle.cx_design.specs.PlainForms.{plain_component, plain_statement};
ghost use Rattle.cx_meaning.specs.Islands as plain;

use cx_design::{Component, Statement};
use cx_design_sizes::length_of;

/// Whether a statement still runs at an offset since it began.
pub fn is_running(part: &Component, statement: &Statement, offset: u64) -> bool
    requires offset { offset < 2 ^ 64 - 1 }
    ensures value { result ≡
        nat_lt offset (plain.length_of (plain_component part.now) (plain_statement statement.now)) }
{
    offset < length_of(part, statement)
}

/// The offset in a round of a body that is repeated.
pub fn round_offset(part: &Component, body: &Statement, offset: u64) -> u64
    requires offset { offset < 2 ^ 64 - 1 }
    ensures value { result ≡ offset % plain.length_of (plain_component part.now) (plain_statement body.now) }
    ensures within { result ≤ offset }
{
    let length = length_of(part, body);
    if length == 0 { offset } else { offset % length }
}
