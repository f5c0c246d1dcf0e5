//! Where reading stands in a text.

ghost use Rattle.std.specs.Prelude.{◌≡◌, MatchOption, option_map};
ghost use Rattle.cx_vread_exprs.specs.Places.{after, begins};
ghost use Rattle.cx_vread_exprs.specs.Answers.{Gives, place_of};

use crate::faults::Fault;

/// A place in a text: the bytes that are left there.
#[derive(Clone, Copy, Debug)]
pub struct ReadPoint<'a> {
    pub rest: &'a [u8],
}

/// Goes on past a fixed text where it stands here.
#[tactic(auto, using(crate::proofs::Texts::after_none, crate::proofs::Texts::after_some))]
pub fn after<'a>(at: ReadPoint<'a>, want: &[u8]) -> Option<ReadPoint<'a>>
    ensures { option_map place_of result ≡ after want.now (place_of at.entry) }
{
    match at.rest.strip_prefix(want) {
        None => None,
        Some(rest) => Some(ReadPoint { rest }),
    }
}

/// How many bytes two texts begin with alike.
fn common(bytes: &[u8], want: &[u8]) -> usize {
    let mut alike = 0usize;
    for (a, b) in bytes.iter().zip(want) {
        if *a != *b {
            return alike;
        }
        alike = alike.saturating_add(1);
    }
    alike
}

/// Goes on past a fixed text. Where another stands, reading stops at the first byte that differs.
pub fn expect<'a>(at: ReadPoint<'a>, want: &[u8]) -> Result<ReadPoint<'a>, Fault>
    ensures { Gives place_of result (after want.now (place_of at.entry)) }
{
    match after(at, want) {
        None => {
            let alike = common(at.rest, want);
            Err(Fault::Syntax(at.rest.len().saturating_sub(alike)))
        }
        Some(at) => Ok(at),
    }
}

/// Whether the bytes begin with a fixed text.
pub fn begins(at: ReadPoint, want: &[u8]) -> bool
    ensures { result ≡ begins want.now (place_of at.entry) }
{
    after(at, want).is_some()
}
