//! Marks by the ranks of nets: which nets may have another value than they had.

ghost use Rattle.std.specs.Prelude.{◌≡◌, ◌≢◌, ◌<◌, ◌≤◌, true, false, length, slice_get, slice_set};
ghost use Rattle.cx_text.specs.Members.{In};
ghost use Rattle.cx_vnets.specs.Stale.{AllStale, IsNear, IsNextStale, SameBelow, Tells, rank_at};

use cx_bits::Bits;
use memchr::memchr;

/// Marks a net, where its rank is not below `from`.
pub(crate) fn mark(ranks: &[u32], from: usize, stale: &mut [u8], net: usize)
    ensures tells { Tells ranks.now stale.old stale.new (λ f. from ≤ rank_at ranks.now f → f ≢ net) }
    ensures below { SameBelow from stale.old stale.new }
{
    if let Some(rank) = ranks.get(net) {
        let rank = *rank as usize;
        if rank >= from && rank < stale.len() {
            stale[rank] = 1;
        }
    }
}

/// Marks the nets of a row whose ranks are not below `from`.
pub(crate) fn mark_row(ranks: &[u32], from: usize, stale: &mut [u8], row: &[u32])
    ensures tells { Tells ranks.now stale.old stale.new (λ f. from ≤ rank_at ranks.now f → In row.now f → ⊥) }
    ensures below { SameBelow from stale.old stale.new }
{
    for net in row {
        mark(ranks, from, stale, *net as usize);
    }
}

/// Marks all nets.
pub(crate) fn mark_all(stale: &mut [u8])
    ensures long { length stale.new ≡ length stale.old }
    ensures all { AllStale stale.new }
{
    for mark in stale.iter_mut() {
        *mark = 1;
    }
}

/// So many ranks are looked at one by one before a search.
const NEAR: usize = 8;

/// The first marked rank from one up to another; this one where there is none.
fn near_marked(stale: &[u8], from: usize, to: usize) -> usize
    requires order { from ≤ to }
    requires within { to ≤ length stale.now }
    ensures near { IsNear stale.now from to result }
    ensures there { result ≤ length stale.now }
{
    for rank in from..to {
        if stale[rank] == 1 {
            return rank;
        }
    }
    to
}

/// The first marked rank from one on, where the mark is not the very first.
#[inline(never)]
fn search_marked(stale: &[u8], from: usize) -> Option<usize>
    requires { from ≤ length stale.now }
    ensures { IsNextStale stale.now from result }
{
    let to = from + NEAR.min(stale.len() - from);
    let near = near_marked(stale, from, to);
    if near < to {
        return Some(near);
    }
    match memchr(1, &stale[near..]) {
        Some(steps) => Some(near + steps),
        None => None,
    }
}

/// The first marked rank from one on. Where many nets change, it is the very next one, or close to it.
#[inline(always)]
pub(crate) fn next_marked(stale: &[u8], from: usize) -> Option<usize>
    requires { from ≤ length stale.now }
    ensures { IsNextStale stale.now from result }
{
    if from < stale.len() && stale[from] == 1 {
        return Some(from);
    }
    search_marked(stale, from)
}

/// Gives a net a stored value, and marks it where it had another.
pub(crate) fn put(registers: &mut [Bits], ranks: &[u32], stale: &mut [u8], net: usize, value: Bits)
    requires within { net < length registers.old }
    ensures value { registers.new ≡ slice_set registers.old net value }
    ensures tells { Tells ranks.now stale.old stale.new (λ f. slice_get registers.new f ≡ slice_get registers.old f) }
{
    if registers[net] != value {
        mark(ranks, 0, stale, net);
        registers[net] = value;
    }
}

/// Whether a value is another than before.
pub(crate) fn is_other(old: Bits, new: Bits) -> bool
    ensures same { result ≡ false → old ≡ new }
    ensures other { result ≡ true → old ≢ new }
{
    old != new
}
