//! Whether each net comes behind what it reads.

ghost use Rattle.std.specs.Prelude.{◌≡◌, ◌+◌, ◌<◌, true, Some, length, slice_get};
ghost use Rattle.cx_vnets.specs.Readers.{AreBehind, HaveRanks, IsRanked};
ghost use Rattle.cx_vnets.specs.Reads.{CodeReads, NetReads};
ghost use Rattle.cx_vnets.specs.Stale.{rank_at};

use crate::codes::Code;
use crate::nets::{Driver, Nets};

/// Whether a net has a rank below another.
pub(crate) fn is_below(ranks: &[u32], net: usize, rank: u32) -> bool
    ensures { result ≡ true → rank_at ranks.now net < rank }
{
    match ranks.get(net) {
        Some(own) => *own < rank,
        None => false,
    }
}

/// Whether all nets that a code reads have ranks below this, where those of its instance begin at `first`.
fn reads_below(ranks: &[u32], code: &Code, first: u32, rank: u32) -> bool
    ensures { result ≡ true → CodeReads (λ k. rank_at ranks.now (first + k) < rank) (λ a. Unit {0}) code.now }
{
    match code {
        Code::Net(net) => is_below(ranks, first as usize + *net as usize, rank),
        Code::Slice(net, _, _) => is_below(ranks, first as usize + *net as usize, rank),
        Code::Literal(_) => true,
        Code::Item(_, inner) => reads_below(ranks, inner, first, rank),
        Code::Not(inner) => reads_below(ranks, inner, first, rank),
        Code::Binary(_, left, right) => {
            reads_below(ranks, left, first, rank) && reads_below(ranks, right, first, rank)
        }
        Code::Cat(left, right) => {
            reads_below(ranks, left, first, rank) && reads_below(ranks, right, first, rank)
        }
        Code::Choose(test, one, other) => {
            reads_below(ranks, test, first, rank)
                && (reads_below(ranks, one, first, rank) && reads_below(ranks, other, first, rank))
        }
    }
}

/// Whether a net reads nets of lower ranks alone.
fn is_behind(nets: &Nets, ranks: &[u32], net: usize) -> bool
    requires within { net < length nets.now.drivers.items }
    requires ranks { net < length ranks.now }
    ensures { result ≡ true → NetReads nets.now (λ g. rank_at ranks.now g < rank_at ranks.now net) (λ a. Unit {0}) net }
{
    let rank = ranks[net];
    match nets.drivers[net] {
        Driver::Held => true,
        Driver::Tied(other) => is_below(ranks, other as usize, rank),
        Driver::Given(code, place) => match nets.codes.get(code as usize) {
            None => true,
            Some(code) => reads_below(ranks, code, place.nets, rank),
        },
    }
}

/// Whether a net stands in the order at its rank.
fn is_placed(order: &[u32], ranks: &[u32], net: usize) -> bool
    requires ranks { net < length ranks.now }
    ensures { result ≡ true → slice_get order.now (rank_at ranks.now net) ≡ Some net }
{
    match order.get(ranks[net] as usize) {
        Some(other) => *other as usize == net,
        None => false,
    }
}

/// Whether all nets stand in the order at their ranks, behind what they read.
fn are_behind(nets: &Nets, order: &[u32], ranks: &[u32]) -> bool
    requires ranks { length ranks.now ≡ length nets.now.drivers.items }
    ensures { result ≡ true → AreBehind nets.now order.now ranks.now (length nets.now.drivers.items) }
{
    for net in 0..nets.drivers.len() {
        if !is_placed(order, ranks, net) || !is_behind(nets, ranks, net) {
            return false;
        }
    }
    true
}

/// Whether a net has this rank.
fn has_rank(ranks: &[u32], net: usize, rank: usize) -> bool
    ensures { result ≡ true → (net < length ranks.now) × (rank_at ranks.now net ≡ rank) }
{
    match ranks.get(net) {
        Some(own) => *own as usize == rank,
        None => false,
    }
}

/// Whether each net of the order has its place there as its rank.
fn have_ranks(order: &[u32], ranks: &[u32]) -> bool
    ensures { result ≡ true → HaveRanks order.now ranks.now (length order.now) }
{
    for (rank, net) in order.iter().enumerate() {
        if !has_rank(ranks, *net as usize, rank) {
            return false;
        }
    }
    true
}

/// Whether there are as many ranks and places in the order as nets.
fn are_as_many(nets: &Nets, order: &[u32], ranks: &[u32]) -> bool
    ensures { result ≡ true → (length order.now ≡ length nets.now.drivers.items)
        × (length ranks.now ≡ length nets.now.drivers.items) }
{
    order.len() == nets.drivers.len() && ranks.len() == nets.drivers.len()
}

/// Whether nets are ranked by their places in an order, each behind what it reads.
pub(crate) fn is_ranked(nets: &Nets, order: &[u32], ranks: &[u32]) -> bool
    ensures { result ≡ true → IsRanked nets.now order.now ranks.now }
{
    are_as_many(nets, order, ranks) && (are_behind(nets, order, ranks) && have_ranks(order, ranks))
}
