//! The readers of a net behind gates that may be other than 0 are marked.

ghost use Rattle.std.specs.Prelude.{◌≡◌, ◌<◌, ◌≤◌, true, IfSome, Some, length, slice_get};
ghost use Rattle.cx_text.specs.Members.{In};
ghost use Rattle.cx_graphs.specs.Graphs.{edges_of, targets_of};
ghost use Rattle.cx_vnets.specs.Spans.{NotBehind, IsInTables};
ghost use Rattle.cx_vnets.specs.Stale.{SameBelow, Tells, rank_at};

use crate::spans::{FEWEST, Span, Spans};
use crate::stale::{mark_row, next_marked};

/// Whether the tables have all nets of a span.
fn has_tables(spans: &Spans, nonzero: &[u8], span: &Span) -> bool
    ensures { result ≡ true → IsInTables spans.now nonzero.now span.now }
{
    let high = span.high as usize;
    span.low <= span.high && high <= nonzero.len() && high <= spans.gated.len()
}

/// The span of a net that so many nets read, where it has one.
pub(crate) fn span_at<'a>(
    spans: &'a Spans,
    nonzero: &[u8],
    net: usize,
    readers: usize,
) -> Option<&'a Span>
    ensures stands { IfSome result (λ span. slice_get spans.now.of_nets.items net ≡ Some (Some span.now)) }
    ensures tables { IfSome result (λ span. IsInTables spans.now nonzero.now span.now) }
{
    if readers < FEWEST {
        return None;
    }
    match spans.of_nets.get(net) {
        Some(Some(span)) => {
            if has_tables(spans, nonzero, span) {
                Some(span)
            } else {
                None
            }
        }
        _ => None,
    }
}

/// Marks the nets of ranks from `from` on whose gate is a net.
fn mark_gated(ranks: &[u32], gated: &[Vec<u32>], gate: usize, from: usize, stale: &mut [u8])
    requires within { gate < length gated.now }
    ensures tells { Tells ranks.now stale.old stale.new
        (λ f. from ≤ rank_at ranks.now f → In (targets_of (edges_of gated.now) gate) f → ⊥) }
    ensures below { SameBelow from stale.old stale.new }
{
    mark_row(ranks, from, stale, &gated[gate]);
}

/// Marks the nets of ranks from `from` on whose gate lies from `low` up to `high` and may be other than 0.
fn mark_behind(
    ranks: &[u32],
    gated: &[Vec<u32>],
    nonzero: &[u8],
    low: usize,
    high: usize,
    from: usize,
    stale: &mut [u8],
)
    requires order { low ≤ high }
    requires bytes { high ≤ length nonzero.now }
    requires rows { high ≤ length gated.now }
    ensures tells { Tells ranks.now stale.old stale.new
        (λ f. from ≤ rank_at ranks.now f → NotBehind (edges_of gated.now) nonzero.now low high f) }
    ensures below { SameBelow from stale.old stale.new }
{
    let mut at = low;
    while let Some(gate) = next_marked(nonzero, at) {
        if gate >= high {
            return;
        }
        mark_gated(ranks, gated, gate, from, stale);
        at = gate + 1;
    }
}

/// Marks the readers of a net of ranks from `from` on: those behind no gate of its span, and those behind gates of it that may
/// be other than 0.
pub(crate) fn mark_spanned(
    ranks: &[u32],
    spans: &Spans,
    nonzero: &[u8],
    span: &Span,
    from: usize,
    stale: &mut [u8],
)
    requires tables { IsInTables spans.now nonzero.now span.now }
    ensures tells { Tells ranks.now stale.old stale.new
        (λ f. from ≤ rank_at ranks.now f → (In span.now.plain.items f → ⊥)
        × NotBehind (edges_of spans.now.gated.items) nonzero.now span.now.low span.now.high f) }
    ensures below { SameBelow from stale.old stale.new }
{
    mark_row(ranks, from, stale, &span.plain);
    mark_behind(
        ranks,
        &spans.gated,
        nonzero,
        span.low as usize,
        span.high as usize,
        from,
        stale,
    );
}
