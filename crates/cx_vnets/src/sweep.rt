//! The values of all nets in a cycle, from those of the cycle before: in the order of ranks, marked nets alone.

ghost use Rattle.std.specs.Prelude.{◌≡◌, ◌+◌, ◌<◌, ◌≤◌, true, false, ℕ, List, Some, length, get_or, slice_get};
ghost use Rattle.cx_text.specs.Members.{In};
ghost use Rattle.cx_vnets.specs.Fits.{Fits};
ghost use Rattle.cx_graphs.specs.Graphs.{edges_of, targets_of};
ghost use Rattle.cx_vnets.specs.Gates.{IsShut, ZerosStand};
ghost use Rattle.cx_vnets.specs.Readers.{HearsNot, Passes, ReadersStand, Sweeping};
ghost use Rattle.cx_vnets.specs.Search.{SameWidths};
ghost use Rattle.cx_vnets.specs.Spans.{SpansStand};
ghost use Rattle.cx_vnets.specs.Stale.{SameBelow, Tells, rank_at};
ghost use Rattle.cx_vnets.specs.Values.{rule};

use crate::behind::{mark_spanned, span_at};
use crate::carriers::carry;
use crate::gates::{mark_open_row, note_zero};
use crate::nets::{Driver, Nets, Stored};
use crate::readers::Readers;
use crate::stale::{is_other, mark_row, next_marked};
use crate::values::settled;
use crate::watches::{is_next, row_of};
use cx_bits::Bits;

/// What a net's driver gives it, where all nets have these values.
fn drive(nets: &Nets, stored: &Stored, values: &[Bits], net: usize) -> Bits
    requires within { net < length nets.now.drivers.items }
    requires fits { Fits nets.now stored.now }
    requires widths { SameWidths values.now stored.now.nets.items }
    ensures { rule nets.now stored.now (slice_get values.now) net ≡ Some result }
{
    match nets.drivers[net] {
        Driver::Held => stored.nets[net],
        Driver::Tied(other) => values[other as usize],
        Driver::Given(code, place) => settled(
            values,
            &stored.arrays,
            place,
            &nets.codes[code as usize],
        ),
    }
}

/// Marks the nets of ranks from `from` on that read a net, one by one, but those whose gate is another net, which is known to be 0.
fn mark_row_open(readers: &Readers, nonzero: &[u8], net: usize, from: usize, stale: &mut [u8])
    requires within { net < length readers.now.of_nets.items }
    ensures tells { Tells readers.now.ranks.items stale.old stale.new
        (λ f. from ≤ rank_at readers.now.ranks.items f
        → In (targets_of (edges_of readers.now.of_nets.items) net) f
        → IsShut readers.now.gates.items nonzero.now net f) }
    ensures below { SameBelow from stale.old stale.new }
{
    mark_open_row(
        &readers.gates,
        nonzero,
        net,
        &readers.ranks,
        from,
        stale,
        &readers.of_nets[net],
    );
}

/// Marks the nets of ranks from `from` on that read a net, but those whose gate is another net, which is known to be 0.
fn mark_reading(readers: &Readers, nonzero: &[u8], net: usize, from: usize, stale: &mut [u8])
    requires within { net < length readers.now.of_nets.items }
    requires spans { SpansStand readers.now.gates.items (edges_of readers.now.of_nets.items) readers.now.spans }
    ensures tells { Tells readers.now.ranks.items stale.old stale.new
        (λ f. from ≤ rank_at readers.now.ranks.items f
        → In (targets_of (edges_of readers.now.of_nets.items) net) f
        → IsShut readers.now.gates.items nonzero.now net f) }
    ensures below { SameBelow from stale.old stale.new }
{
    match span_at(&readers.spans, nonzero, net, readers.of_nets[net].len()) {
        Some(span) => mark_spanned(&readers.ranks, &readers.spans, nonzero, span, from, stale),
        None => mark_row_open(readers, nonzero, net, from, stale),
    }
}

/// Marks the nets of ranks from `from` on that stand in a row of comparisons.
fn mark_comparing(readers: &Readers, row: usize, from: usize, stale: &mut [u8])
    requires within { row < length readers.now.watches.rows.items }
    ensures tells { Tells readers.now.ranks.items stale.old stale.new
        (λ f. from ≤ rank_at readers.now.ranks.items f
        → In (targets_of (edges_of readers.now.watches.rows.items) row) f → ⊥) }
    ensures below { SameBelow from stale.old stale.new }
{
    mark_row(&readers.ranks, from, stale, &readers.watches.rows[row]);
}

/// Marks the nets of ranks from `from` on that tell on which side of a value a net is, where one lies between what it was and
/// what it is.
fn mark_sided(readers: &Readers, net: usize, from: usize, stale: &mut [u8], old: Bits, new: Bits)
    requires within { net < length readers.now.watches.rows.items }
    ensures tells { Tells readers.now.ranks.items stale.old stale.new
        (λ f. from ≤ rank_at readers.now.ranks.items f
        → In (targets_of (edges_of readers.now.watches.rows.items) net) f → new.value ≡ old.value + 1) }
    ensures below { SameBelow from stale.old stale.new }
{
    if is_next(old, new) {
        return;
    }
    mark_comparing(readers, net, from, stale);
}

/// Marks the nets of ranks from `from` on that compare a net with a value and may find it otherwise.
fn mark_rows(
    readers: &Readers,
    count: usize,
    from: usize,
    stale: &mut [u8],
    net: usize,
    old: Bits,
    new: Bits,
)
    requires within { net < count }
    requires watches { length readers.now.watches.rows.items ≡ count }
    ensures tells { Tells readers.now.ranks.items stale.old stale.new
        (λ f. from ≤ rank_at readers.now.ranks.items f → Passes readers.now count net old new f) }
    ensures below { SameBelow from stale.old stale.new }
{
    let lost = row_of(net, old, count);
    let won = row_of(net, new, count);
    mark_comparing(readers, lost, from, stale);
    mark_comparing(readers, won, from, stale);
    mark_sided(readers, net, from, stale, old, new);
}

/// Whether a net is compared, by the notes.
fn is_compared(compared: &[bool], net: usize) -> bool
    requires within { net < length compared.now }
    ensures { result ≡ get_or compared.now net false }
{
    compared[net]
}

/// Marks the same nets, where the net is compared at all.
fn mark_watching(
    readers: &Readers,
    count: usize,
    from: usize,
    stale: &mut [u8],
    net: usize,
    old: Bits,
    new: Bits,
)
    requires within { net < count }
    requires watches { length readers.now.watches.rows.items ≡ count }
    requires notes { net < length readers.now.watches.compared.items }
    ensures tells { Tells readers.now.ranks.items stale.old stale.new
        (λ f. from ≤ rank_at readers.now.ranks.items f
        → get_or readers.now.watches.compared.items net false ≡ true → Passes readers.now count net old new f) }
    ensures below { SameBelow from stale.old stale.new }
{
    if is_compared(&readers.watches.compared, net) {
        mark_rows(readers, count, from, stale, net, old, new);
    }
}

/// Marks the nets of ranks from `from` on that read a net, and those that compare it with a value and may find it otherwise.
fn mark_hearers(
    readers: &Readers,
    nonzero: &[u8],
    count: usize,
    from: usize,
    stale: &mut [u8],
    net: usize,
    old: Bits,
    new: Bits,
)
    requires within { net < count }
    requires rows { length readers.now.of_nets.items ≡ count }
    requires watches { length readers.now.watches.rows.items ≡ count }
    requires notes { length readers.now.watches.compared.items ≡ count }
    requires spans { SpansStand readers.now.gates.items (edges_of readers.now.of_nets.items) readers.now.spans }
    ensures tells { Tells readers.now.ranks.items stale.old stale.new
        (λ f. from ≤ rank_at readers.now.ranks.items f → HearsNot readers.now nonzero.now count net old new f) }
    ensures below { SameBelow from stale.old stale.new }
{
    mark_reading(readers, nonzero, net, from, stale);
    mark_watching(readers, count, from, stale, net, old, new);
}

/// Computes the net of a rank again, and marks those that hear of it where it has another value than before.
fn refresh(
    nets: &Nets,
    stored: &Stored,
    readers: &Readers,
    stale: &mut [u8],
    values: &mut [Bits],
    nonzero: &mut [u8],
    net: usize,
    rank: usize,
)
    requires within { net < length nets.now.drivers.items }
    requires place { rank_at readers.now.ranks.items net ≡ rank }
    requires ranked { readers.now.ranked ≡ true }
    requires readers { (order : List ℕ) × ReadersStand nets.now order readers.now }
    requires fits { Fits nets.now stored.now }
    requires sweeping { Sweeping nets.now stored.now readers.now stale.old values.old rank }
    requires nonzero { ZerosStand readers.now.carriers.origins.items nonzero.old values.old }
    ensures sweeping { Sweeping nets.now stored.now readers.now stale.new values.new (rank + 1) }
    ensures nonzero { ZerosStand readers.now.carriers.origins.items nonzero.new values.new }
{
    let value = drive(nets, stored, values, net);
    stale[rank] = 0;
    let old = values[net];
    if is_other(old, value) {
        carry(&readers.carriers, values, net, value);
        note_zero(nonzero, net, value);
        mark_hearers(
            readers,
            nonzero,
            nets.drivers.len(),
            rank + 1,
            stale,
            net,
            old,
            value,
        );
    }
}

/// Computes again what may have changed, and what changes with it.
pub(crate) fn sweep(
    nets: &Nets,
    stored: &Stored,
    order: &[u32],
    readers: &Readers,
    stale: &mut [u8],
    values: &mut [Bits],
    nonzero: &mut [u8],
)
    requires ranked { readers.now.ranked ≡ true }
    requires readers { ReadersStand nets.now order.now readers.now }
    requires fits { Fits nets.now stored.now }
    requires sweeping { Sweeping nets.now stored.now readers.now stale.old values.old 0 }
    requires nonzero { ZerosStand readers.now.carriers.origins.items nonzero.old values.old }
    ensures sweeping { Sweeping nets.now stored.now readers.now stale.new values.new (length order.now) }
    ensures nonzero { ZerosStand readers.now.carriers.origins.items nonzero.new values.new }
{
    let mut rank = 0;
    while let Some(marked) = next_marked(stale, rank) {
        let net = order[marked] as usize;
        refresh(nets, stored, readers, stale, values, nonzero, net, marked);
        rank = marked + 1;
    }
}
