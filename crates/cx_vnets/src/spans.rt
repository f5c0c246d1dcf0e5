//! Nets that are read behind many gates: who reads such a net is found by the gates that may be other than 0.

ghost use Rattle.std.specs.Prelude.{◌≡◌, ◌⊎◌, ℕ, true, IfOk, OnOk, Some};
ghost use Rattle.cx_text.specs.Members.{In};
ghost use Rattle.cx_graphs.specs.Graphs.{edges_of};
ghost use Rattle.cx_vnets.specs.declared.spans.Span.{Span};
ghost use Rattle.cx_vnets.specs.Spans.{IsGated, IsSpan, IsWithin, SpansStand};

use crate::gates::gate_at;
use crate::readers::listed_by;
use cx_text::Memory;
use std::alloc::Global;

/// So many gates make a span worth its search.
pub(crate) const FEWEST: usize = 16;

/// So many nets a span may have for each gate in it: a search looks at a byte for each.
const WIDEST: usize = 64;

/// The gates behind which a net is read, from one net up to another, and who reads it behind none of them.
#[derive(Drop)]
pub struct Span {
    pub low: u32,
    pub high: u32,
    pub plain: Vec<u32>,
}

/// For each net that is read behind many gates their span, and for each net the nets whose gate it is.
#[derive(Drop)]
pub struct Spans {
    pub of_nets: Vec<Option<Span>>,
    pub gated: Vec<Vec<u32>>,
}

/// The gates in a row: where they lie, and how many they are.
#[derive(Clone, Copy, Debug, PartialEq, Eq)]
struct Bounds {
    low: u32,
    high: u32,
    count: usize,
}

impl Bounds {
    /// With one gate more.
    fn with(self, gate: u32) -> Bounds {
        Bounds {
            low: self.low.min(gate),
            high: self.high.max(gate.saturating_add(1)),
            count: self.count.saturating_add(1),
        }
    }

    /// Whether there are many gates, close to one another.
    fn is_dense(&self) -> bool {
        let width = self.high.saturating_sub(self.low) as usize;
        self.count >= FEWEST && width / WIDEST <= self.count
    }
}

/// Where the gates of the readers of a net lie, but for itself.
fn bounds_of(gates: &[Option<u32>], net: usize, row: &[u32]) -> Bounds {
    let mut bounds = Bounds {
        low: u32::MAX,
        high: 0,
        count: 0,
    };
    for reader in row {
        match gate_at(gates, *reader as usize) {
            Some(gate) if gate as usize != net => bounds = bounds.with(gate),
            _ => {}
        }
    }
    bounds
}

/// Whether a gate is another net than the one that is read, and lies in a span.
fn is_within(net: usize, low: u32, high: u32, gate: u32) -> bool
    ensures { result ≡ true → IsWithin net low high gate }
{
    gate as usize != net && low <= gate && gate < high
}

/// Whether a reader of a net has a gate in a span.
fn is_gated(gates: &[Option<u32>], net: usize, low: u32, high: u32, reader: usize) -> bool
    ensures { result ≡ true → IsGated gates.now net low high reader }
{
    match gate_at(gates, reader) {
        Some(gate) => is_within(net, low, high, gate),
        None => false,
    }
}

/// Adds a reader, where it has no gate in a span.
fn add_plain(
    plain: &mut Vec<u32>,
    gates: &[Option<u32>],
    net: usize,
    low: u32,
    high: u32,
    reader: u32,
) -> Result<(), Memory>
    ensures kept { OnOk result ((f : ℕ) → In plain.old.items f → In plain.new.items f) }
    ensures here { OnOk result (In plain.new.items reader ⊎ IsGated gates.now net low high reader) }
{
    if is_gated(gates, net, low, high, reader as usize) {
        return Ok(());
    }
    plain.push(reader)?;
    Ok(())
}

/// The readers of a net that have no gate in a span.
fn plain_of(
    alloc: Global,
    gates: &[Option<u32>],
    net: usize,
    row: &[u32],
    low: u32,
    high: u32,
) -> Result<Vec<u32>, Memory>
    ensures { IfOk result (λ plain. (f : ℕ) → In row.now f → In plain.items f ⊎ IsGated gates.now net low high f) }
{
    let mut plain = Vec::new(alloc);
    for reader in row {
        add_plain(&mut plain, gates, net, low, high, *reader)?;
    }
    Ok(plain)
}

/// The span of a net, where it is read behind many gates.
fn span_of(
    alloc: Global,
    gates: &[Option<u32>],
    net: usize,
    row: &[u32],
) -> Result<Option<Span>, Memory>
    ensures { IfOk result (λ found. (span : Span) → found ≡ Some span → IsSpan gates.now row.now net span) }
{
    let bounds = bounds_of(gates, net, row);
    if !bounds.is_dense() {
        return Ok(None);
    }
    let plain = plain_of(alloc, gates, net, row, bounds.low, bounds.high)?;
    Ok(Some(Span {
        low: bounds.low,
        high: bounds.high,
        plain,
    }))
}

/// The spans of nets, by the gate of each net, where it has one, and by who reads each.
pub(crate) fn spans_of(
    alloc: Global,
    gates: &[Option<u32>],
    rows: &[Vec<u32>],
) -> Result<Spans, Memory>
    ensures { IfOk result (SpansStand gates.now (edges_of rows.now)) }
{
    let mut of_nets = Vec::with_capacity(alloc, rows.len())?;
    for net in 0..rows.len() {
        of_nets.push(span_of(alloc, gates, net, &rows[net])?)?;
    }
    let gated = listed_by(alloc, gates)?;
    Ok(Spans { of_nets, gated })
}
