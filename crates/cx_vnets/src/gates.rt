//! Nets that are 0 where another net, their gate, is 0.

ghost use Rattle.std.specs.Prelude.{◌≡◌, ◌≢◌, ◌+◌, ◌<◌, ◌≤◌, ℕ, true, IfOk, IfSome, Some, length, slice_get};
ghost use Rattle.cx_text.specs.Members.{In};
ghost use Rattle.cx_vtree.specs.declared.operators.Operator.TheVariants.{And};
ghost use Rattle.cx_vnets.specs.Carriers.{origin_at};
ghost use Rattle.cx_vnets.specs.Gates.{GatesStand, HasGate, IsGate, IsKnownZero, IsShut, IsZero};
ghost use Rattle.cx_vnets.specs.Stale.{SameBelow, Tells, rank_at};
ghost use Rattle.cx_vnets.specs.Watches.{IsNet};

use crate::carriers::origin_number;
use crate::codes::{Code, NetPosition};
use crate::nets::{Driver, Nets};
use crate::stale::mark;
use crate::watches::net_of;
use cx_bits::Bits;
use cx_text::Memory;
use cx_vtree::Operator;
use std::alloc::Global;

/// The net that an operator and its first operand have as their gate.
fn operand_gate(op: Operator, left: &Code) -> Option<u32>
    ensures { IfSome result (λ k. (op ≡ And) × IsNet left.now k) }
{
    match op {
        Operator::And => net_of(left),
        _ => None,
    }
}

/// The net of its instance that a code has as its gate.
fn code_gate(code: &Code) -> Option<u32>
    ensures { IfSome result (λ k. IsGate code.now k) }
{
    match code {
        Code::Binary(op, left, _) => operand_gate(*op, left),
        _ => None,
    }
}

/// The number of a net among all.
pub(crate) fn placed(first: u32, offset: u32) -> Option<u32>
    ensures { IfSome result (λ net. first + offset ≡ net) }
{
    first.checked_add(offset)
}

/// The net that a code of an instance has as its gate.
fn placed_gate(code: &Code, place: NetPosition) -> Option<u32>
    ensures { IfSome result (λ gate. (k : ℕ) × IsGate code.now k × (place.nets + k ≡ gate)) }
{
    match code_gate(code) {
        Some(gate) => placed(place.nets, gate),
        None => None,
    }
}

/// The origin of the net that a code of an instance has as its gate.
fn origin_gate(code: &Code, place: NetPosition, origins: &[Option<u32>]) -> Option<u32>
    ensures { IfSome result (λ gate. (k : ℕ) × IsGate code.now k × (origin_at origins.now (place.nets + k) ≡ gate)) }
{
    match placed_gate(code, place) {
        Some(gate) => origin_number(origins, gate),
        None => None,
    }
}

/// The gate of a net.
fn net_gate(nets: &Nets, origins: &[Option<u32>], net: usize) -> Option<u32>
    requires within { net < length nets.now.drivers.items }
    ensures { IfSome result (λ g. HasGate nets.now origins.now net g) }
{
    match nets.drivers[net] {
        Driver::Given(code, place) => match nets.codes.get(code as usize) {
            Some(code) => origin_gate(code, place, origins),
            None => None,
        },
        _ => None,
    }
}

/// For each net its gate, where it has one: of nets that carry another's value that one.
pub(crate) fn gates_of(
    alloc: Global,
    nets: &Nets,
    origins: &[Option<u32>],
) -> Result<Vec<Option<u32>>, Memory>
    ensures { IfOk result (λ gates. GatesStand nets.now origins.now gates.items) }
{
    let mut gates = Vec::with_capacity(alloc, nets.drivers.len())?;
    for net in 0..nets.drivers.len() {
        gates.push(net_gate(nets, origins, net))?;
    }
    Ok(gates)
}

/// The gate of a net by the table.
pub(crate) fn gate_at(gates: &[Option<u32>], net: usize) -> Option<u32>
    ensures { IfSome result (λ gate. slice_get gates.now net ≡ Some (Some gate)) }
{
    match gates.get(net) {
        Some(gate) => *gate,
        None => None,
    }
}

/// 0 where a net is 0, else 1.
fn byte_of(values: &[Bits], net: usize) -> u8
    ensures { (result ≡ 1 → ⊥) → IsZero values.now net }
{
    match values.get(net) {
        Some(value) if value.value() == 0 => 0,
        _ => 1,
    }
}

/// Notes of each net whether it is 0.
pub(crate) fn note_zeros(nonzero: &mut [u8], values: &[Bits])
    ensures long { length nonzero.new ≡ length nonzero.old }
    ensures stand { (f : ℕ) → IsKnownZero nonzero.new f → IsZero values.now f }
{
    for net in 0..nonzero.len() {
        nonzero[net] = byte_of(values, net);
    }
}

/// Notes whether a net is 0, which has got a value.
pub(crate) fn note_zero(nonzero: &mut [u8], net: usize, value: Bits)
    ensures here { IsKnownZero nonzero.new net → value.value ≡ 0 }
    ensures others { (f : ℕ) → f ≢ net → IsKnownZero nonzero.new f → IsKnownZero nonzero.old f }
{
    if net < nonzero.len() {
        nonzero[net] = u8::from(value.value() != 0);
    }
}

/// Whether a net is known to be 0.
fn is_zero(nonzero: &[u8], net: usize) -> bool
    ensures { result ≡ true → IsKnownZero nonzero.now net }
{
    match nonzero.get(net) {
        Some(byte) => *byte != 1,
        None => false,
    }
}

/// Whether a gate is another net than the one that changed, and known to be 0.
fn is_shut_gate(nonzero: &[u8], changed: usize, gate: usize) -> bool
    ensures { result ≡ true → (gate ≢ changed) × IsKnownZero nonzero.now gate }
{
    gate != changed && is_zero(nonzero, gate)
}

/// Whether a net has a gate, which is another net than the one that changed, and known to be 0.
fn is_shut(gates: &[Option<u32>], nonzero: &[u8], changed: usize, net: usize) -> bool
    ensures { result ≡ true → IsShut gates.now nonzero.now changed net }
{
    match gate_at(gates, net) {
        Some(gate) => is_shut_gate(nonzero, changed, gate as usize),
        None => false,
    }
}

/// Marks a net, where its rank is not below `from`, but where its gate is known to be 0.
fn mark_open(
    gates: &[Option<u32>],
    nonzero: &[u8],
    changed: usize,
    ranks: &[u32],
    from: usize,
    stale: &mut [u8],
    net: usize,
)
    ensures tells { Tells ranks.now stale.old stale.new
        (λ f. from ≤ rank_at ranks.now f → f ≡ net → IsShut gates.now nonzero.now changed f) }
    ensures below { SameBelow from stale.old stale.new }
{
    if is_shut(gates, nonzero, changed, net) {
        return;
    }
    mark(ranks, from, stale, net);
}

/// Marks the nets of a row whose ranks are not below `from`, but those whose gate is known to be 0.
pub(crate) fn mark_open_row(
    gates: &[Option<u32>],
    nonzero: &[u8],
    changed: usize,
    ranks: &[u32],
    from: usize,
    stale: &mut [u8],
    row: &[u32],
)
    ensures tells { Tells ranks.now stale.old stale.new
        (λ f. from ≤ rank_at ranks.now f → In row.now f → IsShut gates.now nonzero.now changed f) }
    ensures below { SameBelow from stale.old stale.new }
{
    for net in row {
        mark_open(gates, nonzero, changed, ranks, from, stale, *net as usize);
    }
}
