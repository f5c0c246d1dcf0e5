//! Nets that only carry the value of another: they get it with it.

ghost use Rattle.std.specs.Prelude.{◌≡◌, ◌≢◌, ◌+◌, ◌<◌, ℕ, List, Some, IfOk, IfSome, true, length};
ghost use Rattle.std.specs.Prelude.{slice_get, unwrap_or};
ghost use Rattle.cx_bits.specs.BitVector.{BitVector};
ghost use Rattle.cx_text.specs.Members.{In};
ghost use Rattle.cx_graphs.specs.Graphs.{edges_of, targets_of};
ghost use Rattle.cx_vnets.specs.Carriers.{AreAlike, AreGiven, AreListedBy, Carries, CarriersStand, CarriesOn};
ghost use Rattle.cx_vnets.specs.Carriers.{HasOrigin, IsRowOf, RowsStand, origin_at};
ghost use Rattle.cx_vnets.specs.Fits.{width_at};
ghost use Rattle.cx_vnets.specs.Search.{SameWidths};
ghost use Rattle.cx_vnets.specs.Stale.{rank_at};
ghost use Rattle.cx_vnets.specs.Watches.{IsNet};
ghost use Rattle.cx_vnets.specs.declared.nets.Nets.{Nets};

use crate::codes::{Code, NetPosition};
use crate::gates::placed;
use crate::nets::{Driver, Nets};
use crate::ranks::is_below;
use crate::readers::listed_by;
use crate::watches::net_of;
use cx_bits::Bits;
use cx_text::Memory;
use std::alloc::Global;

/// Nets that carry the values of others, straight or by way of further such nets.
#[derive(Drop)]
pub struct Carriers {
    /// For each net that carries the value of another that one, its origin, which carries no other's.
    pub origins: Vec<Option<u32>>,
    /// For each net those whose origin it is.
    pub rows: Vec<Vec<u32>>,
}

/// The net that a code of an instance is.
fn placed_net(code: &Code, place: NetPosition) -> Option<u32>
    ensures { IfSome result (λ net. (k : ℕ) × IsNet code.now k × (place.nets + k ≡ net)) }
{
    match net_of(code) {
        Some(net) => placed(place.nets, net),
        None => None,
    }
}

/// The net whose value another is given as it is.
fn source_of(nets: &Nets, net: usize) -> Option<u32>
    requires within { net < length nets.now.drivers.items }
    ensures { IfSome result (λ source. Carries nets.now net source) }
{
    match nets.drivers[net] {
        Driver::Held => None,
        Driver::Tied(other) => Some(other),
        Driver::Given(code, place) => match nets.codes.get(code as usize) {
            Some(code) => placed_net(code, place),
            None => None,
        },
    }
}

/// What stands in a table for a net; the net itself where nothing does.
fn or_own(origin: Option<u32>, net: usize) -> usize
    ensures { result ≡ unwrap_or origin net }
{
    match origin {
        Some(origin) => origin as usize,
        None => net,
    }
}

/// The net whose value a net carries, by the table; itself where it carries no other's.
pub(crate) fn origin_of(origins: &[Option<u32>], net: usize) -> usize
    ensures { result ≡ origin_at origins.now net }
{
    if net >= origins.len() {
        return net;
    }
    or_own(origins[net], net)
}

/// The origin of a net as a number of a net.
pub(crate) fn origin_number(origins: &[Option<u32>], net: u32) -> Option<u32>
    ensures { IfSome result (λ origin. origin_at origins.now net ≡ origin) }
{
    u32::try_from(origin_of(origins, net as usize)).ok()
}

/// Notes the origin of a net that carries the value of another, whose origin is noted.
fn note_origin(origins: &mut Vec<Option<u32>>, nets: &Nets, net: usize)
    ensures { length origins.new.items ≡ length origins.old.items }
{
    if net >= nets.drivers.len() || net >= origins.len() {
        return;
    }
    if let Some(source) = source_of(nets, net) {
        origins[net] = origin_number(origins, source);
    }
}

/// For each net its origin, where nets are tried in an order in which each comes behind what it carries.
fn origins_of(alloc: Global, nets: &Nets, order: &[u32]) -> Result<Vec<Option<u32>>, Memory> {
    let mut origins = vec![in alloc; None; nets.drivers.len()]?;
    for net in order {
        note_origin(&mut origins, nets, *net as usize);
    }
    Ok(origins)
}

/// The carriers among nets that are tried in an order.
pub(crate) fn carriers_of(alloc: Global, nets: &Nets, order: &[u32]) -> Result<Carriers, Memory>
    ensures { IfOk result (λ t. AreListedBy t.origins.items (edges_of t.rows.items)) }
{
    let origins = origins_of(alloc, nets, order)?;
    let rows = listed_by(alloc, &origins)?;
    Ok(Carriers { origins, rows })
}

/// Whether a net has a lower rank than another.
fn is_lower(ranks: &[u32], net: usize, other: usize) -> bool
    ensures { result ≡ true → rank_at ranks.now net < rank_at ranks.now other }
{
    match ranks.get(other) {
        Some(rank) => is_below(ranks, net, *rank),
        None => false,
    }
}

/// Whether a net that carries the value of another has a higher rank, and its origin.
fn has_same(nets: &Nets, ranks: &[u32], origins: &[Option<u32>], net: usize, source: usize) -> bool
    requires carries { Carries nets.now net source }
    ensures { result ≡ true → CarriesOn nets.now ranks.now origins.now net }
{
    if source >= nets.drivers.len() {
        return false;
    }
    if !is_lower(ranks, source, net) {
        return false;
    }
    is_of(origins, net, origin_of(origins, source))
}

/// Whether a net carries the value of one of a lower rank, and has its origin.
fn carries_on(nets: &Nets, ranks: &[u32], origins: &[Option<u32>], net: usize) -> bool
    requires within { net < length nets.now.drivers.items }
    ensures { result ≡ true → CarriesOn nets.now ranks.now origins.now net }
{
    match source_of(nets, net) {
        Some(source) => has_same(nets, ranks, origins, net, source as usize),
        None => false,
    }
}

/// Whether a net is its own origin, or carries the value of another.
fn has_origin(nets: &Nets, ranks: &[u32], origins: &[Option<u32>], net: usize) -> bool
    requires within { net < length nets.now.drivers.items }
    ensures { result ≡ true → HasOrigin nets.now ranks.now origins.now net }
{
    if origin_of(origins, net) == net {
        return true;
    }
    carries_on(nets, ranks, origins, net)
}

/// Whether a net is there, and has another as its origin.
fn is_of(origins: &[Option<u32>], net: usize, origin: usize) -> bool
    ensures { result ≡ true → (net < length origins.now) × (origin_at origins.now net ≡ origin) }
{
    if net >= origins.len() {
        return false;
    }
    origin_of(origins, net) == origin
}

/// Whether a net is the origin of all in a row.
fn is_row_of(origins: &[Option<u32>], row: &[u32], net: usize) -> bool
    ensures { result ≡ true → IsRowOf origins.now row.now net }
{
    for other in row {
        if !is_of(origins, *other as usize, net) {
            return false;
        }
    }
    true
}

/// Whether a net has its origin, and its row those that carry its value.
fn is_right(nets: &Nets, ranks: &[u32], carriers: &Carriers, net: usize) -> bool
    requires within { net < length nets.now.drivers.items }
    requires row { net < length carriers.now.rows.items }
    ensures { result ≡ true → HasOrigin nets.now ranks.now carriers.now.origins.items net
        × IsRowOf carriers.now.origins.items (targets_of (edges_of carriers.now.rows.items) net) net }
{
    if !has_origin(nets, ranks, &carriers.origins, net) {
        return false;
    }
    is_row_of(&carriers.origins, &carriers.rows[net], net)
}

/// Whether there are an origin and a row for each net.
fn are_as_many(nets: &Nets, carriers: &Carriers) -> bool
    ensures { result ≡ true → (length carriers.now.origins.items ≡ length nets.now.drivers.items)
        × (length carriers.now.rows.items ≡ length nets.now.drivers.items) }
{
    carriers.origins.len() == nets.drivers.len() && carriers.rows.len() == nets.drivers.len()
}

/// Whether tables of carriers are right, where nets have these ranks and stand in the rows of their origins.
pub(crate) fn are_carriers(nets: &Nets, ranks: &[u32], carriers: &Carriers) -> bool
    requires listed { AreListedBy carriers.now.origins.items (edges_of carriers.now.rows.items) }
    ensures { result ≡ true → CarriersStand nets.now ranks.now carriers.now }
{
    if !are_as_many(nets, carriers) {
        return false;
    }
    for net in 0..nets.drivers.len() {
        if !is_right(nets, ranks, carriers, net) {
            return false;
        }
    }
    true
}

/// Gives the nets of a row a value.
#[inline(always)]
fn give(row: &[u32], values: &mut [Bits], value: Bits)
    requires within { (f : ℕ) → In row.now f → f < length values.old }
    ensures long { length values.new ≡ length values.old }
    ensures here { (f : ℕ) → In row.now f → slice_get values.new f ≡ Some value }
    ensures kept { (f : ℕ) → slice_get values.old f ≡ Some value → slice_get values.new f ≡ Some value }
    ensures others { (f : ℕ) → (In row.now f → ⊥) → slice_get values.new f ≡ slice_get values.old f }
{
    for net in row {
        values[*net as usize] = value;
    }
}

/// Gives a value to a net and to those that carry its value.
#[inline(always)]
pub(crate) fn carry(carriers: &Carriers, values: &mut [Bits], net: usize, value: Bits)
    requires rows { RowsStand carriers.now.origins.items (edges_of carriers.now.rows.items) }
    requires long { length values.old ≡ length carriers.now.origins.items }
    requires within { net < length values.old }
    requires own { origin_at carriers.now.origins.items net ≡ net }
    ensures { AreGiven carriers.now.origins.items net value values.old values.new }
{
    values[net] = value;
    give(&carriers.rows[net], values, value);
}

/// Gives a net its own value, and with it those that carry it, unless it carries another's.
fn carry_own(carriers: &Carriers, values: &mut [Bits], net: usize)
    requires rows { RowsStand carriers.now.origins.items (edges_of carriers.now.rows.items) }
    requires long { length values.old ≡ length carriers.now.origins.items }
    requires within { net < length values.old }
    ensures own { origin_at carriers.now.origins.items net ≡ net → (v : BitVector) × (slice_get values.old net ≡ Some v)
        × AreGiven carriers.now.origins.items net v values.old values.new }
    ensures carried { origin_at carriers.now.origins.items net ≢ net → values.new ≡ values.old }
{
    if origin_of(&carriers.origins, net) == net {
        let value = values[net];
        carry(carriers, values, net, value);
    }
}

/// Gives all nets that carry another's value this one.
pub(crate) fn carry_all(carriers: &Carriers, values: &mut [Bits])
    requires carriers { (n : Nets) × (ranks : List ℕ) × CarriersStand n ranks carriers.now }
    requires long { length values.old ≡ length carriers.now.origins.items }
    requires wide { (f : ℕ) → width_at values.old f ≡ width_at values.old (origin_at carriers.now.origins.items f) }
    ensures alike { AreAlike carriers.now.origins.items values.new }
    ensures widths { SameWidths values.new values.old }
{
    for net in 0..values.len() {
        carry_own(carriers, values, net);
    }
}
