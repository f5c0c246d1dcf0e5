//! Which nets read a net or an array, and which compare a net with a value.

ghost use Rattle.std.specs.Prelude.{◌≡◌, ◌+◌, ◌<◌, true, IfOk, OnOk, length};
ghost use Rattle.cx_graphs.specs.Graphs.{edges_of};
ghost use Rattle.cx_vnets.specs.Carriers.{AreListedBy, CarriersStand, origin_at};
ghost use Rattle.cx_vnets.specs.Readers.{Grows, IsFound, IsListed, IsRanked, IsRowed, IsWatch, ListsCode};
ghost use Rattle.cx_vnets.specs.Readers.{ReadersStand, WatchesGrow};

use crate::carriers::{Carriers, are_carriers, carriers_of, origin_of};
use crate::codes::{Code, NetPosition};
use crate::gates::gates_of;
use crate::nets::{Driver, Nets};
use crate::ranks::is_ranked;
use crate::spans::{Spans, spans_of};
use crate::watches::{Comparison, Watches, compared, note, row_of};
use cx_graphs::{add_edge, bare};
use cx_text::Memory;
use std::alloc::Global;

/// Who reads what, by nets' drivers.
#[derive(Drop)]
pub struct Readers {
    /// For each net its place in the order in which nets are tried.
    pub ranks: Vec<u32>,
    /// For each net, and for each array, the nets that read it, or a net that carries its value. A net that reads it
    /// only to compare it with a literal is not among them, nor is one that only carries its value.
    pub of_nets: Vec<Vec<u32>>,
    pub of_arrays: Vec<Vec<u32>>,
    pub watches: Watches,
    /// Nets that carry the values of others.
    pub carriers: Carriers,
    /// For each net its gate, where it has one: another net, which carries no other's value. Where this is 0 the net
    /// is 0.
    pub gates: Vec<Option<u32>>,
    /// Nets that are read behind many gates.
    pub spans: Spans,
    /// Each net comes behind those that it reads, and each is in the order once.
    pub ranked: bool,
}

/// A number as a `u32`. One that is no `u32` counts what is too much for any memory.
pub(crate) fn narrow(number: usize) -> Result<u32, Memory>
    ensures value { IfOk result (λ narrow. narrow ≡ number) }
{
    match u32::try_from(number) {
        Ok(narrow) => Ok(narrow),
        Err(_) => Err(Memory),
    }
}

/// Lists a net in the row of what it reads, where there is one.
pub(crate) fn list(rows: &mut Vec<Vec<u32>>, from: usize, net: u32) -> Result<(), Memory>
    ensures grows { OnOk result (Grows (edges_of rows.old.items) (edges_of rows.new.items)) }
    ensures listed { OnOk result (IsListed (edges_of rows.new.items) net from) }
{
    if from < rows.len() {
        let from = narrow(from)?;
        add_edge(rows, from, net)?;
    }
    Ok(())
}

/// For each net those to which a table gives it.
pub(crate) fn listed_by(alloc: Global, table: &[Option<u32>]) -> Result<Vec<Vec<u32>>, Memory>
    ensures { IfOk result (λ rows. AreListedBy table.now (edges_of rows.items)) }
{
    let mut rows = bare(alloc, table.len())?;
    for net in 0..table.len() {
        if let Some(other) = table[net] {
            list(&mut rows, other as usize, narrow(net)?)?;
        }
    }
    Ok(rows)
}

/// Lists a net in the row of a net and the value with which it is compared, of so many rows, and where it tells sides in the
/// row of the net's number.
fn list_rows(
    rows: &mut Vec<Vec<u32>>,
    count: usize,
    from: usize,
    found: Comparison,
    net: u32,
) -> Result<(), Memory>
    requires some { 0 < count }
    ensures grows { OnOk result (Grows (edges_of rows.old.items) (edges_of rows.new.items)) }
    ensures listed { OnOk result (IsRowed (edges_of rows.new.items) count net from found.literal found.sided) }
{
    let row = row_of(from, found.literal, count);
    list(rows, row, net)?;
    if found.sided {
        return list(rows, from, net);
    }
    Ok(())
}

/// Lists a net among those that compare a net with a value.
fn list_watch(
    watches: &mut Watches,
    origins: &[Option<u32>],
    count: usize,
    place: NetPosition,
    found: Comparison,
    net: u32,
) -> Result<(), Memory>
    requires some { 0 < count }
    ensures grows { OnOk result (WatchesGrow watches.old watches.new) }
    ensures listed { OnOk result (IsWatch watches.new count net (origin_at origins.now (place.nets + found.net))
        found.literal found.sided) }
{
    let from = origin_of(origins, place.nets as usize + found.net as usize);
    list_rows(&mut watches.rows, count, from, found, net)?;
    note(&mut watches.compared, from);
    Ok(())
}

/// Lists a net in the rows of what a code of an instance reads, and of what it compares.
fn list_code(
    of_nets: &mut Vec<Vec<u32>>,
    of_arrays: &mut Vec<Vec<u32>>,
    watches: &mut Watches,
    origins: &[Option<u32>],
    count: usize,
    code: &Code,
    place: NetPosition,
    net: u32,
) -> Result<(), Memory>
    requires some { 0 < count }
    ensures { OnOk result (ListsCode origins.now (edges_of of_nets.old.items)
        (edges_of of_arrays.old.items) watches.old (edges_of of_nets.new.items)
        (edges_of of_arrays.new.items) watches.new count place net code.now) }
{
    match code {
        Code::Net(read) | Code::Slice(read, _, _) => {
            let from = origin_of(origins, place.nets as usize + *read as usize);
            list(of_nets, from, net)
        }
        Code::Literal(_) => Ok(()),
        Code::Item(array, index) => {
            list(of_arrays, place.arrays as usize + *array as usize, net)?;
            list_code(
                of_nets, of_arrays, watches, origins, count, index, place, net,
            )
        }
        Code::Not(inner) => list_code(
            of_nets, of_arrays, watches, origins, count, inner, place, net,
        ),
        Code::Binary(op, left, right) => match compared(*op, left, right) {
            Some(found) => list_watch(watches, origins, count, place, found, net),
            None => {
                list_code(
                    of_nets, of_arrays, watches, origins, count, left, place, net,
                )?;
                list_code(
                    of_nets, of_arrays, watches, origins, count, right, place, net,
                )?;
                Ok(())
            }
        },
        Code::Cat(left, right) => {
            list_code(
                of_nets, of_arrays, watches, origins, count, left, place, net,
            )?;
            list_code(
                of_nets, of_arrays, watches, origins, count, right, place, net,
            )?;
            Ok(())
        }
        Code::Choose(test, one, other) => {
            list_code(
                of_nets, of_arrays, watches, origins, count, test, place, net,
            )?;
            list_code(of_nets, of_arrays, watches, origins, count, one, place, net)?;
            list_code(
                of_nets, of_arrays, watches, origins, count, other, place, net,
            )?;
            Ok(())
        }
    }
}

/// Lists a net in the rows of what it reads, and of what it compares.
fn list_net(
    nets: &Nets,
    of_nets: &mut Vec<Vec<u32>>,
    of_arrays: &mut Vec<Vec<u32>>,
    watches: &mut Watches,
    origins: &[Option<u32>],
    net: usize,
) -> Result<(), Memory>
    requires within { net < length nets.now.drivers.items }
    ensures nets { OnOk result (Grows (edges_of of_nets.old.items) (edges_of of_nets.new.items)) }
    ensures arrays { OnOk result (Grows (edges_of of_arrays.old.items) (edges_of of_arrays.new.items)) }
    ensures watches { OnOk result (WatchesGrow watches.old watches.new) }
    ensures found { OnOk result (IsFound nets.now origins.now (edges_of of_nets.new.items)
        (edges_of of_arrays.new.items) watches.new (length nets.now.drivers.items) net) }
{
    let number = narrow(net)?;
    let count = nets.drivers.len();
    match nets.drivers[net] {
        Driver::Held => Ok(()),
        Driver::Tied(other) => list(of_nets, origin_of(origins, other as usize), number),
        Driver::Given(code, place) => match nets.codes.get(code as usize) {
            None => Ok(()),
            Some(code) => list_code(
                of_nets, of_arrays, watches, origins, count, code, place, number,
            ),
        },
    }
}

/// The same of a net that carries no other's value; nothing of any other.
fn list_own(
    nets: &Nets,
    of_nets: &mut Vec<Vec<u32>>,
    of_arrays: &mut Vec<Vec<u32>>,
    watches: &mut Watches,
    origins: &[Option<u32>],
    net: usize,
) -> Result<(), Memory>
    requires within { net < length nets.now.drivers.items }
    ensures nets { OnOk result (Grows (edges_of of_nets.old.items) (edges_of of_nets.new.items)) }
    ensures arrays { OnOk result (Grows (edges_of of_arrays.old.items) (edges_of of_arrays.new.items)) }
    ensures watches { OnOk result (WatchesGrow watches.old watches.new) }
    ensures found { OnOk result (origin_at origins.now net ≡ net
        → IsFound nets.now origins.now (edges_of of_nets.new.items)
        (edges_of of_arrays.new.items) watches.new (length nets.now.drivers.items) net) }
{
    if origin_of(origins, net) != net {
        return Ok(());
    }
    list_net(nets, of_nets, of_arrays, watches, origins, net)
}

/// Places in an order, by net.
fn ranks(alloc: Global, order: &[u32], count: usize) -> Result<Vec<u32>, Memory> {
    let mut ranks = vec![in alloc; 0u32; count]?;
    for (rank, net) in order.iter().enumerate() {
        let net = *net as usize;
        if net < ranks.len() {
            ranks[net] = narrow(rank)?;
        }
    }
    Ok(ranks)
}

/// Of so many nets none is compared.
fn unwatched(alloc: Global, count: usize) -> Result<Watches, Memory>
    ensures rows { IfOk result (λ w. length (edges_of w.rows.items) ≡ count) }
    ensures notes { IfOk result (λ w. length w.compared.items ≡ count) }
{
    let rows = bare(alloc, count)?;
    let compared = vec![in alloc; false; count]?;
    Ok(Watches { rows, compared })
}

/// Whether each net comes behind what it reads, and the tables of carriers are right.
fn is_swept(nets: &Nets, order: &[u32], ranks: &[u32], carriers: &Carriers) -> bool
    requires listed { AreListedBy carriers.now.origins.items (edges_of carriers.now.rows.items) }
    ensures ranked { result ≡ true → IsRanked nets.now order.now ranks.now }
    ensures carriers { result ≡ true → CarriersStand nets.now ranks.now carriers.now }
{
    if !is_ranked(nets, order, ranks) {
        return false;
    }
    are_carriers(nets, ranks, carriers)
}

/// The tables of nets that are tried in an order, with rows for so many arrays.
pub fn readers_of(
    alloc: Global,
    nets: &Nets,
    order: &[u32],
    arrays: usize,
) -> Result<Readers, Memory>
    ensures { IfOk result (ReadersStand nets.now order.now) }
{
    let ranks = ranks(alloc, order, nets.drivers.len())?;
    let carriers = carriers_of(alloc, nets, order)?;
    let mut of_nets = bare(alloc, nets.drivers.len())?;
    let mut of_arrays = bare(alloc, arrays)?;
    let mut watches = unwatched(alloc, nets.drivers.len())?;
    for net in 0..nets.drivers.len() {
        list_own(
            nets,
            &mut of_nets,
            &mut of_arrays,
            &mut watches,
            &carriers.origins,
            net,
        )?;
    }
    let gates = gates_of(alloc, nets, &carriers.origins)?;
    let spans = spans_of(alloc, &gates, &of_nets)?;
    let ranked = is_swept(nets, order, &ranks, &carriers);
    Ok(Readers {
        ranks,
        of_nets,
        of_arrays,
        watches,
        carriers,
        gates,
        spans,
        ranked,
    })
}
