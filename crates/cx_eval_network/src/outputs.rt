//! Outputs of primitives.

ghost use Rattle.std.specs.Prelude.{◌≡◌, ◌+◌, ◌^◌, ◌<◌, ◌≤◌, ℕ, IfNone, IfSome, None, Some, get_or, length, nat_lt};
ghost use Rattle.cx_prim.specs.CellStates.{IsState};
ghost use Rattle.cx_prim.specs.Rows.{HasSide, is_output_side};
ghost use Rattle.cx_prim.specs.Table.{row_of};
ghost use Rattle.cx_meaning.specs.declared.ports.PortRef.TheVariants.{Cell};
ghost use Rattle.cx_meaning.specs.declared.sights.Seen as views;
ghost use Rattle.cx_meaning.specs.Instances.{OfRow, cell_at, cells_of};
ghost use Rattle.cx_meaning.specs.Rows.{side_of};
ghost use Rattle.cx_meaning.specs.Sights as sights;
ghost use Rattle.cx_state.specs.Tables.{row_at};
ghost use Rattle.cx_eval_network.specs.Askings.{IsAsking, IsCellPort, IsFound, LookedOwn, OwnSeen, asked_of, decided_by};
ghost use Rattle.cx_eval_network.specs.Evaluated.{FillsWith, InputsAgree, InputsFit, IsGathered, IsNoValue, IsOutput};
ghost use Rattle.cx_eval_network.specs.Networks.{seen_at};
ghost use Rattle.cx_eval_network.specs.Nodes.{part_at};
ghost use Rattle.cx_eval_network.specs.declared.network.Found.TheVariants.{Worth};
ghost use Rattle.cx_eval_network.specs.Plans.{Inputs, decides, side_decides};

use crate::asking::Asking;
use crate::marked::{OwnMarks, found_at};
use crate::places::cells_of;
use crate::{Found, NodePort};
use cx_bits::Bits;
use cx_cells::{PrimState, Primitive};
use cx_design::{PortRef, Seen};
use cx_design_parts::output_laws::outputs_read_first;
use cx_design_parts::{At, stands_at};
use cx_laws::width_laws::found_has_width;
use cx_prim::Cycle;
use cx_state::alike_laws::rows_stand;
use cx_state::width_laws::states_hold_widths;

/// Room for the ports of any primitive: the longest row is that of a sequential memory of four dimensions, with nine.
pub const ROOM: usize = 9;

/// What an output of a primitive is seen as that reads so many inputs, the first; or the number of one of these that is not known.
pub fn output_found(asking: &Asking<'_>, own: &OwnMarks<'_>, found: NodePort, reads: usize) -> Found
    requires can { IsAsking asking.now }
    requires found { IsFound (asked_of asking.now) found }
    requires seen { OwnSeen (asked_of asking.now) found own.now }
    requires reads { decided_by (asked_of asking.now) found ≡ Inputs reads }
    ensures found { LookedOwn (asked_of asking.now) found own.now result }
{
    match found.port {
        PortRef::Cell(cell, port) if reads == 0 => {
            Found::Worth(state_seen(asking, found.instance, found.component, cell, port))
        }
        PortRef::Cell(cell, port) => cell_output(asking, own, found, cell, port, reads),
        PortRef::Input(_) | PortRef::Output(_) | PortRef::Done(_) | PortRef::Literal(_, _) => {
            unreachable!()
        }
    }
}

/// What an output of a cell's primitive is seen as that reads no input: by its state, with no room for inputs.
pub fn state_seen(
    asking: &Asking<'_>,
    instance: usize,
    component: u32,
    cell: u32,
    port: u32,
) -> Seen
    requires can { IsAsking asking.now }
    requires found { IsCellPort (asked_of asking.now) instance cell port }
    requires component { component ≡ (row_at (asked_of asking.now).rows instance).component }
    requires reads { decides (part_at (asked_of asking.now).design (asked_of asking.now).rows instance)
        (Cell cell port) ≡ Inputs 0 }
    ensures value { result ≡ seen_at (asked_of asking.now) instance (Cell cell port) }
{
    match stands_at(asking.design, component as usize, cell) {
        At::Primitive(primitive) => { primitive_state(asking, instance, cell, port, primitive) }
        At::Nothing | At::Part(_) => unreachable!(),
    }
}

/// The same, by its primitive.
fn primitive_state(
    asking: &Asking<'_>,
    instance: usize,
    cell: u32,
    port: u32,
    primitive: &Primitive,
) -> Seen
    requires can { IsAsking asking.now }
    requires found { IsCellPort (asked_of asking.now) instance cell port }
    requires row { cell_at
        (cells_of (part_at (asked_of asking.now).design (asked_of asking.now).rows instance)) cell ≡
        OfRow (row_of primitive.now) }
    requires reads { side_decides
        (part_at (asked_of asking.now).design (asked_of asking.now).rows instance) (Cell cell port)
        (row_of primitive.now) (side_of (row_of primitive.now) port) ≡ Inputs 0 }
    ensures value { result ≡ seen_at (asked_of asking.now) instance (Cell cell port) }
{
    rows_stand();
    outputs_read_first();
    match cell_state(cells_of(asking, instance), cell) {
        Some(state) => held_output(asking, primitive, state, port as usize),
        None => unreachable!(),
    }
}

/// The same, by what its primitive holds.
fn held_output(asking: &Asking<'_>, primitive: &Primitive, state: &PrimState, port: usize) -> Seen
    requires can { IsAsking asking.now }
    requires state { IsState (row_of primitive.now).shape state.now }
    requires output { HasSide (row_of primitive.now) port is_output_side }
    ensures value { (look : ℕ → views.Seen) →
        result ≡ sights.output_seen (λ given. (row_of primitive.now).output state.now given port)
        (sights.gather look (λ q. nat_lt q 0) 0 (row_of primitive.now).ports) }
{
    let inputs = &asking.nodes.nothing()[..primitive.port_count()];
    seen_of(primitive.output(state, inputs, port))
}

/// The same of a port of a cell.
pub fn cell_output(
    asking: &Asking<'_>,
    own: &OwnMarks<'_>,
    found: NodePort,
    cell: u32,
    port: u32,
    reads: usize,
) -> Found
    requires can { IsAsking asking.now }
    requires found { IsFound (asked_of asking.now) found }
    requires seen { OwnSeen (asked_of asking.now) found own.now }
    requires port { found.port ≡ Cell cell port }
    requires reads { decided_by (asked_of asking.now) found ≡ Inputs reads }
    ensures found { LookedOwn (asked_of asking.now) found own.now result }
{
    match stands_at(asking.design, found.component as usize, cell) {
        At::Primitive(primitive) => {
            primitive_output(asking, own, found, cell, port, primitive, reads)
        }
        At::Nothing | At::Part(_) => unreachable!(),
    }
}

/// The same of a primitive, by what it holds.
fn primitive_output(
    asking: &Asking<'_>,
    own: &OwnMarks<'_>,
    found: NodePort,
    cell: u32,
    port: u32,
    primitive: &Primitive,
    reads: usize,
) -> Found
    requires can { IsAsking asking.now }
    requires found { IsFound (asked_of asking.now) found }
    requires seen { OwnSeen (asked_of asking.now) found own.now }
    requires port { found.port ≡ Cell cell port }
    requires row { cell_at
        (cells_of (part_at (asked_of asking.now).design (asked_of asking.now).rows found.instance)) cell ≡
        OfRow (row_of primitive.now) }
    requires reads { side_decides
        (part_at (asked_of asking.now).design (asked_of asking.now).rows found.instance) found.port
        (row_of primitive.now) (side_of (row_of primitive.now) port) ≡ Inputs reads }
    ensures found { LookedOwn (asked_of asking.now) found own.now result }
{
    rows_stand();
    found_has_width();
    states_hold_widths();
    outputs_read_first();
    let cells = cells_of(asking, found.instance);
    match cell_state(cells, cell) {
        Some(state) => {
            let first = found.number - port as usize;
            output_by(own, first, primitive, state, port as usize, reads)
        }
        None => unreachable!(),
    }
}

/// What a primitive cell holds.
pub fn cell_state(cells: &[Option<PrimState>], cell: u32) -> Option<&PrimState>
    ensures none { IfNone result (get_or cells.now cell None ≡ None) }
    ensures some { IfSome result (λ state. get_or cells.now cell None ≡ Some state.now) }
{
    match cells.get(cell as usize) {
        Some(Some(state)) => Some(state),
        Some(None) | None => None,
    }
}

/// What an output is seen as, by the number of the first port of its primitive.
fn output_by(
    own: &OwnMarks<'_>,
    first: usize,
    primitive: &Primitive,
    state: &PrimState,
    port: usize,
    reads: usize,
) -> Found
    requires state { IsState (row_of primitive.now).shape state.now }
    requires output { HasSide (row_of primitive.now) port is_output_side }
    requires reads { reads ≤ length (row_of primitive.now).ports }
    requires fits { first + length (row_of primitive.now).ports < 2 ^ 64 }
    requires widths { InputsFit own.now first reads (row_of primitive.now).ports }
    ensures value { (look : ℕ → views.Seen) → InputsAgree own.now first reads look
        → IsOutput own.now first reads (sights.output_seen
        (λ given. (row_of primitive.now).output state.now given port)
        (sights.gather look (λ q. nat_lt q reads) 0 (row_of primitive.now).ports)) result }
{
    let mut room = [None; ROOM];
    let count = primitive.port_count();
    let inputs = &mut room[..count];
    match gather_known(own, first, reads, inputs) {
        Some(found) => found,
        None => Found::Worth(seen_of(primitive.output(state, inputs, port))),
    }
}

/// Puts the values of the first so many inputs into their slots, where nothing stands; or tells the first that is no value, or the
/// number of the first that is not known.
fn gather_known(
    own: &OwnMarks<'_>,
    first: usize,
    reads: usize,
    inputs: &mut [Option<Bits>],
) -> Option<Found>
    requires bare { (n : ℕ) → get_or inputs.old n None ≡ None }
    requires reads { reads ≤ length inputs.old }
    requires fits { first + length inputs.old < 2 ^ 64 }
    ensures value { (look : ℕ → views.Seen) → InputsAgree own.now first reads look →
        IsGathered own.now first reads look inputs.new result }
    ensures sized { length inputs.new ≡ length inputs.old }
{
    for port in 0..reads {
        if let Some(found) = fill(&mut inputs[port], found_at(own, first + port)) {
            return Some(found);
        }
    }
    None
}

/// Puts what is found at an input into its slot, where it is a value; or answers what is found.
fn fill(slot: &mut Option<Bits>, found: Found) -> Option<Found>
    ensures given { IfNone result (FillsWith slot.new found) }
    ensures lacks { IfSome result (IsNoValue found) }
{
    match found {
        Found::Worth(seen) => fill_seen(slot, seen),
        Found::Waits(number) => Some(Found::Waits(number)),
    }
}

/// The same of what an input is seen as.
fn fill_seen(slot: &mut Option<Bits>, seen: Seen) -> Option<Found>
    ensures given { IfNone result (FillsWith slot.new (Worth seen)) }
    ensures lacks { IfSome result (IsNoValue (Worth seen)) }
{
    match seen {
        Seen::Value(bits) => {
            *slot = Some(bits);
            None
        }
        Seen::Conflict => Some(Found::Worth(Seen::Conflict)),
        Seen::Undefined => Some(Found::Worth(Seen::Undefined)),
    }
}

/// What an output gives, as it is seen.
pub fn seen_of(output: Option<Bits>) -> Seen
    ensures value { result ≡ sights.of_option output }
{
    match output {
        Some(bits) => Seen::Value(bits),
        None => Seen::Undefined,
    }
}
