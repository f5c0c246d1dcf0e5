//! The first fault among the cells of the asked instance.

ghost use Rattle.std.specs.Prelude.{◌≡◌, ◌≢◌, ℕ, IfNone, IfSome, None, Some};
ghost use Rattle.cx_eval_network.specs.Askings.{IsAsking, asked_of};
ghost use Rattle.cx_eval_cycle.specs.Passes as passes;
ghost use Rattle.cx_eval_cycle.specs.Passes.{cell_held, first_among, listed_in};
ghost use Rattle.cx_eval_cycle.specs.Rooms.{HaveRooms, inputs_at};
ghost use Rattle.cx_eval_cycle.specs.Stepping.{AreStepping};
ghost use Rattle.cx_eval_cycle.specs.Steps.{AreGathered, IsGatheredAt};
ghost use Rattle.cx_eval.specs.Looked as looked;
ghost use Rattle.cx_eval.specs.Looked.{CanDemand, StandFirst, own_cells, seen_look};
ghost use Rattle.cx_eval.specs.Shown.{AreKnownCells, ShowPorts};

use crate::demanding::PortSources;
use crate::known::KnownCells;
use crate::looking::look_in;
use cx_cells::PrimState;
use cx_eval_cycle::{CellFault, CellRoom, SteppingCell, stepping_at};
use cx_eval_network::{Asking, Marks};

/// What the cells of the asked instance hold.
fn own_held<'b>(asking: &Asking<'b>) -> &'b [Option<PrimState>]
    requires can { IsAsking asking.now }
    ensures value { result.now ≡ looked.own_held asking.now }
{
    asking.state.instances[asking.instance].cells.as_slice()
}

/// What a cell holds, by its number.
fn held_at(held: &[Option<PrimState>], cell: usize) -> Option<&PrimState>
    ensures none { IfNone result (cell_held held.now cell ≡ None) }
    ensures some { IfSome result (λ state. cell_held held.now cell ≡ Some state.now) }
{
    match held.get(cell) {
        Some(Some(state)) => Some(state),
        Some(None) | None => None,
    }
}

/// The fault of a cell. One that cannot step has none, and none has a number that names no cell.
fn fault_of(
    asking: &Asking<'_>,
    firsts: &[usize],
    marks: &mut Marks,
    cells: &[Option<SteppingCell<'_>>],
    rooms: &mut [CellRoom],
    held: &[Option<PrimState>],
    sources: PortSources<'_>,
    cell: usize,
) -> Option<CellFault>
    requires can { IsAsking asking.now }
    requires firsts { StandFirst asking.now firsts.now }
    requires ready { CanDemand asking.now marks.old }
    requires cells { AreStepping (own_cells asking.now) cells.now }
    requires rooms { HaveRooms cells.now rooms.old }
    requires held { held.now ≡ looked.own_held asking.now }
    requires sources { ShowPorts (asked_of asking.now) cell sources }
    ensures value { result ≡
        passes.fault_of (seen_look asking.now) (own_cells asking.now) (looked.own_held asking.now) cell }
    ensures ready { CanDemand asking.now marks.new }
    ensures rooms { HaveRooms cells.now rooms.new }
    ensures gathered { IfNone result
        (IsGatheredAt (seen_look asking.now) cells.now (looked.own_held asking.now) rooms.new cell) }
    ensures others { (c : ℕ) → c ≢ cell → inputs_at rooms.new c ≡ inputs_at rooms.old c }
{
    let Some(stepping) = stepping_at(cells, cell) else {
        return None;
    };
    let Some(state) = held_at(held, cell) else {
        return None;
    };
    let number = cell as u32;
    match look_in(
        asking,
        marks,
        firsts[cell],
        sources,
        stepping,
        state,
        &mut rooms[cell],
    ) {
        Ok(()) => None,
        Err(stop) => Some(CellFault { cell: number, stop }),
    }
}

/// The first fault among listed cells of the asked instance, in the order of the list. Only ports that they look at are
/// demanded. Where there is no fault, the rooms have what stands at the ports of the listed cells. It takes no memory.
pub fn first_fault(
    asking: &Asking<'_>,
    firsts: &[usize],
    marks: &mut Marks,
    known: KnownCells<'_>,
    cells: &[Option<SteppingCell<'_>>],
    rooms: &mut [CellRoom],
    listed: &[u32],
) -> Option<CellFault>
    requires can { IsAsking asking.now }
    requires firsts { StandFirst asking.now firsts.now }
    requires ready { CanDemand asking.now marks.old }
    requires cells { AreStepping (own_cells asking.now) cells.now }
    requires rooms { HaveRooms cells.now rooms.old }
    requires known { AreKnownCells (asked_of asking.now) known }
    ensures value { result ≡ first_among (passes.fault_of (seen_look asking.now) (own_cells asking.now)
        (looked.own_held asking.now)) listed.now }
    ensures ready { CanDemand asking.now marks.new }
    ensures rooms { HaveRooms cells.now rooms.new }
    ensures gathered { IfNone result (AreGathered (listed_in listed.now) (seen_look asking.now) cells.now
        (looked.own_held asking.now) rooms.new) }
{
    let held = own_held(asking);
    for number in 0..listed.len() {
        let cell = listed[number] as usize;
        let sources = known.ports(number, cell);
        if let Some(fault) = fault_of(asking, firsts, marks, cells, rooms, held, sources, cell) {
            return Some(fault);
        }
    }
    None
}
