//! The steps of the cells of an instance.

ghost use Rattle.std.specs.Prelude.{◌≡◌, ℕ, IfSome, length, nat_eq, true};
ghost use Rattle.cx_prim.specs.CellStates.{IsState};
ghost use Rattle.cx_prim.specs.Table.{row_of};
ghost use Rattle.cx_eval_cycle.specs.Passes.{AreStepped, IsAscending, cell_held, listed_in};
ghost use Rattle.cx_eval_cycle.specs.Rooms.{HaveRooms};
ghost use Rattle.cx_eval_cycle.specs.Steps.{CanStep, CanStepAt, HoldFitting, after_room, stepped_with};

use crate::looking::CellStop;
use crate::rooms::CellRoom;
use crate::stepping::{SteppingCell, stepping_at};
use cx_bits::Bits;
use cx_cells::{PrimState, Primitive};

/// A cell at which a cycle stops, by its number, and its port.
#[derive(Clone, Copy, Debug, PartialEq, Eq)]
pub struct CellFault {
    pub cell: u32,
    pub stop: CellStop,
}

/// What a primitive holds makes a step with what stands at its ports.
fn step_held(primitive: &Primitive, inputs: &[Option<Bits>], held: &mut Option<PrimState>)
    requires can { CanStep (row_of primitive.now) inputs.now held.old }
    ensures value { held.new ≡ stepped_with (row_of primitive.now) inputs.now held.old }
    ensures fits { IfSome held.new (IsState (row_of primitive.now).shape) }
{
    if let Some(state) = held {
        primitive.edge(state, inputs);
    }
}

/// A cell makes its step; a number that names none that can step changes nothing.
fn step_at(
    cells: &[Option<SteppingCell<'_>>],
    rooms: &[CellRoom],
    held: &mut [Option<PrimState>],
    cell: usize,
)
    requires rooms { HaveRooms cells.now rooms.now }
    requires long { length held.old ≡ length cells.now }
    requires can { CanStepAt cells.now rooms.now cell (cell_held held.old cell) }
    ensures value { AreStepped (nat_eq cell) (after_room cells.now rooms.now) held.old held.new }
    ensures fits { HoldFitting cells.now held.old → HoldFitting cells.now held.new }
    ensures long { length held.new ≡ length held.old }
{
    if let Some(stepping) = stepping_at(cells, cell) {
        step_held(stepping.primitive, &rooms[cell].inputs, &mut held[cell]);
    }
}

/// The listed cells make their steps at once, each by what it held and with what stands at its ports. It takes no memory.
pub fn step_listed(
    cells: &[Option<SteppingCell<'_>>],
    rooms: &[CellRoom],
    held: &mut [Option<PrimState>],
    listed: &[u32],
)
    requires rooms { HaveRooms cells.now rooms.now }
    requires long { length held.old ≡ length cells.now }
    requires fits { HoldFitting cells.now held.old }
    requires ascending { IsAscending listed.now }
    requires can { (c : ℕ) → listed_in listed.now c ≡ true → CanStepAt cells.now rooms.now c (cell_held held.old c) }
    ensures value { AreStepped (listed_in listed.now) (after_room cells.now rooms.now) held.old held.new }
    ensures fits { HoldFitting cells.now held.new }
    ensures long { length held.new ≡ length held.old }
{
    for number in 0..listed.len() {
        step_at(cells, rooms, held, listed[number] as usize);
    }
}
