//! Room for what is found at the ports of cells.

ghost use Rattle.std.specs.Prelude.{◌≡◌, IfOk, length};
ghost use Rattle.cx_eval_cycle.specs.Rooms.{HasRoom, HaveRooms, ports_of};

use crate::stepping::SteppingCell;
use cx_bits::Bits;
use cx_prim::Cycle;
use cx_text::Memory;
use std::alloc::Global;

/// Room for what a look at a cell finds at its ports. What stands at a port that was not looked at is of no account.
#[derive(Drop)]
pub struct CellRoom {
    pub inputs: Vec<Option<Bits>>,
}

/// The number of the ports of a cell that can step; 0 for another cell.
fn port_count(cell: &Option<SteppingCell<'_>>) -> usize
    ensures value { result ≡ length (ports_of cell.now) }
{
    match cell {
        Some(stepping) => stepping.primitive.port_count(),
        None => 0,
    }
}

/// Room for a cell.
fn room_for(alloc: Global, cell: &Option<SteppingCell<'_>>) -> Result<CellRoom, Memory>
    ensures value { IfOk result (HasRoom (ports_of cell.now)) }
{
    Ok(CellRoom {
        inputs: vec![in alloc; None; port_count(cell)]?,
    })
}

/// Room for each cell that can step.
pub fn rooms_for(alloc: Global, cells: &[Option<SteppingCell<'_>>]) -> Result<Vec<CellRoom>, Memory>
    ensures value { IfOk result (λ rooms. HaveRooms cells.now rooms.items) }
{
    let mut rooms = Vec::new(alloc);
    for cell in 0..cells.len() {
        rooms.push(room_for(alloc, &cells[cell])?)?;
    }
    Ok(rooms)
}
