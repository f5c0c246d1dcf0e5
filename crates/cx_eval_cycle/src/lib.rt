//! The parts of one cycle of an instance: what is known of its cells before any run, what stops a cell, and the steps of all cells at
//! once, each with what was found to stand at its ports.
#![tactic(auto)]

pub mod laws;
mod looking;
mod passes;
mod ranges;
mod rooms;
mod sides;
mod stepping;

pub use looking::{CellStop, stop_at};
pub use passes::{CellFault, step_listed};
pub use ranges::{Addresses, out_of_range};
pub use rooms::{CellRoom, rooms_for};
pub use stepping::{SteppingCell, SteppingCells, stepping_at};
