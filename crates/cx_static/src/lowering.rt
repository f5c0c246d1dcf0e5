//! What is lowered of a component so far.

use crate::islands::Island;
use cx_design::Cell;

/// What control is lowered to beside itself: the cells of the component so far, and its islands so far.
#[derive(Drop)]
pub(crate) struct Lowering {
    pub cells: Vec<Cell>,
    pub islands: Vec<Island>,
}
