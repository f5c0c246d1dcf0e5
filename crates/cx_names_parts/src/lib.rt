//! Tells the first break of the rules on names in the tree of a design's text, cells that lead back to their own
//! component included.
#![tactic(auto)]

mod cells;
mod circles;
mod components;
mod edges;
mod first;

pub use cells::is_external;
pub use circles::{CellCircles, is_recursive};
pub use first::first_name_break;
