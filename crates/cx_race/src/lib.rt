//! Checks the rule on races, the sixth stage of the checks of a design: no arm of a `par` or a `static par` drives
//! what another arm reads, and no two arms enable one group.
#![tactic(auto)]

mod arms;
mod cells;
mod checking;
mod forms;
mod invokes;
mod laws;
mod linking;
mod parts;
mod races;
mod telling;

pub use cells::{add_assigns, tested};
pub use checking::check;
pub use forms::{enabled, groups};
pub use laws::{reads_all_by_links, reads_by_links};
pub use linking::links;
pub use parts::{Footprints, footprints_of};
