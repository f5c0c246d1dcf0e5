//! Static control: islands become lists over nested timers.
#![tactic(auto)]

mod components;
mod control;
mod copies;
mod gathering;
mod islands;
mod lists;
mod lowered;
mod lowering;
mod numbers;

pub use components::lower;
pub use copies::{copied_assigns, copied_cells, copied_groups, copied_name, copied_ports};
pub use islands::{Island, IslandTimer, Occurrence, Sample, SamplePoint};
pub use lowered::{Lowered, LoweredComponent};
