//! The instances of a Verilog source in their order, and the tables of its numbered machine.
#![tactic(auto)]

mod bases;
mod changes;
mod coding;
mod finding;
mod laws;
mod parts;
mod paths;
mod ties;
mod tree;
mod zeros;

pub use bases::places;
pub use changes::{push_items, push_sets};
pub use laws::{driven_nets_stand, drivers_are_right, tables_fit, zeros_stand};
pub use parts::{ModulePart, PartTable, all_parts, code_part};
pub use paths::loop_path;
pub use ties::{give_nets, tie_ports};
pub use tree::{Row, rows};
pub use zeros::stored;
