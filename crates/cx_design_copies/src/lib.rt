//! Copies of parts of a design, as they are or with other ports and groups; which components main is made of; numbers of 32 bits.
#![tactic(auto)]

mod control;
mod moves;
mod numbers;
mod parts;
mod reaching;
mod wires;

pub use control::{copied_statement, moved_statement};
pub use moves::{GroupMoves, PortMoves, SameGroups, moved_placed};
pub use numbers::{number, sum};
pub use parts::{copied_cell, copied_cells, copied_kind, copied_name, copied_ports};
pub use reaching::made_of;
pub use wires::{moved_assigns, moved_group, moved_groups, with_moved_assigns};
