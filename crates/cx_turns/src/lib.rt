//! What a run of a design stands on, whichever its order: the plan of the design, the machine that changes, and the turns of its parts.
#![tactic(auto)]

mod begun;
mod calling;
pub mod calls;
pub mod children;
pub mod driven;
mod driving;
pub mod machine;
pub mod plan;
mod planning;
pub mod rest;
pub mod rooms;
pub mod sights;
mod tables;
pub mod turns;

pub use begun::Begun;
pub use tables::{GroupRow, GroupTable, group_tables};
