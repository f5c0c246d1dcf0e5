//! The rules on combinational cycles.
#![tactic(auto)]

mod checking;
mod circles;
mod owning;
mod pruning;
mod telling;

pub use checking::check;
