//! The rules on shapes of groups, guards and static control.
#![tactic(auto)]

mod assigns;
mod checking;
mod components;
mod groups;
mod invokes;
pub mod laws;
mod measures;
mod owners;
mod statements;
mod telling;

pub use checking::add_breaks;
