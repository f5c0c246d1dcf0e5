//! Checks the rules that speak of state: the dones of groups, the outputs of signatures and the ports of `static if`
//! rest on what cells hold, and no output leads back to an input of the same cycle.
#![tactic(auto)]

mod assigns;
mod basis;
mod checking;
pub mod rest_laws;
mod resting;
pub mod rule_laws;
mod statements;
mod waiting;

pub use assigns::all_rest;
pub use checking::add_breaks;
pub use resting::Resting;
