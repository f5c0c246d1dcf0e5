//! Checks the rule on calls: a group that drives ports of a component cell has the one form in which a call is
//! written, and no other input of the called cell depends on an output or the done of that cell. No assignment drives a
//! port of a cell of a static component; an invoke of one binds each of its inputs, to what rests on state and does not
//! lead back from the cell.
#![tactic(auto)]

mod assigns;
mod captures;
mod checking;
mod dones;
mod forms;
mod groups;
mod guards;
mod inputs;
mod invokes;
mod statements;
mod tallies;

pub use captures::register_of;
pub use checking::add_breaks;
pub use forms::{CallForm, form};
pub use guards::{is_right_enable, is_right_go};
pub use inputs::Paths;
pub use tallies::{PortTally, tally, times};
