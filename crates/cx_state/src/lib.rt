//! The state of a design: the table of its instances, what each cell holds, its external memories, and how messages name its ports.
#![tactic(auto)]

pub mod alike_laws;
mod paths;
mod starts;
mod states;
mod steps;
mod tables;
pub mod width_laws;
mod words;

pub use paths::port_path;
pub use states::{InstanceState, State};
pub use tables::{InstanceRow, InstanceTable, instances};
pub use words::external_words;
