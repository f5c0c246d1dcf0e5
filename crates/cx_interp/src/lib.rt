//! The interpreter of an accepted design.
#![tactic(auto)]

mod answers;
mod captures;
mod control;
mod counts;
mod groups;
mod interp;
mod islands;

pub use answers::Answer;
pub use counts::Counts;
pub use interp::{Ran, run};
