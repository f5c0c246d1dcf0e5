//! The design that counts the cycles of its own groups: a counter for each, and in main a memory of the counts.
#![tactic(auto)]

mod components;
mod counted;
mod counters;
mod entries;
mod free_names;
mod gained;
mod growing;
mod instrumenting;
mod invokes;
mod outputs;
mod renumbering;
mod stores;

pub use entries::ProfiledGroup;
pub use instrumenting::{Profiled, instrument};
