//! Finds the first line of a Verilog source that breaks a rule.
#![tactic(auto)]

mod checking;
mod counts;
mod earlier;
mod edges;
mod externals;
mod instances;
mod modules;
mod nets;
mod parts;
mod products;
mod search;

pub use checking::check;
pub use search::Break;
