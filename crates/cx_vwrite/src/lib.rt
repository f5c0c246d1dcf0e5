//! Writes a Verilog source as its text.
#![tactic(auto)]

mod exprs;
mod lines;
mod modules;
mod numbers;
mod refusals;
mod writing;

pub use refusals::WriteRefusal;
pub use writing::{spell, write};
