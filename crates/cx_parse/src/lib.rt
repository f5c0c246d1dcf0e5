//! The parser: from tokens to the tree of a design, its smaller parts first.
#![tactic(auto)]

mod annotations;
mod assignments;
mod cells;
mod components;
mod files;
mod groups;
mod guards;
mod operands;
mod ports;
mod readers;
mod statements;
mod stops;

pub use files::{ParseFault, parse, place_left, read_tree};
pub use stops::Stop;
