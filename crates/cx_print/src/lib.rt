//! Prints a tree as a text that is read as an equal tree apart from places, and lays it out as people like to read.
#![tactic(auto)]

mod components;
mod control;
mod files;
mod guards;
mod headers;
mod laws;
mod laying;
mod operands;
mod pieces;
mod printing;
mod rendering;
mod wiring;

pub use laws::parsed_is_printable;
pub use laying::lay_out;
pub use printing::print;
