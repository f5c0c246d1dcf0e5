//! The grammar of a design's text, and the terminals that it is written in.
#![tactic(auto)]

mod laws;
mod terminals;

pub use laws::one_reading;
pub use terminals::{Terminal, from_kind, from_word};
