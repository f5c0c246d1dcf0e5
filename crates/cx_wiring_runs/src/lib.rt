//! The net of an accepted design realises it.
#![tactic(auto)]

pub mod laws;
