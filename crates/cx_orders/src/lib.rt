//! Woven runs as definitions: the arms of a `par` advance in a chosen order. Laws of them: the order does not matter to what a
//! run leaves.
#![tactic(auto)]

pub mod laws;
