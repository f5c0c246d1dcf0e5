//! The rules that a design keeps: what it reads and drives, what rests on state, when each is broken, and which break is the first.
#![tactic(auto)]

pub mod break_laws;
pub mod laws;
