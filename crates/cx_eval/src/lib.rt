//! Evaluates an accepted design: what a port of an instance is seen as, and what one cycle of an instance does, each
//! found on demand and without taking memory.
#![tactic(auto)]

mod closed_groups;
mod closing;
mod cycling;
mod demanding;
mod evaluator;
mod faults;
mod firsts;
mod groups;
mod known;
pub mod laws;
mod leaves;
mod looking;
mod operators;
mod seeing;
mod sights;
mod sources;
mod stepping;
mod tables;
mod turns;

pub use evaluator::Evaluator;
pub use turns::GroupTurn;
