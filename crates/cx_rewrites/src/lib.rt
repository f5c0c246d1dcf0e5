//! Designs that run alike: laws by which a rewriting of a design is shown to keep its runs.
#![tactic(auto)]

pub mod examples;
pub mod leaf_laws;
pub mod place_laws;
mod rewriting;
pub mod run_laws;
pub mod sight_laws;
pub mod state_laws;

pub use rewriting::Rewriting;
