//! Woven runs: the arms of a `par` advance in a chosen order.
#![tactic(auto)]

mod calls;
mod islands;
pub mod laws;
mod leaf_turns;
mod leaves;
mod levels;
mod making;
mod needs;
mod opening;
mod parts;
mod resting;
mod spares;
mod static_control;
mod stepping;
mod strands;
mod turns;
mod weaving;

pub use weaving::{Wove, weave};
