//! Makes groups of known length static, and runs of their enables static seqs, in the tree of an accepted design.
#![tactic(auto)]

mod by_name;
mod components;
mod control;
mod dones;
mod groups;
pub mod laws;
mod lengths;
mod pieces;
mod primitives;
mod promoting;
mod sites;
mod starts;

pub use cx_promotion::PromotedRow;
pub use promoting::{Promotion, promote};
