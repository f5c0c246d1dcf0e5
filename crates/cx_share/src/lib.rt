//! Sharing: one cell of combinational cells that are never used together.
#![tactic(auto)]

mod candidates;
mod components;
mod giving;
mod kinds;
mod marks;
mod meeting;
mod naming;
mod pairs;
mod rows;
mod sharing;
mod using;

pub use cx_sharing::SharedRow;
pub use sharing::{Sharing, share};
