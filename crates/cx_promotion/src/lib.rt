//! Promotion as definitions: which groups have a known length, the tree in which they are static groups, how its design stands to the
//! old one, and the law of its runs.
#![tactic(auto)]

pub mod laws;
mod rows;
pub mod tree_laws;
pub mod whole_laws;

pub use rows::PromotedRow;
