//! Sharing: which combinational cells are never used together, and the design and the tree in which they are one.
#![tactic(auto)]

pub mod accepted_laws;
pub mod cell_laws;
mod rows;
pub mod whole_laws;

pub use rows::SharedRow;
