//! The limits of a design.
#![tactic(auto)]

mod checking;
mod counting;
mod found;
mod inners;
mod lasts;
mod needed;
mod order;
mod rows;
mod sizes;
mod statements;
mod table;

pub use checking::limits;
pub use sizes::counted_design_size;
