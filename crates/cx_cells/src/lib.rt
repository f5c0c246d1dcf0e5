//! Any primitive, by its name and numbers, and the words of memories.
#![tactic(auto)]

mod kinds;
mod memories;
mod numbers;
mod primitive;
mod words;

pub use memories::read_words;
pub use primitive::{PrimFault, PrimState, Primitive};
