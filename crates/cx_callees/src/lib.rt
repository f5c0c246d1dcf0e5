//! The component cells whose ports a group drives.
#![tactic(auto)]

mod callees;

pub use callees::{Callee, called, callee_of};
