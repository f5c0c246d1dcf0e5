//! Further laws of the meaning of a design and of its rules, on which interpreters and compilers stand.
#![tactic(auto)]

pub mod examples;
pub mod laws;
pub mod width_laws;
