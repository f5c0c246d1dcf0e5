//! Profiles: how many cycles each group of a design is active in, and the design that counts them in its own hardware.
#![tactic(auto)]

pub mod counting_laws;
pub mod design_laws;
pub mod flat_laws;
pub mod run_laws;
