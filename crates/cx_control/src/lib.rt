//! The control of each instance of a design as a machine over one store, and that it does what the control means.
#![tactic(auto)]

pub mod flow_laws;
pub mod laws;
