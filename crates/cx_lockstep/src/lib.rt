//! Machines in lockstep: control as places over one store, and when a machine does what a statement means.
#![tactic(auto)]
