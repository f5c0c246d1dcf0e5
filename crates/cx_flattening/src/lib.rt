//! Static components: what they mean, the flat design that runs as they do, and laws of both, with no code that flattens.
#![tactic(auto)]

pub mod laws;
