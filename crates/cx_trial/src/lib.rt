//! The design of a trial, made from a seed.
#![tactic(auto)]

mod control;
mod groups;
mod parts;
mod trees;

pub use trees::trial_tree;
