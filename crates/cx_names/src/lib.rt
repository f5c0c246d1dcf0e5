//! Makes the numbered design of a design's text from its tree, where no rule on names is broken, and tells the first
//! break of these rules where one is.
#![tactic(auto)]

mod assigns;
mod cells;
mod components;
mod control;
mod designs;
mod drafts;
mod groups;
mod guards;
mod invokes;
pub mod named_laws;
mod numbers;
mod operands;
pub mod place_laws;
mod ports;
mod resolving;
mod sites;
mod static_invokes;
pub mod target_laws;

pub use designs::{Parts, design_parts};
pub use resolving::resolve;
