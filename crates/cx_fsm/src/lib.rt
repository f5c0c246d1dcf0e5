//! From lowered designs to nets: control as registers and wires.
#![tactic(auto)]

mod assigns;
mod building;
mod components;
mod control;
mod copies;
mod drafts;
mod exprs;
mod guards;
mod islands;
mod numbers;
mod ordering;
mod plans;
mod registers;
mod stands;
mod trees;
mod widths;

pub use building::build;
