//! The rules on widths, literals, targets and sources.
#![tactic(auto)]

mod assigns;
mod binds;
mod checking;
mod conditions;
mod telling;
mod unequal;

pub use checking::check;
