//! The flat design of a design with static components, made.
#![tactic(auto)]

mod callers;
mod cells;
mod components;
mod control;
mod enabled;
mod flattening;
mod groups;
mod invokes;
mod kids;
mod lasts;
mod levels;
mod places;
mod placing;
mod ports;
mod running;
mod stands;

pub use flattening::flatten;
pub use places::{InstancePlaces, flat_places};
pub use placing::FlatPlace;
pub use running::flattened;
