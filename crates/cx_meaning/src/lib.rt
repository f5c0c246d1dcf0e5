//! What a design means: its parts as plain data, what ports are seen as, cycles, and runs of control.
#![tactic(auto)]

mod kinds;
pub mod laws;
mod ports;
mod sights;

pub use kinds::{GroupKind, PortDecl};
pub use ports::{Comparison, PlacedPort, PortRef};
pub use sights::{FaultKind, Seen};
