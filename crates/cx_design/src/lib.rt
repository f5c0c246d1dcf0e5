//! Designs: their types, what they stand for, and designs that are accepted.
#![tactic(auto)]

mod accepted;
mod actives;
mod cells;
mod components;
mod designs;
mod groups;
mod guards;
mod invokes;
mod refusals;
mod rows;
mod statements;

pub use accepted::Checked;
pub use actives::{Active, ActiveEntry, PortFault};
pub use cells::{Cell, CellKind};
pub use components::Component;
pub use cx_cells::Primitive;
pub use cx_meaning::{Comparison, FaultKind, GroupKind, PlacedPort, PortDecl, PortRef, Seen};
pub use designs::Design;
pub use groups::{Assign, Group};
pub use guards::Guard;
pub use invokes::StaticInvoke;
pub use refusals::Refusal;
pub use statements::{Form, Statement};
