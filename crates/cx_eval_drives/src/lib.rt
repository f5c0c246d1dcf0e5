//! What one port is seen as, where the ports that it depends on are known.
#![tactic(auto)]

mod driving;
mod look_laws;
mod targets;
mod truths;

pub use driving::Drivers;
pub use look_laws::{active_is_acyclic, own_assigns_drive};
pub use targets::{Drive, add_source, offset_of};
pub use truths::{Truth, and_truth, compared, not_truth, of_bit, or_truth, truth_of};
