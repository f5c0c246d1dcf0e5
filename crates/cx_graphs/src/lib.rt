//! Graphs whose nodes are numbers: what is reached, orders along the edges, circles, and which of some lists reach a node.
#![tactic(auto)]

mod adding;
mod edges;
mod grounding;
pub mod laws;
mod owners;
mod reaching;
mod searching;
mod tally;
mod turning;
mod walking;

pub use adding::{add_edge, bare};
pub use edges::{add_link, no_edges};
pub use grounding::grounded;
pub use owners::Owners;
pub use reaching::reached;
pub use searching::Reach;
pub use tally::Tally;
pub use turning::turned;
pub use walking::{Walk, has_circle, order};
