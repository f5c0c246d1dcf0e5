//! What leads to what in a component, as a graph: numbers for its ports, and the edges between them.
#![tactic(auto)]

mod assigns;
mod laws;
mod leading;
mod numbering;
mod rows;

pub use assigns::driven;
pub use laws::{
    group_leads_on, leads_have_nodes, nodes_are_distinct, nodes_are_within, ports_have_nodes,
};
pub use leading::{GroupLeads, continuous_leads};
pub use numbering::Nodes;
