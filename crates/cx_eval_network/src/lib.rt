//! The ports of all instances of a design as the nodes of one network, under what is active in an instance that is
//! asked: what each node leads to, its value by one step from what is known of these, and the demand that finds
//! each value once.
#![tactic(auto)]

mod apart;
mod asking;
mod called;
mod children;
pub mod demand_laws;
mod demands;
mod evaluating;
mod filling;
mod finding;
mod instance_ports;
mod listed;
mod listing;
mod literals;
mod looking;
mod marked;
mod marks;
mod network;
mod network_laws;
mod node_laws;
mod numbering;
mod outputs;
mod parts;
mod places;
mod planned;
mod planning;
mod plans;
mod soles;

pub use asking::Asking;
pub use demands::Marks;
pub use instance_ports::InstancePorts;
pub use listed::{FoundBy, GroupList, GroupPorts, InstanceList, ListedPort, PartLists};
pub use literals::literal_seen;
pub use marks::{MarkTable, NodeMark};
pub use network::{Found, Network};
pub use network_laws::{
    accepted_designs_are_networks, known_nodes_decide, lead_ports_lead, networks_are_grounded,
    networks_stay_within,
};
pub use node_laws::{later_nodes_are_greater, nodes_are_apart, nodes_are_within, ports_have_nodes};
pub use numbering::{InstanceNodes, NodePort, Nodes};
pub use outputs::{ROOM, cell_state, seen_of, state_seen};
pub use parts::PartNodes;
pub use places::cells_of;
pub use planned::{
    DrivenPlan, PartPlans, PlannedAssign, PlannedGuard, PlannedPort, PortPlan, port_plan,
};
pub use plans::PlannedPart;
pub use soles::found_by;
