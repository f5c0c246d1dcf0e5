//! What is asked of a design, as a network.

use crate::looking::look_at_node;
use crate::{Found, MarkTable, Network, Nodes};
use cx_design::{Active, Design};
use cx_state::{InstanceTable, State};

/// An instance of a design that is asked under an active set, in a state. The ports of all instances are the nodes of a network.
#[derive(Clone, Copy)]
pub struct Asking<'a> {
    pub design: &'a Design,
    pub table: &'a InstanceTable,
    pub nodes: &'a Nodes,
    pub state: &'a State,
    pub active: &'a Active,
    /// The empty active set, for the instances below.
    pub nothing: &'a Active,
    pub instance: usize,
}

impl Network for Asking<'_> {
    ghost use Rattle.cx_eval_network.specs.Networks as networks;
    ghost use Rattle.cx_eval_network.specs.Askings.{IsAsking, asked_of};

    ghost leads = { λ a. networks.leads_at (asked_of a) a.nodes.now };

    ghost value = { λ a. networks.value_at (asked_of a) a.nodes.now };

    ghost sound = { IsAsking };

    fn look(&self, marks: &MarkTable, node: usize) -> Found {
        look_at_node(self, marks, node)
    }
}
