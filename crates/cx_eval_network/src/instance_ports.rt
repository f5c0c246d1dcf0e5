//! The ports of one instance.

ghost use Rattle.std.specs.Prelude.{◌≡◌, ℕ, List};
ghost use Rattle.cx_meaning.specs.Designs.{PlainDesign};
ghost use Rattle.cx_state.specs.declared.tables.InstanceRow.{InstanceRow};
ghost use Rattle.cx_eval_network.specs.Nodes.{ArePortsOf, node_at};

use cx_design::PortRef;
use cx_design_leads::Nodes as PartNumbers;

/// The ports of one instance, by their numbers among those of all instances.
#[derive(Clone, Copy)]
pub struct InstancePorts<'a> {
    pub(crate) numbers: &'a PartNumbers,
    /// The first node of the instance.
    pub(crate) first: usize,
}

impl<'a> InstancePorts<'a> {
    /// The node of a port. A literal has none, nor has a port that is not there.
    pub fn node(&self, port: PortRef) -> Option<usize>
        ensures value { (d : PlainDesign) (rows : List InstanceRow) (n : ℕ) →
            ArePortsOf d rows n self.now → result ≡ node_at d rows n port }
    {
        let number = self.numbers.node(port)?;
        self.first.checked_add(number as usize)
    }
}
