//! Ports that are demanded.

ghost use Rattle.std.specs.Prelude.{◌≡◌, ◌+◌, ◌<◌};
ghost use Rattle.cx_design.specs.PlainDesigns.{plain_design};
ghost use Rattle.cx_eval_network.specs.Nodes.{ArePortsOf};
ghost use Rattle.cx_eval_network.specs.Askings.{IsAsking};
ghost use Rattle.cx_eval.specs.Evaluated.{IsPort};
ghost use Rattle.cx_eval.specs.Looked.{CanDemand, count_in, seen_from, seen_look, value_in};
ghost use Rattle.cx_eval.specs.Shown.{ShowsFrom};

use crate::seeing::source_seen;
use crate::sources::Source;
use cx_design::{PortRef, Seen};
use cx_eval_network::{Asking, InstancePorts, Marks, literal_seen};

/// What a node is seen as. It takes no memory.
pub fn demand_node(asking: &Asking<'_>, marks: &mut Marks, node: usize) -> Seen
    requires can { IsAsking asking.now }
    requires ready { CanDemand asking.now marks.old }
    requires node { node < count_in asking.now }
    ensures value { result ≡ value_in asking.now node }
    ensures ready { CanDemand asking.now marks.new }
{
    marks.demand(asking, node)
}

/// What a port of the asked instance is seen as: a node is demanded, and a literal is as it is. It takes no memory.
pub fn demand_port(
    asking: &Asking<'_>,
    ports: InstancePorts<'_>,
    marks: &mut Marks,
    port: PortRef,
) -> Seen
    requires can { IsAsking asking.now }
    requires own { ArePortsOf
        (plain_design asking.now.design.now) asking.now.table.now.rows.items asking.now.instance ports }
    requires ready { CanDemand asking.now marks.old }
    requires port { IsPort (plain_design asking.now.design.now) asking.now.instance port }
    ensures value { result ≡ seen_look asking.now port }
    ensures ready { CanDemand asking.now marks.new }
{
    match ports.node(port) {
        Some(node) => demand_node(asking, marks, node),
        None => literal_seen(port),
    }
}

/// What some of the first ports of a cell are seen as, by their sources.
#[derive(Clone, Copy)]
pub struct PortSources<'a> {
    /// The component of the asked instance.
    pub component: u32,
    /// What the operators of the active group are seen as.
    pub slots: &'a [Seen],
    pub ports: &'a [Source],
}

/// What a port of a cell is seen as, whose ports stand from a node on: by its source, or else by its node. It takes no memory.
pub fn port_seen(
    asking: &Asking<'_>,
    marks: &mut Marks,
    first: usize,
    sources: PortSources<'_>,
    port: usize,
) -> Seen
    requires can { IsAsking asking.now }
    requires ready { CanDemand asking.now marks.old }
    requires sources { ShowsFrom asking.now first port sources }
    requires node { first + port < count_in asking.now }
    ensures value { result ≡ seen_from asking.now first port }
    ensures ready { CanDemand asking.now marks.new }
{
    match sources.ports.get(port) {
        Some(source) => source_seen(asking, sources.component, sources.slots, source),
        None => demand_node(asking, marks, first + port),
    }
}
