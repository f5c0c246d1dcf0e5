//! What is asked of a port that is found.

ghost use Rattle.std.specs.Prelude.{◌≡◌, ◌<◌, Some, length};
ghost use Rattle.cx_design.specs.declared.actives.Active.TheVariants as actives;
ghost use Rattle.cx_state.specs.States.{instance_state, plain_state};
ghost use Rattle.cx_eval_network.specs.Nodes.{found_at};
ghost use Rattle.cx_eval_network.specs.Networks as networks;
ghost use Rattle.cx_eval_network.specs.Asked.{active_in, held_in};
ghost use Rattle.cx_eval_network.specs.Askings.{asked_of};

use crate::NodePort;
use crate::asking::Asking;
use cx_cells::PrimState;
use cx_design::{Active, Seen};

/// What stands at a node, where it is asked: a port of the asked instance or of a later one.
pub fn asked_port(asking: &Asking<'_>, node: usize) -> Option<NodePort>
    ensures value { result ≡ networks.asked_port (asked_of asking.now) (found_at asking.now.nodes.now node) }
{
    match asking.nodes.port(node) {
        Some(found) => if_asked(found, asking.instance),
        None => None,
    }
}

/// What is found, where its instance is no earlier than the asked one.
fn if_asked(found: NodePort, instance: usize) -> Option<NodePort>
    ensures value { (a : networks.Asked) → a.instance ≡ instance → result ≡ networks.asked_port a (Some found) }
{
    if instance <= found.instance {
        Some(found)
    } else {
        None
    }
}

/// What is active in an instance.
pub fn active_of<'b>(asking: &Asking<'b>, instance: usize) -> &'b Active
    requires nothing { asking.now.nothing.now ≡ actives.Nothing }
    ensures value { result.now ≡ active_in asking.now.instance asking.now.active.now instance }
{
    if instance == asking.instance {
        asking.active
    } else {
        asking.nothing
    }
}

/// What the inputs of an instance are held as.
pub fn held_of<'b>(asking: &Asking<'b>, instance: usize) -> &'b [Seen]
    requires within { instance < length (plain_state asking.now.state.now) }
    ensures value { result.now ≡ held_in asking.now.instance (plain_state asking.now.state.now) instance }
{
    if instance == asking.instance {
        asking.state.instances[instance].held.as_slice()
    } else {
        &[]
    }
}

/// What the cells of an instance hold.
pub fn cells_of<'b>(asking: &Asking<'b>, instance: usize) -> &'b [Option<PrimState>]
    requires within { instance < length (plain_state asking.now.state.now) }
    ensures value { result.now ≡ (instance_state (plain_state asking.now.state.now) instance).cells }
{
    asking.state.instances[instance].cells.as_slice()
}
