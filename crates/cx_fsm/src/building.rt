//! The net of a lowered design.

ghost use Rattle.std.specs.Prelude.{◌≡◌, IfOk, filter_map, map, slice_get};
ghost use Rattle.cx_meaning.specs.Designs.{PlainDesign};
ghost use Rattle.cx_rules.specs.Accepted.{IsAccepted};
ghost use Rattle.cx_rules.specs.Flat.{IsFlat};
ghost use Rattle.cx_rules.specs.Wellformed.{IsDesign};
ghost use Rattle.cx_net.specs.NetLimits.{IsWritable};
ghost use Rattle.cx_net.specs.NetsAsData.{plain_net};
ghost use Rattle.cx_net.specs.PlainNets.{plain_net_component};
ghost use Rattle.cx_static.specs.Lowering.{lowered_of};
ghost use Rattle.cx_static.specs.PlainLowered.{plain_lowereds};
ghost use Rattle.cx_wiring.specs.Reached as reached;
ghost use Rattle.cx_wiring.specs.Wiring.{net_component, net_of};
ghost use Rattle.cx_wiring.proofs.WritableNets.{CanBeWritten};
ghost use Rattle.cx_fsm.specs.Built.{IsLowered, IsNetFor};

use crate::components::net_component;
use crate::ordering::{ordered, place_in};
use cx_net::{Net, NetComponent};
use cx_static::Lowered;
use cx_text::Memory;
use cx_wiring_runs::laws::design_is_realised;
use std::alloc::Global;

/// The net of a design: of the components that `main` reaches, each behind those of its cells. It has for each group two
/// holes, that it is done and, behind those of all groups, that it goes.
pub fn build(alloc: Global, design: &Lowered) -> Result<Net, Memory>
    requires lowered { IsLowered (plain_lowereds design.now) }
    ensures value { IfOk result (λ net. plain_net net ≡ net_of (plain_lowereds design.now)) }

    // The net of what an accepted design without static components is lowered to does what that design means, from
    // reset and for all words and budgets.
    ensures meaning { (d : PlainDesign) → IsDesign d → IsFlat d → IsAccepted d → plain_lowereds design.now ≡ lowered_of d
        → IfOk result (λ net. IsNetFor d (plain_net net)) }

    // It can be written, where the design is within the size that is compiled.
    ensures writable { (d : PlainDesign) → IsDesign d → IsFlat d → IsAccepted d →
        plain_lowereds design.now ≡ lowered_of d → CanBeWritten d
        → IfOk result (λ net. IsWritable (plain_net net)) }
{
    design_is_realised();
    reached_net(alloc, design)
}

/// The net of the components that `main` reaches.
fn reached_net(alloc: Global, design: &Lowered) -> Result<Net, Memory>
    requires lowered { IsLowered (plain_lowereds design.now) }
    ensures value { IfOk result (λ net. plain_net net ≡ net_of (plain_lowereds design.now)) }
{
    let order = ordered(alloc, design)?;
    let parts = net_components(alloc, design, order.as_slice())?;
    let main = place_in(order.as_slice(), design.main())?;
    Ok(Net::new(parts, main))
}

/// The nets of the components of an order.
fn net_components(
    alloc: Global,
    design: &Lowered,
    order: &[u32],
) -> Result<Vec<NetComponent>, Memory>
    requires { order.now ≡ reached.order (plain_lowereds design.now) }
    ensures value { IfOk result (λ parts. map plain_net_component parts.items ≡
        map (net_component (plain_lowereds design.now))
        (filter_map (slice_get (plain_lowereds design.now).components) order.now)) }
{
    let components = design.components();
    let mut parts = Vec::with_capacity(alloc, order.len())?;
    for number in order {
        if let Some(component) = components.get(*number as usize) {
            parts.push(net_component(alloc, design, order, component)?)?;
        }
    }
    Ok(parts)
}
