//! One cycle of a net, on the machine of its source.

ghost use Rattle.std.specs.Prelude.{◌≡◌, true, MatchOption};
ghost use Rattle.cx_net.specs.NetEdges.{net_after};
ghost use Rattle.cx_net.specs.NetMeaning.{NetLook, NetState};
ghost use Rattle.cx_net.specs.NetRuns.{IsWholeLook, is_done};
ghost use Rattle.cx_net.specs.NetTree.{net_tree};
ghost use Rattle.cx_net.specs.Nets.{PlainNet};
ghost use Rattle.cx_vnets.specs.Runs as flat;
ghost use Rattle.cx_vnets.specs.Runs.{AreValues, IsReady};
ghost use Rattle.cx_vnets.specs.Search.{IsFirstWithout};
ghost use Rattle.cx_net_runs.specs.Standing.{StandsIn};

use crate::edges::{end_cycle, set_inputs};
use cx_vnets::{Bench, Machine, Stored, codes_have_widths, settle};
use cx_vsim::trees_can_be_built;

/// Finds the values of all nets, or the first net that has none.
fn values(machine: &Machine, bench: &mut Bench, stored: &Stored) -> Option<usize>
    requires ready { IsReady machine.now stored.now bench.old }
    ensures value { MatchOption result (AreValues machine.now stored.now bench.new.values.items)
        (IsFirstWithout machine.now.nets stored.now) }
    ensures ready { IsReady machine.now stored.now bench.new }
{
    settle(
        &machine.nets,
        stored,
        &machine.order,
        &mut bench.marks,
        &mut bench.values,
        &mut bench.stack,
    )
}

/// A cycle, and the edge that ends it. Where a net has no value nothing changes but the inputs.
pub(crate) fn cycle(
    machine: &Machine,
    bench: &mut Bench,
    stored: &mut Stored,
    reset: bool,
    go: bool,
)
    requires ready { IsReady machine.now stored.old bench.old }
    ensures ready { IsReady machine.now stored.new bench.new }
    ensures value { (net : PlainNet) (s : NetState) (look : NetLook) →
        StandsIn net s machine.now stored.old → IsWholeLook (net_tree net) go s look
        → StandsIn net (net_after (net_tree net) reset go s look) machine.now stored.new }
{
    codes_have_widths();
    trees_can_be_built();
    set_inputs(machine, bench, stored, reset, go);
    if let Some(_net) = values(machine, bench, stored) {
        return;
    }
    end_cycle(machine, bench, stored, reset);
}

/// Whether the net `done` has the value 1.
fn shows_done(machine: &Machine, bench: &Bench, stored: &Stored) -> bool
    requires ready { IsReady machine.now stored.now bench.now }
    ensures { result ≡ flat.is_done machine.now bench.now.values.items }
{
    bench.values[machine.done as usize].value() == 1
}

/// Whether `done` is 1 in a cycle without reset and with go.
pub(crate) fn tells_done(machine: &Machine, bench: &mut Bench, stored: &mut Stored) -> bool
    requires ready { IsReady machine.now stored.old bench.old }
    ensures ready { IsReady machine.now stored.new bench.new }
    ensures stands { (net : PlainNet) (s : NetState) → StandsIn net s machine.now stored.old →
        StandsIn net s machine.now stored.new }
    ensures value { (net : PlainNet) (s : NetState) (look : NetLook) →
        StandsIn net s machine.now stored.old → IsWholeLook (net_tree net) true s look
        → result ≡ is_done look }
{
    trees_can_be_built();
    set_inputs(machine, bench, stored, false, true);
    if let Some(_net) = values(machine, bench, stored) {
        return false;
    }
    shows_done(machine, bench, stored)
}
