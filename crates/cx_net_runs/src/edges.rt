//! The inputs and the edge of a cycle, with reset or without.

ghost use Rattle.std.specs.Prelude.{◌≡◌, [], true, false};
ghost use Rattle.cx_vnets.specs.Machines.{IsAfter};
ghost use Rattle.cx_vnets.specs.Runs.{IsReady, bit};
ghost use Rattle.cx_net_runs.specs.Inputs.{HasInputs};

use cx_bits::Bits;
use cx_vnets::{Bench, Machine, Stored, edge, reset_edge};

/// One bit.
fn bit_of(one: bool) -> Bits
    ensures { result ≡ bit one }
{
    match Bits::new(1, u128::from(one)) {
        Some(bits) => bits,
        None => unreachable!(),
    }
}

/// Sets the inputs of a cycle.
pub(crate) fn set_inputs(
    machine: &Machine,
    bench: &Bench,
    stored: &mut Stored,
    reset: bool,
    go: bool,
)
    requires ready { IsReady machine.now stored.old bench.now }
    ensures inputs { HasInputs machine.now reset go stored.old stored.new }
    ensures ready { IsReady machine.now stored.new bench.now }
{
    stored.nets[machine.reset as usize] = bit_of(reset);
    stored.nets[machine.go as usize] = bit_of(go);
}

/// The edge of a cycle whose nets all have their values.
pub(crate) fn end_cycle(machine: &Machine, bench: &mut Bench, stored: &mut Stored, reset: bool)
    requires ready { IsReady machine.now stored.old bench.old }
    ensures with_reset { reset ≡ true → IsAfter machine.now.nets.codes.items machine.now.resets.items []
        bench.old.values.items stored.old stored.new }
    ensures without { reset ≡ false → IsAfter machine.now.nets.codes.items machine.now.sets.items
        machine.now.stores.items bench.old.values.items stored.old stored.new }
    ensures ready { IsReady machine.now stored.new bench.new }
{
    if reset {
        reset_edge(machine, bench, stored);
    } else {
        edge(machine, bench, stored);
    }
}
