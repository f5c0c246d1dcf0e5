//! The run from reset.

ghost use Rattle.std.specs.Prelude.{◌≡◌, ◌<◌, true, MatchOption, length, not, slice_get, slice_set};
ghost use Rattle.cx_vnets.specs.Carriers.{AreAlike};
ghost use Rattle.cx_vnets.specs.Readers.{IsCurrent, ReadersStand};
ghost use Rattle.cx_vnets.specs.Search.{IsFirstWithout};
ghost use Rattle.cx_vnets.specs.Stale.{Tells};
ghost use Rattle.cx_vnets.specs.Machines.{KeepsWidths};
ghost use Rattle.cx_vnets.specs.Runs.{AreValues, IsReady, WithInputs, IsLooked, bit, FlatFrom, FlatRun, outcome_of};

use crate::carriers::carry_all;
use crate::gates::note_zeros;
use crate::machines::{Bench, Machine};
use crate::run_edges::{edge, reset_edge};
use crate::stale::{mark_all, put};
use crate::sweep::sweep;
use crate::{Stored, settle};
use cx_bits::Bits;

/// The answer of a run.
#[derive(Clone, Copy, Debug, PartialEq, Eq)]
pub enum RunAnswer {
    /// `done` is 1 in this cycle, for the first time.
    Done(u64),
    /// This net has no value, and each of a lower number has one.
    Loop(usize),
    /// `done` is 0 in all cycles that may be looked at.
    More,
}

/// One bit.
fn bit_of(one: bool) -> Bits
    ensures { result ≡ bit one }
{
    match Bits::new(1, u128::from(one)) {
        Some(bits) => bits,
        None => unreachable!(),
    }
}

/// Gives the inputs of these numbers their bits, and marks those that had others.
fn put_bits(
    registers: &mut [Bits],
    ranks: &[u32],
    stale: &mut [u8],
    reset_net: usize,
    go_net: usize,
    reset: bool,
)
    requires resets { reset_net < length registers.old }
    requires goes { go_net < length registers.old }
    ensures value { registers.new ≡ slice_set (slice_set registers.old reset_net (bit reset)) go_net (bit (not reset)) }
    ensures tells { Tells ranks.now stale.old stale.new (λ f. slice_get registers.new f ≡ slice_get registers.old f) }
{
    put(registers, ranks, stale, reset_net, bit_of(reset));
    put(registers, ranks, stale, go_net, bit_of(!reset));
}

/// Gives the inputs their bits.
fn put_inputs(machine: &Machine, bench: &mut Bench, stored: &mut Stored, reset: bool)
    requires resets { machine.now.reset < length stored.old.nets.items }
    requires goes { machine.now.go < length stored.old.nets.items }
    ensures inputs { WithInputs machine.now reset stored.old stored.new }
    ensures tells { Tells machine.now.readers.ranks.items bench.old.stale.items bench.new.stale.items
        (λ f. slice_get stored.new.nets.items f ≡ slice_get stored.old.nets.items f) }
    ensures writes { bench.new.writes.items ≡ bench.old.writes.items }
    ensures marks { bench.new.marks.items ≡ bench.old.marks.items }
    ensures values { bench.new.values.items ≡ bench.old.values.items }
    ensures nonzero { bench.new.nonzero.items ≡ bench.old.nonzero.items }
    ensures stack { bench.new.stack.items ≡ bench.old.stack.items }
{
    put_bits(
        &mut stored.nets,
        &machine.readers.ranks,
        &mut bench.stale,
        machine.reset as usize,
        machine.go as usize,
        reset,
    );
}

/// Sets the inputs.
fn set_inputs(machine: &Machine, bench: &mut Bench, stored: &mut Stored, reset: bool)
    requires ready { IsReady machine.now stored.old bench.old }
    requires current { IsCurrent machine.now stored.old bench.old }
    ensures inputs { WithInputs machine.now reset stored.old stored.new }
    ensures ready { IsReady machine.now stored.new bench.new }
    ensures current { IsCurrent machine.now stored.new bench.new }
{
    put_inputs(machine, bench, stored, reset);
}

/// Gives nets that carry another's value this one, whatever it is.
fn carry_values(machine: &Machine, bench: &mut Bench, stored: &Stored)
    requires ready { IsReady machine.now stored.now bench.old }
    requires readers { ReadersStand machine.now.nets machine.now.order.items machine.now.readers }
    ensures ready { IsReady machine.now stored.now bench.new }
    ensures alike { machine.now.readers.ranked ≡ true
        → AreAlike machine.now.readers.carriers.origins.items bench.new.values.items }
    ensures stale { bench.new.stale.items ≡ bench.old.stale.items }
{
    if machine.readers.ranked {
        carry_all(&machine.readers.carriers, &mut bench.values);
    }
}

/// Marks all nets, whatever they have for values, and notes which of these are 0.
fn mark_nets(machine: &Machine, bench: &mut Bench, stored: &Stored)
    requires ready { IsReady machine.now stored.now bench.old }
    requires readers { ReadersStand machine.now.nets machine.now.order.items machine.now.readers }
    requires stale { length bench.old.stale.items ≡ length machine.now.nets.drivers.items }
    ensures ready { IsReady machine.now stored.now bench.new }
    ensures current { IsCurrent machine.now stored.now bench.new }
{
    carry_values(machine, bench, stored);
    mark_all(&mut bench.stale);
    note_zeros(&mut bench.nonzero, &bench.values);
}

/// Finds the values of all nets, or the first net that has none.
fn values(machine: &Machine, bench: &mut Bench, stored: &Stored) -> Option<usize>
    requires ready { IsReady machine.now stored.now bench.old }
    requires current { IsCurrent machine.now stored.now bench.old }
    ensures value { MatchOption result (AreValues machine.now stored.now bench.new.values.items)
        (IsFirstWithout machine.now.nets stored.now) }
    ensures ready { IsReady machine.now stored.now bench.new }
    ensures current { IsCurrent machine.now stored.now bench.new }
{
    if machine.readers.ranked {
        sweep(
            &machine.nets,
            stored,
            &machine.order,
            &machine.readers,
            &mut bench.stale,
            &mut bench.values,
            &mut bench.nonzero,
        );
        return None;
    }
    settle(
        &machine.nets,
        stored,
        &machine.order,
        &mut bench.marks,
        &mut bench.values,
        &mut bench.stack,
    )
}

/// Looks at a cycle. The answer, where the run ends in it.
fn look(machine: &Machine, bench: &mut Bench, stored: &Stored, cycle: u64) -> Option<RunAnswer>
    requires ready { IsReady machine.now stored.now bench.old }
    requires current { IsCurrent machine.now stored.now bench.old }
    ensures value { IsLooked machine.now stored.now cycle bench.new.values.items result }
    ensures ready { IsReady machine.now stored.now bench.new }
    ensures current { IsCurrent machine.now stored.now bench.new }
{
    if let Some(net) = values(machine, bench, stored) {
        return Some(RunAnswer::Loop(net));
    }
    if bench.values[machine.done as usize].value() == 1 {
        return Some(RunAnswer::Done(cycle));
    }
    None
}

/// Looks at the last cycle.
fn look_last(machine: &Machine, bench: &mut Bench, stored: &Stored, cycle: u64) -> RunAnswer
    requires ready { IsReady machine.now stored.now bench.old }
    requires current { IsCurrent machine.now stored.now bench.old }
    ensures { FlatFrom machine.now stored.now cycle 0 (outcome_of result stored.now) }
{
    match look(machine, bench, stored, cycle) {
        Some(answer) => answer,
        None => RunAnswer::More,
    }
}

/// The cycles after the edge with reset.
fn run_on(machine: &Machine, bench: &mut Bench, stored: &mut Stored, cycles: u64) -> RunAnswer
    requires ready { IsReady machine.now stored.old bench.old }
    requires current { IsCurrent machine.now stored.old bench.old }
    ensures value { FlatFrom machine.now stored.old 0 cycles (outcome_of result stored.new) }
    ensures widths { KeepsWidths stored.old stored.new }
{
    for cycle in 0..cycles {
        if let Some(answer) = look(machine, bench, stored, cycle) {
            return answer;
        }
        edge(machine, bench, stored);
    }
    look_last(machine, bench, stored, cycles)
}

/// Runs from reset, and looks at the cycles 0 to `cycles` at most. After the answer `Done` the arrays are those of that
/// cycle.
pub fn run(machine: &Machine, bench: &mut Bench, stored: &mut Stored, cycles: u64) -> RunAnswer
    requires ready { IsReady machine.now stored.old bench.old }
    requires readers { ReadersStand machine.now.nets machine.now.order.items machine.now.readers }
    requires stale { length bench.old.stale.items ≡ length machine.now.nets.drivers.items }
    ensures value { FlatRun machine.now stored.old cycles (outcome_of result stored.new) }
    ensures widths { KeepsWidths stored.old stored.new }
{
    mark_nets(machine, bench, stored);
    set_inputs(machine, bench, stored, true);
    if let Some(net) = values(machine, bench, stored) {
        return RunAnswer::Loop(net);
    }
    reset_edge(machine, bench, stored);
    set_inputs(machine, bench, stored, false);
    run_on(machine, bench, stored, cycles)
}
