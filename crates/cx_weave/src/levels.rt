//! A turn of a leaf, below levels that are passed by: a seq, a while and a repeat are levels around their one part.

ghost use Rattle.std.specs.Prelude.{◌<◌};
ghost use Rattle.cx_turns.specs.Machines.{design_of, rows_of, IsPlan, IsAt, IsInstance};
ghost use Rattle.cx_weave.specs.Ledger.{Turned, amount};
ghost use Rattle.cx_weave.specs.Levels.{BelowStepped, BelowTurned};
ghost use Rattle.cx_weave.specs.Strands.{IsShown, plain_strand, strand_leaves};
ghost use Rattle.cx_weave.specs.Strides.{HasStepped, left_by};
ghost use Rattle.cx_weave.specs.Supplied.{MayTurn};

use crate::spares::Spares;
use crate::stepping::step;
use crate::strands::Strand;
use cx_design::PortFault;
use cx_state::alike_laws::rows_stand;
use cx_turns::machine::Machine;
use cx_turns::plan::Plan;

/// Takes a turn of a leaf of a strand of an instance, by its number, as `step` does. The levels above the innermost are
/// passed by, and looked at again only where that ends.
pub(crate) fn step_leaf<'a>(
    spares: &mut Spares<'a>,
    plan: &'a Plan<'_>,
    machine: &mut Machine<'_>,
    instance: usize,
    strand: &mut Strand<'a>,
    leaf: u32,
) -> Result<bool, PortFault>
    requires plan { IsPlan plan.now }
    requires machine { IsAt plan.now machine.old }
    requires instance { IsInstance (design_of plan.now) instance }
    requires shown { IsShown (design_of plan.now) instance (plain_strand strand.old) }
    requires leaf { leaf < strand_leaves (plain_strand strand.old) }
    requires supplied { MayTurn (design_of plan.now) instance spares.old (plain_strand strand.old)
        (λ x. amount x strand.old) }
    ensures machine { IsAt plan.now machine.new }
    ensures stepped { HasStepped (design_of plan.now) (rows_of machine.old) (rows_of machine.new) instance
        (plain_strand strand.old) leaf (left_by result strand.new) }
    ensures ledger { Turned spares.old spares.new (λ x. amount x strand.old) (left_by result strand.new) }
{
    rows_stand();
    let mut told = Ok(false);
    step_below(spares, plan, machine, instance, strand, leaf, &mut told);
    match told {
        Ok(true) => Ok(true),
        Ok(false) => step(spares, plan, machine, instance, strand, 0),
        Err(fault) => Err(fault),
    }
}

/// That of the innermost level, and what `step` tells of it.
#[cycle(below)]
fn step_below<'a>(
    spares: &mut Spares<'a>,
    plan: &'a Plan<'_>,
    machine: &mut Machine<'_>,
    instance: usize,
    strand: &mut Strand<'a>,
    leaf: u32,
    told: &mut Result<bool, PortFault>,
)
    requires plan { IsPlan plan.now }
    requires machine { IsAt plan.now machine.old }
    requires instance { IsInstance (design_of plan.now) instance }
    requires shown { IsShown (design_of plan.now) instance (plain_strand strand.old) }
    requires leaf { leaf < strand_leaves (plain_strand strand.old) }
    requires supplied { MayTurn (design_of plan.now) instance spares.old (plain_strand strand.old)
        (λ x. amount x strand.old) }
    ensures machine { IsAt plan.now machine.new }
    ensures stepped { BelowStepped (design_of plan.now) (rows_of machine.old) (rows_of machine.new) instance
        (plain_strand strand.old) leaf told.new strand.new }
    ensures ledger { BelowTurned spares.old spares.new (λ x. amount x strand.old) told.new strand.new }
{
    if !has_inner_level(strand) {
        return step_innermost(spares, plan, machine, instance, strand, leaf, told);
    }
    match strand {
        Strand::InSeq { first, .. } => {
            step_below(spares, plan, machine, instance, first, leaf, told)
        }
        Strand::InLoop { run, .. } => {
            step_below(spares, plan, machine, instance, run, leaf, told)
        }
        Strand::InRepeat { run, .. } => {
            step_below(spares, plan, machine, instance, run, leaf, told)
        }
        _ => step_innermost(spares, plan, machine, instance, strand, leaf, told),
    }
}

/// That of a strand without a level in it: where nothing is left of it, an idle turn stands in its place.
fn step_innermost<'a>(
    spares: &mut Spares<'a>,
    plan: &'a Plan<'_>,
    machine: &mut Machine<'_>,
    instance: usize,
    strand: &mut Strand<'a>,
    leaf: u32,
    told: &mut Result<bool, PortFault>,
)
    requires plan { IsPlan plan.now }
    requires machine { IsAt plan.now machine.old }
    requires instance { IsInstance (design_of plan.now) instance }
    requires shown { IsShown (design_of plan.now) instance (plain_strand strand.old) }
    requires leaf { leaf < strand_leaves (plain_strand strand.old) }
    requires supplied { MayTurn (design_of plan.now) instance spares.old (plain_strand strand.old)
        (λ x. amount x strand.old) }
    ensures machine { IsAt plan.now machine.new }
    ensures stepped { BelowStepped (design_of plan.now) (rows_of machine.old) (rows_of machine.new) instance
        (plain_strand strand.old) leaf told.new strand.new }
    ensures ledger { BelowTurned spares.old spares.new (λ x. amount x strand.old) told.new strand.new }
{
    match step(spares, plan, machine, instance, strand, leaf) {
        Ok(true) => *told = Ok(true),
        Ok(false) => {
            *strand = Strand::Idling;
            *told = Ok(false);
        }
        Err(fault) => *told = Err(fault),
    }
}

/// Whether a strand is a level around another one. It decides only how far `step_below` goes down.
fn has_inner_level(strand: &Strand<'_>) -> bool {
    match strand {
        Strand::InSeq { first, .. } => is_level(first),
        Strand::InLoop { run, .. } => is_level(run),
        Strand::InRepeat { run, .. } => is_level(run),
        _ => false,
    }
}

fn is_level(strand: &Strand<'_>) -> bool {
    match strand {
        Strand::InSeq { .. } => true,
        Strand::InLoop { .. } => true,
        Strand::InRepeat { .. } => true,
        _ => false,
    }
}
