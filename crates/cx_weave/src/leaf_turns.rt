//! Turns of leaves that are groups, parts of calls, and tests.

ghost use Rattle.std.specs.Prelude.{◌≡◌, ◌+◌, max};
ghost use Rattle.cx_eval.specs.Evaluated.{CanAct};
ghost use Rattle.cx_meaning.specs.Designs.{If, While};
ghost use Rattle.cx_design.specs.PlainForms.{plain_statement};
ghost use Rattle.cx_turns.specs.Groups.{IsGroupOf};
ghost use Rattle.cx_turns.specs.Machines.{design_of, rows_of, IsPlan, IsAt, IsInstance, FormStands};
ghost use Rattle.cx_turns.specs.Tests.{comb_active};
ghost use Rattle.cx_orders.specs.Leaves.{test_drives};
ghost use Rattle.cx_weave.specs.Ledger.{TakesNothing, Turned};
ghost use Rattle.cx_weave.specs.declared.strands.Strand.TheVariants as strands;
ghost use Rattle.cx_weave.specs.Strands.{ACapture, AChoice, AClosing, AGroup, ATest, CallsCell};
ghost use Rattle.cx_weave.specs.Strides.{HasRested, HasStepped, left_by};
ghost use Rattle.cx_weave.specs.Supplied.{Supplied};
ghost use Rattle.cx_weave.specs.Takes.{box_takes, need};

use crate::opening::open_statement;
use crate::parts::open_loop;
use crate::resting::rest_listed;
use crate::spares::Spares;
use crate::strands::Strand;
use crate::turns::{take_capture, take_group};
use cx_design::{PortFault, Statement};
use cx_meaning::PlacedPort;
use cx_state::alike_laws::rows_stand;
use cx_turns::calls::group_row;
use cx_turns::machine::{Machine, test};
use cx_turns::plan::Plan;
use cx_turns::turns::Turn;

/// A turn of a group that calls nothing, in place: whether it goes on.
pub(crate) fn step_group(
    plan: &Plan<'_>,
    machine: &mut Machine<'_>,
    instance: usize,
    group: u32,
    leaf: u32,
) -> Result<bool, PortFault>
    requires plan { IsPlan plan.now }
    requires machine { IsAt plan.now machine.old }
    requires instance { IsInstance (design_of plan.now) instance }
    requires group { IsGroupOf (design_of plan.now) instance group }
    ensures machine { IsAt plan.now machine.new }
    ensures stepped { HasStepped (design_of plan.now) (rows_of machine.old) (rows_of machine.new) instance
        (AGroup group) leaf (left_by result (strands.InGroup group)) }
{
    rows_stand();
    let _ = leaf;
    let row = group_row(plan, instance, group);
    let cells = row.cells.as_slice();
    match take_group(plan, machine, instance, group, cells) {
        Turn::Ends => {
            rest_listed(plan, machine, instance, cells);
            Ok(false)
        }
        Turn::Goes => Ok(true),
        Turn::Faults(fault) => Err(fault),
    }
}

/// The capture cycle of a call.
pub(crate) fn step_capture<'a>(
    plan: &Plan<'_>,
    machine: &mut Machine<'_>,
    instance: usize,
    group: u32,
    cell: u32,
    leaf: u32,
) -> Result<Option<Strand<'a>>, PortFault>
    requires plan { IsPlan plan.now }
    requires machine { IsAt plan.now machine.old }
    requires instance { IsInstance (design_of plan.now) instance }
    requires group { IsGroupOf (design_of plan.now) instance group }
    requires calls { CallsCell (design_of plan.now) instance group cell }
    ensures machine { IsAt plan.now machine.new }
    ensures stepped { HasStepped (design_of plan.now) (rows_of machine.old) (rows_of machine.new) instance
        (ACapture group cell) leaf result }
    ensures ledger { TakesNothing result }
{
    rows_stand();
    let _ = leaf;
    let row = group_row(plan, instance, group);
    let cells = row.cells.as_slice();
    match take_capture(plan, machine, instance, group, cell, cells) {
        Ok(()) => Ok(Some(Strand::Closing(group))),
        Err(fault) => Err(fault),
    }
}

/// The idle turn that ends a call.
pub(crate) fn step_closing<'a>(
    plan: &Plan<'_>,
    machine: &mut Machine<'_>,
    instance: usize,
    group: u32,
    leaf: u32,
) -> Result<Option<Strand<'a>>, PortFault>
    requires plan { IsPlan plan.now }
    requires machine { IsAt plan.now machine.old }
    requires instance { IsInstance (design_of plan.now) instance }
    requires group { IsGroupOf (design_of plan.now) instance group }
    ensures machine { IsAt plan.now machine.new }
    ensures stepped { HasStepped (design_of plan.now) (rows_of machine.old) (rows_of machine.new) instance
        (AClosing group) leaf result }
    ensures ledger { TakesNothing result }
{
    let _ = leaf;
    let row = group_row(plan, instance, group);
    rest_listed(plan, machine, instance, row.cells.as_slice());
    Ok(None)
}

/// Makes the idle edges of the cells that the comb group of a test drives.
fn rest_comb(plan: &Plan<'_>, machine: &mut Machine<'_>, instance: usize, comb: Option<u32>)
    requires plan { IsPlan plan.now }
    requires machine { IsAt plan.now machine.old }
    requires instance { IsInstance (design_of plan.now) instance }
    requires comb { CanAct (design_of plan.now) instance (comb_active comb) }
    ensures machine { IsAt plan.now machine.new }
    ensures rested { HasRested (design_of plan.now) (rows_of machine.old) (rows_of machine.new) instance
        (λ part. test_drives part comb) }
{
    match comb {
        Some(group) => {
            let row = group_row(plan, instance, group);
            rest_listed(plan, machine, instance, row.cells.as_slice());
        }
        None => {}
    }
}

/// The test of an if: one of its branches is open then.
pub(crate) fn step_choice<'a>(
    spares: &mut Spares<'a>,
    plan: &'a Plan<'_>,
    machine: &mut Machine<'_>,
    instance: usize,
    port: PlacedPort,
    comb: Option<u32>,
    first: &'a Statement,
    second: &'a Statement,
    leaf: u32,
) -> Result<Option<Strand<'a>>, PortFault>
    requires plan { IsPlan plan.now }
    requires machine { IsAt plan.now machine.old }
    requires instance { IsInstance (design_of plan.now) instance }
    requires stands { FormStands (design_of plan.now) instance
        (If port comb (plain_statement first.now) (plain_statement second.now)) }
    requires supplied { Supplied (design_of plan.now) instance spares.old
        (λ k i. max (need k i (plain_statement first.now)) (need k i (plain_statement second.now))) (λ x. 0) }
    ensures machine { IsAt plan.now machine.new }
    ensures stepped { HasStepped (design_of plan.now) (rows_of machine.old) (rows_of machine.new) instance
        (AChoice port comb (plain_statement first.now) (plain_statement second.now)) leaf result }
    ensures ledger { Turned spares.old spares.new (λ x. 0) result }
{
    let _ = leaf;
    match test(plan, machine, instance, port.port, comb) {
        Ok(true) => {
            rest_comb(plan, machine, instance, comb);
            Ok(Some(open_statement(spares, plan, instance, first)))
        }
        Ok(false) => {
            rest_comb(plan, machine, instance, comb);
            Ok(Some(open_statement(spares, plan, instance, second)))
        }
        Err(fault) => Err(fault),
    }
}

/// A test of a while: its body is open then, or it has ended.
pub(crate) fn step_test<'a>(
    spares: &mut Spares<'a>,
    plan: &'a Plan<'_>,
    machine: &mut Machine<'_>,
    instance: usize,
    port: PlacedPort,
    comb: Option<u32>,
    body: &'a Statement,
    leaf: u32,
) -> Result<Option<Strand<'a>>, PortFault>
    requires plan { IsPlan plan.now }
    requires machine { IsAt plan.now machine.old }
    requires instance { IsInstance (design_of plan.now) instance }
    requires stands { FormStands (design_of plan.now) instance (While port comb (plain_statement body.now)) }
    requires supplied { Supplied (design_of plan.now) instance spares.old
        (λ k i. box_takes k + need k i (plain_statement body.now)) (λ x. 0) }
    ensures machine { IsAt plan.now machine.new }
    ensures stepped { HasStepped (design_of plan.now) (rows_of machine.old) (rows_of machine.new) instance
        (ATest port comb (plain_statement body.now)) leaf result }
    ensures ledger { Turned spares.old spares.new (λ x. 0) result }
{
    let _ = leaf;
    match test(plan, machine, instance, port.port, comb) {
        Ok(true) => {
            rest_comb(plan, machine, instance, comb);
            Ok(Some(open_loop(spares, plan, instance, port, comb, body)))
        }
        Ok(false) => {
            rest_comb(plan, machine, instance, comb);
            Ok(None)
        }
        Err(fault) => Err(fault),
    }
}
