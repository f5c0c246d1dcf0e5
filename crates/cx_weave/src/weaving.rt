//! The woven run of a design.

ghost use Rattle.std.specs.Prelude.{◌≡◌, ◌<◌, ◌≤◌, ◌%◌, ℕ, List, IfErr, IfOk, length};
ghost use Rattle.cx_text.specs.Loading.{plain_loaded, FitsRows};
ghost use Rattle.cx_meaning.specs.Instances.{start, tree_of};
ghost use Rattle.cx_rules.specs.Externals.{external_rows};
ghost use Rattle.cx_rules.specs.Flat.{IsFlat};
ghost use Rattle.cx_design.specs.PlainDesigns.{plain_design};
ghost use Rattle.cx_state.specs.States.{words_in, IsUnheld, StandsFor};
ghost use Rattle.cx_turns.specs.Machines.{design_of, rows_of, IsPlan, IsAt};
ghost use Rattle.cx_weave.specs.Results.{EndsIn, LeavesWords, TellsArm, TellsRun, TellsWoven};
ghost use Rattle.cx_weave.specs.Strands.{IsCounted, plain_strand, strand_leaves};
ghost use Rattle.cx_weave.specs.Supplied.{Supplied};
ghost use Rattle.cx_weave.specs.Takes.{control_need};
ghost use Rattle.cx_orders.specs.Woven.{by_list, woven};

use crate::laws::takes_no_more;
use crate::leaves::count_leaves;
use crate::levels::step_leaf;
use crate::making::make_spares;
use crate::opening::open_statement;
use crate::spares::Spares;
use crate::strands::Strand;
use cx_design::{Checked, PortFault};
use cx_orders::laws::{run_ends_too, run_faults_too};
use cx_state::alike_laws::rows_stand;
use cx_state::external_words;
use cx_text::{Loaded, Memory};
use cx_turns::Begun;
use cx_turns::children::control_of;
use cx_turns::machine::Machine;
use cx_turns::plan::Plan;
use std::alloc::Global;

/// How a woven run ends within its choices: after so many, with the sum of the numbers of the leaves that they advanced; with
/// the fault of a leaf and the choices made before it; or not while they last.
#[derive(Clone, Copy, Debug, PartialEq, Eq)]
pub enum Wove {
    End(u64, u128),
    Fault(PortFault, u64),
    More,
}

/// The leaf that the choice of a number names.
fn chosen_leaf(list: &[u32], made: u64, strand: &Strand<'_>) -> u32
    requires some { 0 < length list.now }
    requires counted { IsCounted (plain_strand strand.now) }
    requires leaves { 0 < strand_leaves (plain_strand strand.now) }
    ensures { result ≡ by_list list.now made % strand_leaves (plain_strand strand.now) }
{
    let choice = list[(made % list.len() as u64) as usize];
    let leaf = u64::from(choice) % count_leaves(strand);
    leaf as u32
}

/// Makes choices from the start of main's control.
fn weave_on<'a>(
    spares: &mut Spares<'a>,
    plan: &'a Plan<'_>,
    machine: &mut Machine<'_>,
    list: &[u32],
    steps: u64,
) -> Wove
    requires plan { IsPlan plan.now }
    requires machine { IsAt plan.now machine.old }
    requires unheld { IsUnheld (rows_of machine.old) }
    requires some { 0 < length list.now }
    requires supplied { Supplied (design_of plan.now) 0 spares.old (λ k i. control_need k i) (λ x. 0) }
    ensures machine { IsAt plan.now machine.new }
    ensures woven { (words : List (List ℕ)) →
        StandsFor (tree_of (design_of plan.now)) (rows_of machine.old)
        (start (tree_of (design_of plan.now)) words)
        → EndsIn (design_of plan.now) (rows_of machine.new) result
        (woven (design_of plan.now) words (by_list list.now) steps) }
{
    rows_stand();
    takes_no_more();
    let control = control_of(plan, 0);
    let mut strand = open_statement(spares, plan, 0, control);
    let mut sum = 0u128;
    for made in 0..steps {
        let leaf = chosen_leaf(list, made, &strand);
        match step_leaf(spares, plan, machine, 0, &mut strand, leaf) {
            Ok(true) => {}
            Ok(false) => return Wove::End(made + 1, sum + u128::from(leaf)),
            Err(fault) => return Wove::Fault(fault, made),
        }
        sum += u128::from(leaf);
    }
    Wove::More
}

/// Makes spare parts, and then choices from the start of main's control.
fn weave_plan(
    alloc: Global,
    plan: &Plan<'_>,
    machine: &mut Machine<'_>,
    list: &[u32],
    steps: u64,
) -> Result<Wove, Memory>
    requires plan { IsPlan plan.now }
    requires machine { IsAt plan.now machine.old }
    requires unheld { IsUnheld (rows_of machine.old) }
    requires some { 0 < length list.now }
    ensures machine { IsAt plan.now machine.new }
    ensures woven { (words : List (List ℕ)) →
        StandsFor (tree_of (design_of plan.now)) (rows_of machine.old)
        (start (tree_of (design_of plan.now)) words)
        → IfOk result (λ wove. EndsIn (design_of plan.now) (rows_of machine.new) wove
        (woven (design_of plan.now) words (by_list list.now) steps)) }
{
    let mut spares = make_spares(alloc, plan, &machine.room)?;
    Ok(weave_on(&mut spares, plan, machine, list, steps))
}

/// Runs a design without static components by choices: choice j is the entry of the list at j modulo its length, and
/// names a leaf modulo their number. Where the run ends the memories get their words; else they are as they were.
pub fn weave(
    alloc: Global,
    design: &Checked,
    loaded: &mut Loaded,
    list: &[u32],
    steps: u64,
) -> Result<Wove, Memory>
    requires flat { IsFlat (plain_design design.now) }
    requires fits { FitsRows (external_rows (plain_design design.now)) (plain_loaded loaded.old) }
    requires some { 0 < length list.now }
    ensures woven { IfOk result (λ wove. TellsWoven (plain_design design.now) wove
        (woven (plain_design design.now) (words_in loaded.old.memories.items) (by_list list.now) steps)) }
    ensures run { IfOk result (λ wove. TellsRun (plain_design design.now)
        (words_in loaded.old.memories.items) wove
        (woven (plain_design design.now) (words_in loaded.old.memories.items) (by_list list.now) steps)) }
    ensures arm { IfOk result (λ wove. TellsArm (plain_design design.now)
        (words_in loaded.old.memories.items) (by_list list.now) wove
        (woven (plain_design design.now) (words_in loaded.old.memories.items) (by_list list.now) steps)) }
    ensures words { IfOk result (λ wove. LeavesWords (plain_design design.now) (plain_loaded loaded.old)
        (plain_loaded loaded.new)
        (woven (plain_design design.now) (words_in loaded.old.memories.items) (by_list list.now) steps)) }
    ensures kept { IfErr result (λ _. plain_loaded loaded.new ≡ plain_loaded loaded.old) }
    ensures fits { FitsRows (external_rows (plain_design design.now)) (plain_loaded loaded.new) }
{
    run_ends_too();
    run_faults_too();
    let begun = Begun::new(alloc, design, loaded)?;
    let Begun { plan, mut machine } = begun;
    let wove = weave_plan(alloc, &plan, &mut machine, list, steps)?;
    if let Wove::End(_, _) = wove {
        external_words(plan.design, &machine.sight.state, loaded);
    }
    Ok(wove)
}
