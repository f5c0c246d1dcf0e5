//! The run of a design with the active cycles of its groups, which are counted beside the run.

ghost use Rattle.std.specs.Prelude.{◌≡◌, ◌≤◌, IfOk, IfErr, Ok, length};
ghost use Rattle.cx_text.specs.declared.limits.TheConstants.{BUDGET};
ghost use Rattle.cx_text.specs.Loading.{FitsRows, plain_loaded, words_loaded};
ghost use Rattle.cx_data.specs.Load.{load_of};
ghost use Rattle.cx_rules.specs.Externals.{external_rows};
ghost use Rattle.cx_rules.specs.Flat.{IsFlat};
ghost use Rattle.cx_design.specs.PlainDesigns.{plain_design};
ghost use Rattle.cx_interp.specs.Counts.{plain_counts};
ghost use Rattle.cx_compiler.specs.Interpreted.{IsRunLeft, StopsRun};
ghost use Rattle.cx_driver.specs.Counted.{AreEntries, AreTallied, CountsLoaded, StopsLoaded, plain_counted};
ghost use Rattle.cx_driver.specs.Counting.{CanCount};
ghost use Rattle.cx_driver.specs.Leaving.{CanDump, plain_left};

use crate::interpreting::{Left, end};
use crate::memories::load;
use crate::totals::totals;
use cx_commands::Stop;
use cx_compiler::flat_laws::{what_is_run_is_flat, what_is_run_runs_as_meant};
use cx_design::Checked;
use cx_flat::{flat_places, flattened};
use cx_interp::{Counts, run};
use cx_profile::ProfiledGroup;
use cx_profiling::flat_laws::{flat_designs_count_the_same, flat_entries_are_there};
use cx_profiling::run_laws::whole_counts_are_within_turns;
use cx_state::instances;
use cx_text::Loaded;
use cx_turns::Begun;
use std::alloc::Global;

/// What a run leaves, and how many cycles each group is active in.
#[derive(Drop)]
pub(crate) struct Counted {
    pub(crate) left: Left,
    pub(crate) counts: Vec<u64>,
}

/// Runs a design on a data file within a budget of turns, and counts these groups of it.
pub(crate) fn run_counted(
    alloc: Global,
    design: Checked,
    groups: &[ProfiledGroup],
    json: &[u8],
    turns: u64,
) -> Result<Counted, Stop>
    requires rules { CanCount (plain_design design) }
    requires groups { AreEntries (plain_design design) groups.now }
    requires budget { turns ≤ BUDGET }
    ensures answer { IfOk result (λ counted. CountsLoaded (plain_design design) json.now turns (plain_counted counted)) }
    ensures each { IfOk result (λ counted. length counted.counts.items ≡ length groups.now) }
    ensures ready { IfOk result (λ counted. CanDump counted.left) }
    ensures cause { IfErr result (StopsLoaded (plain_design design) json.now turns) }
{
    let rows = design.rows(alloc)?;
    match load(alloc, json, &rows) {
        Ok(loaded) => count_loaded(alloc, design, groups, loaded, json, turns),
        Err(stop) => Err(stop),
    }
}

/// Runs what is run of a design with the words of a data file loaded. What is counted of a group is what is counted of those that stand
/// for it in what is run.
fn count_loaded(
    alloc: Global,
    design: Checked,
    groups: &[ProfiledGroup],
    loaded: Loaded,
    json: &[u8],
    turns: u64,
) -> Result<Counted, Stop>
    requires rules { CanCount (plain_design design) }
    requires groups { AreEntries (plain_design design) groups.now }
    requires budget { turns ≤ BUDGET }
    requires fits { FitsRows (external_rows (plain_design design)) (plain_loaded loaded) }
    requires loads { load_of json.now (external_rows (plain_design design)) ≡ Ok (plain_loaded loaded) }
    ensures answer { IfOk result (λ counted. CountsLoaded (plain_design design) json.now turns (plain_counted counted)) }
    ensures each { IfOk result (λ counted. length counted.counts.items ≡ length groups.now) }
    ensures ready { IfOk result (λ counted. CanDump counted.left) }
    ensures cause { IfErr result (StopsLoaded (plain_design design) json.now turns) }
{
    what_is_run_is_flat();
    what_is_run_runs_as_meant();
    flat_designs_count_the_same();
    flat_entries_are_there();
    whole_counts_are_within_turns();
    let _ = json;
    let places = flat_places(alloc, &design)?;
    let run = flattened(alloc, design)?;
    let table = instances(alloc, &run)?;
    match run_tallied(alloc, &run, loaded, turns) {
        Ok(tallied) => {
            let counts = totals(alloc, groups, &places, &table, &tallied.counts)?;
            Ok(Counted {
                left: tallied.left,
                counts,
            })
        }
        Err(stop) => Err(stop),
    }
}

/// What a run leaves, and the table of its counts.
#[derive(Drop)]
struct Tallied {
    left: Left,
    counts: Counts,
}

/// Runs a design without static components with these words loaded, and counts each group of each instance.
fn run_tallied(alloc: Global, design: &Checked, loaded: Loaded, turns: u64) -> Result<Tallied, Stop>
    requires flat { IsFlat (plain_design design.now) }
    requires fits { FitsRows (external_rows (plain_design design.now)) (plain_loaded loaded) }
    ensures answer { IfOk result (λ tallied.
        IsRunLeft (plain_design design.now) (plain_loaded loaded) turns (plain_left tallied.left)) }
    ensures ready { IfOk result (λ tallied. CanDump tallied.left) }
    ensures counted { IfOk result (λ tallied.
        AreTallied (plain_design design.now) (words_loaded (plain_loaded loaded)) turns
        (plain_counts tallied.counts)) }
    ensures cause { IfErr result (StopsRun (plain_design design.now) (plain_loaded loaded) turns) }
{
    let begun = Begun::new(alloc, design, &loaded)?;
    let mut counts = Counts::new(alloc, &begun.plan)?;
    let ran = run(begun, &mut counts, turns);
    match end(alloc, design, &ran, loaded, turns) {
        Ok(left) => Ok(Tallied { left, counts }),
        Err(stop) => Err(stop),
    }
}
