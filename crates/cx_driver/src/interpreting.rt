//! The interpreter on texts: a design, a data file and a budget give a dump.

ghost use Rattle.std.specs.Prelude.{◌≡◌, ◌≤◌, ◌⊎◌, IfOk, IfErr, List, MatchResult, length, ℕ};
ghost use Rattle.cx_text.specs.Loading.{FitsRows, plain_loaded, with_words, words_loaded};
ghost use Rattle.cx_meaning.specs.Answers.{End};
ghost use Rattle.cx_meaning.specs.Instances.{State, tree_of, words_of};
ghost use Rattle.cx_meaning.specs.Running.{run_main};
ghost use Rattle.cx_rules.specs.Externals.{external_rows};
ghost use Rattle.cx_rules.specs.Flat.{IsFlat};
ghost use Rattle.cx_design.specs.PlainDesigns.{plain_design};
ghost use Rattle.cx_interp.specs.Runs.{HasRun};
ghost use Rattle.cx_compiler.specs.Interpreted.{IsDesignAnswer, IsDesignLeft, IsDesignStop, IsInterpAnswer, IsInterpStop, IsRunLeft, StopsDesign, StopsRun, StopsText};
ghost use Rattle.cx_driver.specs.Leaving.{CanDump, plain_left};
ghost use Rattle.cx_commands.specs.declared.stops.Stop.{Stop as StopValue};
ghost use Rattle.cx_commands.specs.declared.stops.Stop.TheVariants as stops;

use crate::faults::faulted;
use crate::memories::{dump_of, load};
use cx_commands::Stop;
use cx_compiler::design_to_run;
use cx_design::Checked;
use cx_interp::{Answer, Counts, Ran, run};
use cx_text::Loaded;
use cx_turns::Begun;
use std::alloc::Global;

/// What a run leaves: its turns, and the words of the external memories.
#[derive(Drop)]
pub(crate) struct Left {
    pub(crate) turns: u64,
    pub(crate) loaded: Loaded,
}

/// Runs the control of `main` by its meaning, with the words of a data file loaded, within a budget of turns. Answers the
/// dump of its turns and of the words in which it leaves the external memories.
pub fn interp(alloc: Global, text: &[u8], json: &[u8], turns: u64) -> Result<Vec<u8>, Stop>
    requires { length text.now ≤ 1048576 }
    ensures answer { IfOk result (λ dump. IsInterpAnswer text.now json.now turns dump.items) }
    ensures cause { IfErr result (IsInterpStop text.now json.now turns) }

    // Where the run ends within the budget its dump is the answer, unless memory is wanting.
    ensures all_answers { (answer : List ℕ) → IsInterpAnswer text.now json.now turns answer
        → MatchResult result (λ dump. dump.items ≡ answer) (λ stop. stop ≡ stops.Memory) }

    // A rule that the text breaks is told, the fault of the data file, that of the run, or that the budget does not
    // suffice, unless memory is wanting.
    ensures all_stops { (why : StopValue) → StopsText text.now json.now turns why
        → MatchResult result (λ _. ⊥) (λ stop. (stop ≡ stops.Memory) ⊎ (stop ≡ why)) }
{
    match design_to_run(alloc, text) {
        Ok(run) => design_dump(alloc, &run, json, turns),
        Err(stop) => Err(stop),
    }
}

/// The dump of what a design leaves on a data file.
fn design_dump(alloc: Global, design: &Checked, json: &[u8], turns: u64) -> Result<Vec<u8>, Stop>
    requires flat { IsFlat (plain_design design.now) }
    ensures answer { IfOk result (λ dump. IsDesignAnswer (plain_design design.now) json.now turns dump.items) }
    ensures cause { IfErr result (IsDesignStop (plain_design design.now) json.now turns) }
{
    match run_design(alloc, design, json, turns) {
        Ok(left) => {
            let dump = dump_of(alloc, left.turns, &left.loaded)?;
            Ok(dump)
        }
        Err(stop) => Err(stop),
    }
}

/// Runs a design on a data file.
pub(crate) fn run_design(
    alloc: Global,
    design: &Checked,
    json: &[u8],
    turns: u64,
) -> Result<Left, Stop>
    requires flat { IsFlat (plain_design design.now) }
    ensures answer { IfOk result (λ left. IsDesignLeft (plain_design design.now) json.now turns (plain_left left)) }
    ensures ready { IfOk result CanDump }
    ensures cause { IfErr result (StopsDesign (plain_design design.now) json.now turns) }
{
    let rows = design.rows(alloc)?;
    match load(alloc, json, &rows) {
        Ok(loaded) => run_loaded(alloc, design, loaded, turns),
        Err(stop) => Err(stop),
    }
}

/// Runs a design with these words loaded.
pub(crate) fn run_loaded(
    alloc: Global,
    design: &Checked,
    loaded: Loaded,
    turns: u64,
) -> Result<Left, Stop>
    requires flat { IsFlat (plain_design design.now) }
    requires fits { FitsRows (external_rows (plain_design design.now)) (plain_loaded loaded) }
    ensures answer { IfOk result
        (λ left. IsRunLeft (plain_design design.now) (plain_loaded loaded) turns (plain_left left)) }
    ensures ready { IfOk result CanDump }
    ensures cause { IfErr result (StopsRun (plain_design design.now) (plain_loaded loaded) turns) }
{
    let begun = Begun::new(alloc, design, &loaded)?;
    let mut none = Counts::none(alloc);
    let ran = run(begun, &mut none, turns);
    end(alloc, design, &ran, loaded, turns)
}

/// What a run came to.
pub(crate) fn end(
    alloc: Global,
    design: &Checked,
    ran: &Ran<'_>,
    loaded: Loaded,
    turns: u64,
) -> Result<Left, Stop>
    requires run { HasRun design.now (words_loaded (plain_loaded loaded)) turns ran.now }
    requires fits { FitsRows (external_rows (plain_design design.now)) (plain_loaded loaded) }
    ensures answer { IfOk result
        (λ left. IsRunLeft (plain_design design.now) (plain_loaded loaded) turns (plain_left left)) }
    ensures ready { IfOk result CanDump }
    ensures cause { IfErr result (StopsRun (plain_design design.now) (plain_loaded loaded) turns) }
{
    match ran.answer() {
        Answer::End(ended) => Ok(finished(design, ran, loaded, ended)),
        Answer::Fault(fault, turn) => Err(faulted(alloc, design, fault, turn)),
        Answer::More => Err(Stop::More(turns)),
    }
}

/// What a run leaves that ended after so many turns.
fn finished(design: &Checked, ran: &Ran<'_>, mut loaded: Loaded, turns: u64) -> Left
    requires run { (words : List (List ℕ)) × (budget : ℕ) × HasRun design.now words budget ran.now }
    requires fits { FitsRows (external_rows (plain_design design.now)) (plain_loaded loaded) }
    ensures count { result.turns ≡ turns }
    ensures words { (words : List (List ℕ)) (budget : ℕ) (after : State) →
        HasRun design.now words budget ran.now →
        run_main (plain_design design.now) words budget ≡ End after turns
        → plain_loaded result.loaded ≡
        with_words (plain_loaded loaded) (words_of (tree_of (plain_design design.now)) after) }

    ensures ready { CanDump result }
{
    let _ = design;
    ran.memories(&mut loaded);
    Left { turns, loaded }
}
