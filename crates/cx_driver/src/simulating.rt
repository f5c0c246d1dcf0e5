//! The simulator on texts: a Verilog text, a data file and a budget give a dump.

ghost use Rattle.std.specs.Prelude.{◌≡◌, ◌<◌, ◌⊎◌, ℕ, List, Ok, Err, IfOk, IfErr, MatchResult, length};
ghost use Rattle.cx_text.specs.Loading.{FitsRows, plain_loaded, with_words, words_loaded};
ghost use Rattle.cx_vtree.specs.InstanceTree.{instances_of, nets_at};
ghost use Rattle.cx_vtree.specs.PlainParts.{rows_of};
ghost use Rattle.cx_vtree.specs.PlainSources.{plain_source};
ghost use Rattle.cx_vtree.specs.SimRun.{SimRun};
ghost use Rattle.cx_velab.specs.Paths.{path_of};
ghost use Rattle.cx_vsim.specs.Answers.{IsDone, final_words};
ghost use Rattle.cx_compiler.specs.Simulated.{IsNoSource, IsSimAnswer, IsSimStop, IsSourceStop, IsVerilogOf, RunLeaves, SourceLeaves, Spells, StopsRun, TextLeaves, read_stop};
ghost use Rattle.cx_driver.specs.Leaving.{CanDump, plain_left};
ghost use Rattle.cx_commands.specs.declared.stops.Stop.{Stop as StopValue};
ghost use Rattle.cx_commands.specs.declared.stops.Stop.TheVariants as stops;

use crate::interpreting::Left;
use crate::memories::{dump_of, load};
use cx_commands::Stop;
use cx_text::Loaded;
use cx_velab::loop_path;
use cx_vread::{ReadRefusal, read};
use cx_vsim::{Sim, SimAnswer, SimRan, source_is_sound};
use cx_vtree::Source;
use std::alloc::Global;

/// Runs a Verilog text from reset, with the words of a data file loaded, and looks at the cycles 0 to `cycles` at most.
/// Answers the dump of the first cycle in which `done` is 1.
pub fn sim(alloc: Global, verilog: &[u8], json: &[u8], cycles: u64) -> Result<Vec<u8>, Stop>
    ensures answer { IfOk result (λ dump. IsSimAnswer verilog.now json.now cycles dump.items) }
    ensures cause { IfErr result (IsSimStop verilog.now json.now cycles) }

    // Where `done` comes within the budget the dump of its cycle is the answer, unless memory is wanting.
    ensures all_answers { (answer : List ℕ) → IsSimAnswer verilog.now json.now cycles answer
        → MatchResult result (λ dump. dump.items ≡ answer) (λ stop. stop ≡ stops.Memory) }

    // What stops a sound source that the text spells is told, unless memory is wanting.
    ensures all_stops { (why : StopValue) → Spells verilog.now json.now cycles (Err why)
        → MatchResult result (λ _. ⊥) (λ stop. (stop ≡ stops.Memory) ⊎ (stop ≡ why)) }
{
    match simulate(alloc, verilog, json, cycles) {
        Ok(left) => {
            let dump = dump_of(alloc, left.turns, &left.loaded)?;
            Ok(dump)
        }
        Err(stop) => Err(stop),
    }
}

/// Runs a Verilog text on a data file.
pub(crate) fn simulate(
    alloc: Global,
    verilog: &[u8],
    json: &[u8],
    cycles: u64,
) -> Result<Left, Stop>
    ensures answer { IfOk result (λ left. TextLeaves verilog.now json.now cycles (plain_left left)) }
    ensures ready { IfOk result CanDump }
    ensures cause { IfErr result (IsSimStop verilog.now json.now cycles) }
{
    match source_of(alloc, verilog) {
        Ok(source) => run_source(alloc, &source, json, cycles),
        Err(stop) => Err(stop),
    }
}

/// The source that a text spells.
fn source_of(alloc: Global, verilog: &[u8]) -> Result<Source, Stop>
    ensures source { IfOk result (λ source. IsVerilogOf verilog.now (plain_source source)) }
    ensures cause { IfErr result (IsNoSource verilog.now) }
{
    match read(alloc, verilog) {
        Ok(source) => {
            source_is_sound(&source);
            Ok(source)
        }
        Err(refusal) => Err(of_read(refusal)),
    }
}

/// Why a text is not read.
fn of_read(refusal: ReadRefusal) -> Stop
    ensures { result ≡ read_stop refusal }
{
    match refusal {
        ReadRefusal::Syntax(_)
        | ReadRefusal::Name(_)
        | ReadRefusal::Width(_)
        | ReadRefusal::Limit(_) => Stop::Verilog(refusal),
        ReadRefusal::Memory => Stop::Memory,
    }
}

/// Runs a source on a data file.
fn run_source(alloc: Global, source: &Source, json: &[u8], cycles: u64) -> Result<Left, Stop>
    ensures answer { IfOk result (λ left. SourceLeaves (plain_source source.now) json.now cycles (plain_left left)) }
    ensures ready { IfOk result CanDump }
    ensures cause { IfErr result (IsSourceStop (plain_source source.now) json.now cycles) }
{
    source_is_sound(source);
    let rows = source.rows(alloc)?;
    match load(alloc, json, &rows) {
        Ok(loaded) => run_loaded(alloc, source, loaded, cycles),
        Err(stop) => Err(stop),
    }
}

/// Runs a source with these words loaded.
fn run_loaded(alloc: Global, source: &Source, loaded: Loaded, cycles: u64) -> Result<Left, Stop>
    requires fits { FitsRows (rows_of (plain_source source.now).externals) (plain_loaded loaded) }
    ensures answer { IfOk result
        (λ left. RunLeaves (plain_source source.now) (plain_loaded loaded) cycles (plain_left left)) }
    ensures ready { IfOk result CanDump }
    ensures cause { IfErr result (StopsRun (plain_source source.now) (plain_loaded loaded) cycles) }
{
    let mut sim = Sim::new(alloc, source)?;
    sim.load(&loaded);
    let ran = sim.run(cycles);
    end(alloc, source, &ran, loaded, cycles)
}

/// What a run came to.
fn end(
    alloc: Global,
    source: &Source,
    ran: &SimRan<'_>,
    loaded: Loaded,
    cycles: u64,
) -> Result<Left, Stop>
    requires source { ran.now.source ≡ source.now }
    requires run { SimRun (plain_source source.now) (words_loaded (plain_loaded loaded)) cycles ran.now.outcome }
    requires fits { FitsRows (rows_of (plain_source source.now).externals) (plain_loaded loaded) }
    ensures answer { IfOk result
        (λ left. RunLeaves (plain_source source.now) (plain_loaded loaded) cycles (plain_left left)) }
    ensures ready { IfOk result CanDump }
    ensures cause { IfErr result (StopsRun (plain_source source.now) (plain_loaded loaded) cycles) }
{
    match ran.answer() {
        SimAnswer::Done(cycle) => Ok(finished(source, ran, loaded, cycle)),
        SimAnswer::Loop { instance, net } => Err(looped(alloc, source, instance, net)),
        SimAnswer::More => Err(Stop::More(cycles)),
    }
}

/// What a run leaves in its last cycle.
fn finished(source: &Source, ran: &SimRan<'_>, mut loaded: Loaded, cycle: u64) -> Left
    requires source { ran.now.source ≡ source.now }
    requires done { IsDone ran.now.outcome }
    requires fits { FitsRows (rows_of (plain_source source.now).externals) (plain_loaded loaded) }
    ensures count { result.turns ≡ cycle }
    ensures words { plain_loaded result.loaded ≡ with_words (plain_loaded loaded) (final_words ran.now.outcome) }
    ensures ready { CanDump result }
{
    source_is_sound(source);
    ran.memories(&mut loaded);
    Left {
        turns: cycle,
        loaded,
    }
}

/// The path of a net without a value.
fn looped(alloc: Global, source: &Source, instance: u32, net: u32) -> Stop
    requires instance { instance < length (instances_of (plain_source source.now)) }
    requires net { net < length (nets_at (instances_of (plain_source source.now)) instance) }
    ensures { (result ≡ stops.Memory) ⊎
        (result ≡ stops.Loop (path_of (instances_of (plain_source source.now)) instance net)) }
{
    match loop_path(source, instance, net, alloc) {
        Ok(path) => Stop::Loop(path),
        Err(memory) => memory.into(),
    }
}
