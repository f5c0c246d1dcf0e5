//! The trial: the design of a seed is checked, interpreted and compiled, and its text is read back and simulated.

ghost use Rattle.std.specs.Prelude.{◌≡◌, ◌⊎◌, ◌++◌, ◌<◌, ◌^◌, List, ℕ, IfOk, IfErr, Ok, Err, MatchResult, map, sum};
ghost use Rattle.cx_text.specs.declared.diagnostics.Diagnostic.{Diagnostic as DiagnosticValue};
ghost use Rattle.cx_text.specs.Loading.{plain_memory};
ghost use Rattle.cx_rules.specs.Flat.{IsFlat};
ghost use Rattle.cx_design.specs.PlainDesigns.{plain_design};
ghost use Rattle.cx_design_sizes.specs.Capped.{capped};
ghost use Rattle.cx_check.specs.Acceptance.{TreeBreak};
ghost use Rattle.cx_trial.specs.TrialTree as tree_of;
ghost use Rattle.cx_commands.specs.declared.stops.Stop.{Stop as StopValue};
ghost use Rattle.cx_commands.specs.declared.stops.Stop.TheVariants as stops;
ghost use Rattle.cx_compiler.specs.Compiled.{EmitsWithin, KeepsRulesWithin};
ghost use Rattle.cx_driver.specs.Leaving.{plain_left};
ghost use Rattle.cx_driver.specs.Tried as plain;
ghost use Rattle.cx_driver.specs.Tried.{EndsOnZeros, HasTrialMemory, IsTrialStop, StopsTrial, Tries, counted, trial_line, try_result, words_sum};

use crate::interpreting::{Left, run_design};
use crate::simulating::simulate;
use cx_commands::Stop;
use cx_compiler::{compile_design, tried};
use cx_design::Checked;
use cx_text::{BUDGET, LoadedMemory, Memory};
use cx_trial::trial_tree;
use itoa::Buffer;
use std::alloc::Global;

/// A data file with zeros for the memory of the design.
const ZEROS: &[u8] =
    b"{\"mem\":{\"data\":[0,0,0,0,0,0,0,0,0,0,0,0,0,0,0,0],\"format\":{\"numeric_type\":\"bitnum\",\"is_signed\":false,\"width\":32}}}";

/// Tries the design of a seed: it is checked and interpreted on zeros, compiled, and its text is read back and
/// simulated. Answers the line that tells the turns of its run, and the sum of the words in which this leaves the
/// memory.
pub fn trial(alloc: Global, seed: u64) -> Result<Vec<u8>, Stop>
    ensures answer { IfOk result (λ line. Tries seed (Ok line.items)) }
    ensures cause { IfErr result (IsTrialStop seed) }

    // Where the design has a line it is the answer, unless memory is wanting.
    ensures all_answers { (line : List ℕ) → Tries seed (Ok line) →
        MatchResult result (λ own. own.items ≡ line) (λ stop. stop ≡ stops.Memory) }

    // What stops an accepted design is told, unless memory is wanting.
    ensures all_stops { (why : StopValue) → StopsTrial seed why →
        MatchResult result (λ _. ⊥) (λ stop. (stop ≡ stops.Memory) ⊎ (stop ≡ why)) }

    // A rule that the design breaks is told, with its place and name, unless memory is wanting.
    ensures all_refusals { (told : DiagnosticValue) → TreeBreak (tree_of.trial_tree seed) told
        → MatchResult result (λ _. ⊥) (λ stop. (stop ≡ stops.Memory) ⊎ (stop ≡ stops.Rule told)) }
{
    match trial_tree(alloc, seed) {
        Ok(tree) => match tried(alloc, &tree) {
            Ok(design) => try_design(alloc, &design, seed),
            Err(stop) => Err(stop),
        },
        Err(_) => Err(Stop::Memory),
    }
}

/// The line of a design that a seed gave.
fn try_design(alloc: Global, design: &Checked, seed: u64) -> Result<Vec<u8>, Stop>
    requires flat { IsFlat (plain_design design.now) }
    requires memory { HasTrialMemory (plain_design design.now) }
    requires rules { KeepsRulesWithin (plain_design design.now) }
    requires net { EmitsWithin (plain_design design.now) }
    ensures answer { IfOk result (λ line. try_result seed (plain_design design.now) ≡ Ok line.items) }
    ensures cause { IfErr result
        (λ stop. (stop ≡ stops.Memory) ⊎ (try_result seed (plain_design design.now) ≡ Err stop)) }
{
    match run_design(alloc, design, ZEROS, BUDGET) {
        Ok(_) => try_text(alloc, design, seed),
        Err(stop) => Err(stop),
    }
}

/// The line of a design whose run ends, by the run of its text.
fn try_text(alloc: Global, design: &Checked, seed: u64) -> Result<Vec<u8>, Stop>
    requires memory { HasTrialMemory (plain_design design.now) }
    requires rules { KeepsRulesWithin (plain_design design.now) }
    requires net { EmitsWithin (plain_design design.now) }
    requires ends { EndsOnZeros (plain_design design.now) }
    ensures answer { IfOk result (λ line. try_result seed (plain_design design.now) ≡ Ok line.items) }
    ensures cause { IfErr result
        (λ stop. (stop ≡ stops.Memory) ⊎ (try_result seed (plain_design design.now) ≡ Err stop)) }
{
    match compile_design(alloc, design) {
        Ok(verilog) => match simulate(alloc, &verilog, ZEROS, BUDGET) {
            Ok(left) => {
                let line = line_of(alloc, seed, &left)?;
                Ok(line)
            }
            Err(stop) => Err(stop),
        },
        Err(stop) => Err(stop),
    }
}

/// The line of what a run left.
fn line_of(alloc: Global, seed: u64, left: &Left) -> Result<Vec<u8>, Memory>
    requires small { words_sum (plain_left left.now).memories < 2 ^ 64 }
    ensures { IfOk result (λ line. line.items ≡ plain.line_of seed (plain_left left.now)) }
{
    let total = memories_sum(&left.loaded.memories);
    line_with(alloc, seed, left.turns, total)
}

/// The sum of the words of memories. It stops at 2^64 - 1.
fn memories_sum(memories: &[LoadedMemory]) -> u64
    ensures { result ≡ capped (words_sum (map plain_memory memories.now)) }
{
    let mut total = 0u64;
    for memory in memories {
        total = total.saturating_add(words_total(&memory.words));
    }
    total
}

fn words_total(words: &[u64]) -> u64
    ensures { result ≡ capped (sum words.now) }
{
    let mut total = 0u64;
    for word in words {
        total = total.saturating_add(*word);
    }
    total
}

/// `trial SEED cycles TURNS sum SUM`.
fn line_with(alloc: Global, seed: u64, turns: u64, total: u64) -> Result<Vec<u8>, Memory>
    ensures { IfOk result (λ line. line.items ≡ trial_line seed turns total) }
{
    let mut line = Vec::new(alloc);
    push_counted(&mut line, b"trial ", seed)?;
    push_counted(&mut line, b" cycles ", turns)?;
    push_counted(&mut line, b" sum ", total)?;
    line.push(b'\n')?;
    Ok(line)
}

/// Appends a piece, and a number behind it.
fn push_counted(line: &mut Vec<u8>, piece: &[u8], number: u64) -> Result<(), Memory>
    ensures { IfOk result (λ _. line.new.items ≡ line.old.items ++ counted piece.now number) }
{
    line.extend_from_slice(piece)?;
    let mut buffer = Buffer::new();
    line.extend_from_slice(buffer.format(number).as_bytes())?;
    Ok(())
}
