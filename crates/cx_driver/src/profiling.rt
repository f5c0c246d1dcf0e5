//! The profiler on texts: a design, a data file and a budget give a dump, and how many cycles each group is active in.

ghost use Rattle.std.specs.Prelude.{◌≡◌, ◌++◌, ◌≤◌, ◌⊎◌, ℕ, IfOk, IfErr, List, MatchResult, length, map};
ghost use Rattle.cx_text.specs.declared.limits.TheConstants.{BUDGET};
ghost use Rattle.cx_data.specs.Dump.{dump_text};
ghost use Rattle.cx_text.specs.Loading.{plain_loaded};
ghost use Rattle.cx_design.specs.PlainDesigns.{plain_design};
ghost use Rattle.cx_profiling.specs.Instrumented.{instrumented};
ghost use Rattle.cx_commands.specs.declared.stops.Stop.{Stop as StopValue};
ghost use Rattle.cx_commands.specs.declared.stops.Stop.TheVariants as stops;
ghost use Rattle.cx_driver.specs.Counted.{plain_counted};
ghost use Rattle.cx_driver.specs.Counting.{CanCount};
ghost use Rattle.cx_driver.specs.Leaving.{CanDump};
ghost use Rattle.cx_driver.specs.Profiling.{IsDesignProfile, IsDesignProfileStop, IsProfileAnswer, IsProfileStop, StopsProfile, active_line, active_lines, design_counted};

use crate::counted::{Counted, run_counted};
use crate::counting::counting;
use crate::memories::dump_of;
use cx_commands::Stop;
use cx_compiler::accepted_design;
use cx_design::Checked;
use cx_profile::ProfiledGroup;
use cx_text::Memory;
use itoa::Buffer;
use std::alloc::Global;

/// Runs the control of `main` by its meaning, with the words of a data file loaded, within a budget of turns. Answers
/// the dump of its turns and of the words in which it leaves the external memories, and a line with the count of its
/// active cycles for each group.
pub fn profile(alloc: Global, text: &[u8], json: &[u8], turns: u64) -> Result<Vec<u8>, Stop>
    requires text { length text.now ≤ 1048576 }
    requires budget { turns ≤ BUDGET }
    ensures answer { IfOk result (λ answer. IsProfileAnswer text.now json.now turns answer.items) }
    ensures cause { IfErr result (IsProfileStop text.now json.now turns) }

    // Where the run ends within the budget its profile is the answer, unless memory is wanting.
    ensures all_answers { (answer : List ℕ) → IsProfileAnswer text.now json.now turns answer
        → MatchResult result (λ text. text.items ≡ answer) (λ stop. stop ≡ stops.Memory) }

    // A rule that the text breaks is told, a limit that the instrumented design exceeds, the fault of the data file,
    // that of the run, or that the budget does not suffice, unless memory is wanting.
    ensures all_stops { (why : StopValue) → StopsProfile text.now json.now turns why
        → MatchResult result (λ _. ⊥) (λ stop. (stop ≡ stops.Memory) ⊎ (stop ≡ why)) }
{
    match accepted_design(alloc, text) {
        Ok(design) => profile_design(alloc, design, json, turns),
        Err(stop) => Err(stop),
    }
}

/// The profile of a design on a data file.
fn profile_design(alloc: Global, design: Checked, json: &[u8], turns: u64) -> Result<Vec<u8>, Stop>
    requires counted { CanCount (plain_design design) }
    requires budget { turns ≤ BUDGET }
    ensures answer { IfOk result (λ text. IsDesignProfile (plain_design design) json.now turns text.items) }
    ensures cause { IfErr result (IsDesignProfileStop (plain_design design) json.now turns) }
{
    match counting(alloc, &design) {
        Ok(profiled) => {
            let groups = profiled.groups.as_slice();
            let counted = run_counted(alloc, design, groups, json, turns)?;
            let text = profile_text(alloc, groups, &counted)?;
            Ok(text)
        }
        Err(stop) => Err(stop),
    }
}

/// The text of a profile.
fn profile_text(
    alloc: Global,
    groups: &[ProfiledGroup],
    counted: &Counted,
) -> Result<Vec<u8>, Memory>
    requires ready { CanDump counted.now.left }
    requires each { length groups.now ≡ length counted.now.counts.items }
    ensures { IfOk result (λ text. text.items ≡ dump_text counted.now.left.turns (plain_loaded counted.now.left.loaded)
        ++ active_lines (map (λ g. g.path) groups.now) counted.now.counts.items) }
{
    let mut text = dump_of(alloc, counted.left.turns, &counted.left.loaded)?;
    push_lines(&mut text, groups, counted.counts.as_slice())?;
    Ok(text)
}

/// A line for each group.
fn push_lines(text: &mut Vec<u8>, groups: &[ProfiledGroup], counts: &[u64]) -> Result<(), Memory>
    requires each { length groups.now ≡ length counts.now }
    ensures { IfOk result
        (λ _. text.new.items ≡ text.old.items ++ active_lines (map (λ g. g.path) groups.now) counts.now) }
{
    let mut index = 0usize;
    for group in groups {
        push_line(text, group.path.bytes(), counts[index])?;
        index += 1;
    }
    Ok(())
}

/// `active PATH COUNT`.
fn push_line(text: &mut Vec<u8>, path: &[u8], count: u64) -> Result<(), Memory>
    ensures { IfOk result (λ _. text.new.items ≡ text.old.items ++ active_line path.now count) }
{
    let mut buffer = Buffer::new();
    text.extend_from_slice(b"active ")?;
    text.extend_from_slice(path)?;
    text.push(b' ')?;
    text.extend_from_slice(buffer.format(count).as_bytes())?;
    text.push(b'\n')?;
    Ok(())
}
