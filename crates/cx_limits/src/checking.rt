//! The first limit that a design exceeds.

ghost use Rattle.std.specs.Prelude.{◌≡◌, ◌+◌, IfOk, OnOk, IfErr, length, if◌then◌else◌};
ghost use Rattle.cx_meaning.specs.Instances.{tree_of};
ghost use Rattle.cx_rules.specs.Accepted.{KeepsStage};
ghost use Rattle.cx_design.specs.PlainForms.{plain_component};
ghost use Rattle.cx_design.specs.PlainDesigns.{plain_design};
ghost use Rattle.cx_rules.specs.Counts as counts;
ghost use Rattle.cx_design_sizes.specs.Capped.{capped};
ghost use Rattle.cx_limits.specs.First.{IsFirstBreak, TellsFound};
ghost use Rattle.cx_limits.specs.Rows.{AreRows, counts_of, plain_inners};
ghost use Rattle.cx_limits.specs.Scan as scan;

use crate::found::{FoundBreak, Limited, noted};
use crate::inners::{Inner, cells_in, groups_for};
use crate::rows::Row;
use crate::statements::past_control;
use crate::table::{above, below, row_at, table};
use cx_design::{Component, Design, Refusal};
use cx_design_sizes::{LimitTally, tree_tally};
use cx_text::{
    CELLS, Diagnostic, GROUPS, INSTANCE_DEPTH, INSTANCES, MEMORY_WORDS, Memory, Name, Place, Rule,
    WEIGHT,
};
use std::alloc::Global;

/// The limit, where the count exceeds it.
fn if_over(limited: Limited, limit: u64, count: u64) -> Option<Limited>
    ensures { result ≡ scan.if_over limited limit count }
{
    if count > limit { Some(limited) } else { None }
}

/// The groups of a component, with those of its static invokes.
fn group_count(part: &Component, below: &[Option<Inner>]) -> u64
    ensures { result ≡ capped (length (plain_component part.now).groups +
        counts.groups_for (plain_inners below.now) (plain_component part.now).invokes) }
{
    (part.groups.len() as u64).saturating_add(groups_for(below, part.invokes.as_slice()))
}

/// The first so far, past the cells, the groups and the statements of a component.
fn past_part(
    best: Option<FoundBreak>,
    part: &Component,
    below: &[Option<Inner>],
) -> Option<FoundBreak>
    ensures { result ≡ scan.past_part best (plain_component part.now) (plain_inners below.now) }
{
    let cells = if_over(Limited::Cells, CELLS as u64, cells_in(below));
    let groups = if_over(Limited::Groups, GROUPS as u64, group_count(part, below));
    let best = noted(noted(best, part.place, cells), part.place, groups);
    past_control(part, below, best)
}

/// The first so far, past the counts over the tree.
fn past_tree(best: Option<FoundBreak>, place: Place, tally: LimitTally) -> Option<FoundBreak>
    ensures { result ≡ scan.past_tree best place tally }
{
    let instances = if_over(Limited::Instances, INSTANCES, tally.instances);
    let depth = if_over(Limited::Depth, INSTANCE_DEPTH, tally.depth);
    let words = if_over(Limited::Words, MEMORY_WORDS, tally.words);
    let weight = if_over(Limited::Weight, WEIGHT, tally.weight);
    let best = noted(noted(best, place, instances), place, depth);
    noted(noted(best, place, words), place, weight)
}

/// The first so far, past a component, and past the tree where it is main.
fn past_one(
    best: Option<FoundBreak>,
    part: &Component,
    below: &[Option<Inner>],
    is_main: bool,
    tally: LimitTally,
) -> Option<FoundBreak>
    ensures { result ≡ (if is_main then scan.past_tree
        (scan.past_part best (plain_component part.now) (plain_inners below.now))
        (plain_component part.now).place tally
        else scan.past_part best (plain_component part.now) (plain_inners below.now)) }
{
    let best = past_part(best, part, below);
    if is_main {
        past_tree(best, part.place, tally)
    } else {
        best
    }
}

/// The counts over the tree of main.
fn main_counts(alloc: Global, design: &Design, rows: &[Row]) -> Result<LimitTally, Memory>
    requires rows { AreRows (plain_design design.now) rows.now }
    ensures { IfOk result (λ tally. tally ≡ counts_of (tree_of (plain_design design.now))) }
{
    let row = row_at(rows, design.main);
    let trees = above(row);
    let words = tree_tally(alloc, design)?.words;
    Ok(LimitTally {
        instances: trees.instances,
        depth: trees.depth,
        words,
        weight: trees.weight,
    })
}

/// The first limit that the design exceeds.
fn first_limit(alloc: Global, design: &Design) -> Result<Option<FoundBreak>, Memory>
    ensures { IfOk result (λ found. found ≡ scan.past_all (plain_design design.now)) }
{
    let rows = table(alloc, design)?;
    let tally = main_counts(alloc, design, rows.as_slice())?;
    let components = design.components.as_slice();
    let main = design.main as usize;
    let mut best = None;
    for number in 0..components.len() {
        let part = &components[number];
        let below = below(alloc, design, rows.as_slice(), part)?;
        best = past_one(best, part, below.as_slice(), number == main, tally);
    }
    Ok(best)
}

/// What is told of a limit.
fn told(alloc: Global, found: FoundBreak) -> Refusal
    ensures { TellsFound found result }
{
    match Name::from_bytes(alloc, found.limited.text().as_bytes()) {
        Ok(name) => Refusal::Rule(Diagnostic {
            rule: Rule::Limit,
            place: found.place,
            name,
        }),
        Err(Memory) => Refusal::Memory,
    }
}

/// Answers the first limit that the design exceeds: by place, and at one place in the order of `Limited`.
pub fn limits(alloc: Global, design: &Design) -> Result<(), Refusal>
    ensures ok { OnOk result (KeepsStage 7 (plain_design design.now)) }
    ensures rule { IfErr result (IsFirstBreak 7 (plain_design design.now)) }
{
    match first_limit(alloc, design) {
        Ok(None) => Ok(()),
        Ok(Some(found)) => Err(told(alloc, found)),
        Err(Memory) => Err(Refusal::Memory),
    }
}
