//! The instrumented design of an accepted design.

ghost use Rattle.std.specs.Prelude.{◌≡◌, IfErr, IfOk, MatchResult, Some, [], length, map, slice_get};
ghost use Rattle.cx_text.specs.declared.diagnostics.Diagnostic.{Diagnostic};
ghost use Rattle.cx_meaning.specs.Instances.{externals_from, paths_of, tree_of};
ghost use Rattle.cx_rules.specs.Accepted.{IsAccepted, IsFirstOf, KeepsStage};
ghost use Rattle.cx_rules.specs.Sizes.{sizes_of};
ghost use Rattle.cx_design.specs.PlainForms.{plain_cell, plain_component};
ghost use Rattle.cx_design.specs.PlainDesigns.{plain_design};
ghost use Rattle.cx_design_sizes.specs.Capped.{capped};
ghost use Rattle.cx_check.specs.Verdicts.{TellsAs};
ghost use Rattle.cx_profiling.specs.Counters.{entries_of, entry_count};
ghost use Rattle.cx_profiling.specs.Instrumented as definitions;
ghost use Rattle.cx_profile.specs.Gains.{AreGains};
ghost use Rattle.cx_profile.specs.Profiles.{IsLimit, group_path, memory_place as memory_place_of};
ghost use Rattle.cx_profile.specs.Rows.{rows_in};

use crate::components::{instrumented_components, same_components};
use crate::entries::{ProfiledGroup, profiled_groups};
use crate::gained::{Gains, gains_of};
use cx_design::{Cell, Checked, Component, Design, Refusal};
use cx_design_copies::sum;
use cx_design_sizes::component_size;
use cx_limits::limits;
use cx_text::Memory;
use std::alloc::Global;

/// An instrumented design, the place of the memory of the counts among its external memories, if there is a count, and the group of
/// each word.
#[derive(Drop)]
pub struct Profiled {
    pub design: Checked,
    pub memory: Option<u32>,
    pub groups: Vec<ProfiledGroup>,
}

/// The instrumented design of an accepted one. It is refused exactly where it exceeds a limit, or for want of memory.
pub fn instrument(alloc: Global, design: &Checked) -> Result<Profiled, Refusal>
    ensures design { IfOk result (λ p. plain_design p.design ≡ definitions.instrumented (plain_design design.now)) }
    ensures memory { IfOk result (λ p. p.memory ≡ memory_place_of (plain_design design.now)) }
    // Of each word of the memory, in order: the path of the group, its number, and that of the instance.
    ensures paths { IfOk result (λ p. map (λ g. g.path) p.groups.items ≡
        map (group_path (tree_of (plain_design design.now))) (entries_of (tree_of (plain_design design.now)))) }
    ensures groups { IfOk result (λ p. map (λ g. g.group) p.groups.items ≡
        map (λ e. e.group) (entries_of (tree_of (plain_design design.now)))) }
    ensures instances { IfOk result (λ p. map
        (λ g. slice_get (paths_of (tree_of (plain_design design.now))) g.instance) p.groups.items ≡
        map (λ e. Some e.path) (entries_of (tree_of (plain_design design.now)))) }
    // It is refused for the first limit that the instrumented design exceeds, or for want of memory.
    ensures limit { IfErr result (IsLimit (definitions.instrumented (plain_design design.now))) }
    ensures all_limits { (told : Diagnostic) →
        IsFirstOf 7 (definitions.instrumented (plain_design design.now)) told →
        MatchResult result (λ _. ⊥)
        (λ refusal. TellsAs (definitions.instrumented (plain_design design.now)) told refusal) }
{
    match made(alloc, design.design()) {
        Ok(made) => checked(alloc, made),
        Err(Memory) => Err(Refusal::Memory),
    }
}

/// What an instrumented design is made of, before its limits are checked.
#[derive(Drop)]
struct Unchecked {
    design: Design,
    memory: Option<u32>,
    groups: Vec<ProfiledGroup>,
}

/// The instrumented design, the place of its memory, and the group of each word.
fn made(alloc: Global, design: &Design) -> Result<Unchecked, Memory>
    ensures design { IfOk result (λ p. plain_design p.design ≡ definitions.instrumented (plain_design design.now)) }
    ensures memory { IfOk result (λ p. p.memory ≡ memory_place_of (plain_design design.now)) }
    ensures groups { IfOk result (λ p. p.groups.items ≡ rows_in (tree_of (plain_design design.now)) 0 []) }
{
    let groups = profiled_groups(alloc, design)?;
    let gains = gains_of(alloc, design)?;
    let memory = memory_place(design, gains.entries)?;
    let design = instrumented_design(alloc, design, &gains)?;
    Ok(Unchecked {
        design,
        memory,
        groups,
    })
}

/// The design checked, where it breaks no rule but a limit; where it exceeds one, the first is told.
fn checked(alloc: Global, made: Unchecked) -> Result<Profiled, Refusal>
    requires accepted { KeepsStage 7 (plain_design made.design) → IsAccepted (plain_design made.design) }
    ensures design { IfOk result (λ p. plain_design p.design ≡ plain_design made.design) }
    ensures memory { IfOk result (λ p. p.memory ≡ made.memory) }
    ensures groups { IfOk result (λ p. p.groups.items ≡ made.groups.items) }
    ensures limit { IfErr result (IsLimit (plain_design made.design)) }
    ensures all_limits { (told : Diagnostic) → IsFirstOf 7 (plain_design made.design) told →
        MatchResult result (λ _. ⊥) (λ refusal. TellsAs (plain_design made.design) told refusal) }
{
    let Unchecked {
        design,
        memory,
        groups,
    } = made;
    match limits(alloc, &design) {
        Ok(()) => Ok(Profiled {
            design: Checked::new(design),
            memory,
            groups,
        }),
        Err(refusal) => Err(refusal),
    }
}

/// The place of the memory of the counts: behind the external memories of main, where there is a count.
fn memory_place(design: &Design, entries: u32) -> Result<Option<u32>, Memory>
    requires entries { entries ≡ entry_count (plain_design design.now) }
    ensures value { IfOk result (λ place. place ≡ memory_place_of (plain_design design.now)) }
{
    if entries == 0 {
        return Ok(None);
    }
    let main = &design.components.as_slice()[design.main as usize];
    let count = externals(&main.cells)?;
    Ok(Some(count))
}

/// How many cells are external.
fn externals(cells: &[Cell]) -> Result<u32, Memory>
    ensures value { IfOk result (λ count. count ≡ length (externals_from 0 (map plain_cell cells.now))) }
{
    let mut count = 0u32;
    for cell in cells {
        if cell.external {
            count = sum(count, 1)?;
        }
    }
    Ok(count)
}

/// The instrumented design.
fn instrumented_design(alloc: Global, design: &Design, gains: &Gains) -> Result<Design, Memory>
    requires gains { AreGains (plain_design design.now) gains.now }
    ensures value { IfOk result (λ made. plain_design made ≡ definitions.instrumented (plain_design design.now)) }
{
    let components = new_components(alloc, design, gains)?;
    if total_size(&components) > u64::from(u32::MAX) {
        return Err(Memory);
    }
    Ok(Design {
        components,
        main: design.main,
    })
}

/// The components of the instrumented design. One without an entry stays as it is.
fn new_components(alloc: Global, design: &Design, gains: &Gains) -> Result<Vec<Component>, Memory>
    requires gains { AreGains (plain_design design.now) gains.now }
    ensures value { IfOk result (λ all.
        map plain_component all.items ≡ (definitions.instrumented (plain_design design.now)).components) }
{
    if gains.entries == 0 {
        same_components(alloc, &design.components)
    } else {
        instrumented_components(alloc, design, gains)
    }
}

/// The sizes of components together, and one more for each. The sum stops at 2^64 - 1.
fn total_size(components: &[Component]) -> u64
    ensures value { result ≡ capped (sizes_of (map plain_component components.now)) }
{
    let mut size = 0u64;
    for component in components {
        size = size
            .saturating_add(component_size(component))
            .saturating_add(1);
    }
    size
}
