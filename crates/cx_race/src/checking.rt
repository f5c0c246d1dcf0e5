//! The check over a whole design.

ghost use Rattle.std.specs.Prelude.{◌≡◌, ◌<◌, None, Some, IfOk, OnOk, length, slice_get};
ghost use Rattle.cx_meaning.specs.Designs.{component_at};
ghost use Rattle.cx_rules.specs.Items.{statements_in};
ghost use Rattle.cx_design.specs.PlainDesigns.{plain_design};
ghost use Rattle.cx_design_parts.specs.Answers.{IsAnswer};
ghost use Rattle.cx_design_parts.specs.Items.{plain_visited};
ghost use Rattle.cx_race.specs.Footprints.{AreFootprints};
ghost use Rattle.cx_race.specs.Races.{AreClear};
ghost use Rattle.cx_race.specs.RaceBreaks.{IsAt, IsBeforeOf, IsOf, Looked};

use crate::arms::arms;
use crate::races::{Tallies, find_race};
use crate::telling::add_race;
use crate::{Footprints, footprints_of};
use cx_design::{Design, Refusal};
use cx_design_parts::{FirstBreak, Part, Spot, Visited, component, statements};
use cx_text::Memory;
use std::alloc::Global;

/// Refuses a design with a race between arms of a par or a static par, with the first one: a cell that an arm drives and another
/// reads, or a group that two arms enable.
pub fn check(alloc: Global, design: &Design) -> Result<(), Refusal>
    ensures answer { IsAnswer 6 (plain_design design.now) result }
{
    match first_break(alloc, design) {
        Ok(first) => first.result(),
        Err(Memory) => Err(Refusal::Memory),
    }
}

/// The first break of a design.
fn first_break(alloc: Global, design: &Design) -> Result<FirstBreak, Memory>
    ensures looked { IfOk result
        (Looked (plain_design design.now) (IsBeforeOf (length design.now.components.items)) None) }
{
    let mut first = FirstBreak::new();
    for number in 0..design.components.len() {
        add_component(alloc, &mut first, design, number)?;
    }
    Ok(first)
}

/// Looks at the statements of a component.
fn add_component(
    alloc: Global,
    first: &mut FirstBreak,
    design: &Design,
    number: usize,
) -> Result<(), Memory>
    requires within { number < length design.now.components.items }
    ensures looked { OnOk result (Looked (plain_design design.now) (IsOf number) first.old first.new) }
{
    let part = component(design, number);
    let footprints = footprints_of(alloc, design, number)?;
    let mut tallies = Tallies::new(alloc, footprints.links.len(), footprints.driven.len())?;
    let list = statements(alloc, part)?;
    for place in 0..list.len() {
        add_statement(
            alloc,
            first,
            design,
            number,
            place,
            &footprints,
            &mut tallies,
            list[place],
        )?;
    }
    Ok(())
}

/// Looks at a statement of a component.
fn add_statement(
    alloc: Global,
    first: &mut FirstBreak,
    design: &Design,
    number: usize,
    place: usize,
    footprints: &Footprints,
    tallies: &mut Tallies,
    visited: Visited<'_>,
) -> Result<(), Memory>
    requires within { number < length design.now.components.items }
    requires footprints { AreFootprints (component_at (plain_design design.now) number) footprints.now }
    requires clear { AreClear (length footprints.now.links.items) (length footprints.now.driven.items) tallies.old }
    requires stands { slice_get (statements_in (component_at (plain_design design.now) number)) place ≡
        Some (plain_visited visited) }
    ensures looked { OnOk result (Looked (plain_design design.now) (IsAt number place) first.old first.new) }
    ensures clear { OnOk result
        (AreClear (length footprints.now.links.items) (length footprints.now.driven.items) tallies.new) }
{
    let part = component(design, number);
    let race = find_race(alloc, part, footprints, tallies, arms(visited.form))?;
    let spot = Spot {
        component: number,
        part: Part::Statement(place),
    };
    add_race(alloc, first, part, spot, visited.place, race)?;
    Ok(())
}
