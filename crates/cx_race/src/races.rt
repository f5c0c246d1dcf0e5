//! The first race between the arms of a statement.

ghost use Rattle.std.specs.Prelude.{◌≡◌, IfOk, OnOk, length, map};
ghost use Rattle.cx_meaning.specs.Designs.{PlainStatement};
ghost use Rattle.cx_text.specs.Members.{In};
ghost use Rattle.cx_rules.specs.RaceRule.{IsEnabledTwice, IsShared, enabled_in};
ghost use Rattle.cx_design.specs.PlainForms.{plain_component, plain_statement};
ghost use Rattle.cx_graphs.specs.Tallies.{IsClear};
ghost use Rattle.cx_race.specs.Footprints.{AreFootprints};
ghost use Rattle.cx_race.specs.Links.{Within};
ghost use Rattle.cx_race.specs.Races.{AreClear, AreWithin, IsFirstRace, IsLeastOf, race_of};

use crate::Footprints;
use crate::arms::{enabled_lists, group_lists, invoked_lists, met_lists};
use cx_design::{Component, Statement};
use cx_graphs::Tally;
use cx_text::Memory;
use std::alloc::Global;

/// A race between arms: a cell that one drives and another reads, or a group that two enable.
#[derive(Clone, Copy, Debug, PartialEq, Eq)]
pub enum Race {
    Cell(u32),
    Group(u32),
}

/// The tallies of a component, which serve each statement of it in turn.
#[derive(Debug, Drop)]
pub struct Tallies {
    pub drivers: Tally,
    pub readers: Tally,
    pub groups: Tally,
}

impl Tallies {
    /// Empty tallies of so many cells and groups.
    pub fn new(alloc: Global, cells: usize, groups: usize) -> Result<Tallies, Memory>
        ensures clear { IfOk result (AreClear cells groups) }
    {
        Ok(Tallies {
            drivers: Tally::new(alloc, cells)?,
            readers: Tally::new(alloc, cells)?,
            groups: Tally::new(alloc, groups)?,
        })
    }
}

/// The first race between arms: the least cell that one drives and another reads, else the least group that two enable.
pub fn find_race(
    alloc: Global,
    part: &Component,
    footprints: &Footprints,
    tallies: &mut Tallies,
    arms: &[Statement],
) -> Result<Option<Race>, Memory>
    requires within { AreWithin (plain_component part.now) footprints.now (map plain_statement arms.now) }
    requires clear { AreClear (length footprints.now.links.items) (length footprints.now.driven.items) tallies.old }
    ensures race { IfOk result (λ race. AreFootprints (plain_component part.now) footprints.now
        → IsFirstRace (plain_component part.now) (map plain_statement arms.now) race) }
    ensures clear { OnOk result
        (AreClear (length footprints.now.links.items) (length footprints.now.driven.items) tallies.new) }
{
    let cell = shared_cell(
        alloc,
        part,
        footprints,
        &mut tallies.drivers,
        &mut tallies.readers,
        &mut tallies.groups,
        arms,
    )?;
    let group = group_enabled_twice(alloc, &mut tallies.groups, arms)?;
    Ok(first_race(cell, group))
}

/// The least cell that one arm drives and another reads.
fn shared_cell(
    alloc: Global,
    part: &Component,
    footprints: &Footprints,
    driving: &mut Tally,
    reading: &mut Tally,
    groups: &mut Tally,
    arms: &[Statement],
) -> Result<Option<u32>, Memory>
    requires within { AreWithin (plain_component part.now) footprints.now (map plain_statement arms.now) }
    requires driving { IsClear (length footprints.now.links.items) driving.old.owners.items driving.old.touched.items }
    requires reading { IsClear (length footprints.now.links.items) reading.old.owners.items reading.old.touched.items }
    requires groups { IsClear (length footprints.now.driven.items) groups.old.owners.items groups.old.touched.items }
    ensures least { IfOk result (λ least. AreFootprints (plain_component part.now) footprints.now
        → IsLeastOf (IsShared (plain_component part.now) (map plain_statement arms.now)) least) }
    ensures driving { OnOk result
        (IsClear (length footprints.now.links.items) driving.new.owners.items driving.new.touched.items) }
    ensures reading { OnOk result
        (IsClear (length footprints.now.links.items) reading.new.owners.items reading.new.touched.items) }
    ensures groups { OnOk result
        (IsClear (length footprints.now.driven.items) groups.new.owners.items groups.new.touched.items) }
{
    let enabled = group_lists(alloc, arms)?;
    let enabled = enabled.as_slice();
    let invoked = invoked_lists(alloc, part, arms)?;
    driving.tally_groups(
        groups,
        footprints.driven.as_slice(),
        enabled,
        invoked.as_slice(),
    )?;
    let met = met_lists(alloc, part, arms)?;
    reading.tally_reached(
        footprints.links.as_slice(),
        groups,
        footprints.named.as_slice(),
        enabled,
        met.as_slice(),
    )?;
    let least = reading.least_several(driving.touched.as_slice());
    driving.clear();
    reading.clear();
    Ok(least)
}

/// The least group that two arms enable.
fn group_enabled_twice(
    alloc: Global,
    groups: &mut Tally,
    arms: &[Statement],
) -> Result<Option<u32>, Memory>
    requires clear { IsClear (length groups.old.owners.items) groups.old.owners.items groups.old.touched.items }
    requires enabled { (s : PlainStatement) → In (map plain_statement arms.now) s →
        Within (length groups.old.owners.items) (enabled_in s) }
    ensures least { IfOk result (IsLeastOf (IsEnabledTwice (map plain_statement arms.now))) }
    ensures clear { OnOk result
        (IsClear (length groups.old.owners.items) groups.new.owners.items groups.new.touched.items) }
{
    let lists = enabled_lists(alloc, arms)?;
    groups.tally(lists.as_slice())?;
    let least = groups.least_several(groups.touched.as_slice());
    groups.clear();
    Ok(least)
}

/// A cell goes before a group.
fn first_race(cell: Option<u32>, group: Option<u32>) -> Option<Race>
    ensures value { result ≡ race_of cell group }
{
    match (cell, group) {
        (Some(cell), _) => Some(Race::Cell(cell)),
        (None, Some(group)) => Some(Race::Group(group)),
        (None, None) => None,
    }
}
