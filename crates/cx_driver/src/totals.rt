//! What is counted of the groups of a profile, by those that stand for them in what is run.

ghost use Rattle.std.specs.Prelude.{◌≡◌, IfOk, map};
ghost use Rattle.cx_interp.specs.Counts.{plain_counts};
ghost use Rattle.cx_flat.specs.Places.{plain_instances};
ghost use Rattle.cx_flat.specs.Placing.{plain_places};
ghost use Rattle.cx_driver.specs.Placing.{standing_at, total_in};

use crate::placing::instance_along;
use cx_flat::{FlatPlace, InstancePlaces};
use cx_interp::Counts;
use cx_profile::ProfiledGroup;
use cx_state::InstanceTable;
use cx_text::Memory;
use std::alloc::Global;

/// What is counted of each of some groups, in 64 bits.
pub(crate) fn totals(
    alloc: Global,
    groups: &[ProfiledGroup],
    places: &[InstancePlaces],
    table: &InstanceTable,
    counts: &Counts,
) -> Result<Vec<u64>, Memory>
    ensures value { IfOk result (λ all. all.items ≡
        map (λ g. total_in table.now.rows.items table.now.children.items (plain_counts counts.now)
        (standing_at (plain_instances places.now) g.instance g.group)) groups.now) }
{
    let mut all = Vec::new(alloc);
    for group in groups {
        let standing = places_of(places, group.instance, group.group);
        all.push(total(table, counts, standing))?;
    }
    Ok(all)
}

/// What stands for a group of an instance; nothing where the instance has no such group.
fn places_of(places: &[InstancePlaces], instance: u32, group: u32) -> &[FlatPlace]
    ensures value { plain_places result.now ≡ standing_at (plain_instances places.now) instance group }
{
    match places.get(instance as usize) {
        Some(of_instance) => match of_instance.groups.get(group as usize) {
            Some(standing) => standing.as_slice(),
            None => &[],
        },
        None => &[],
    }
}

/// What is counted of some groups together, in 64 bits.
fn total(table: &InstanceTable, counts: &Counts, places: &[FlatPlace]) -> u64
    ensures value { result ≡ total_in table.now.rows.items table.now.children.items
        (plain_counts counts.now) (plain_places places.now) }
{
    let mut total = 0u64;
    for place in places {
        let instance = instance_along(table, place.path.as_slice());
        total = total.wrapping_add(counts.count(instance, place.group));
    }
    total
}
