//! Races that are told.

ghost use Rattle.std.specs.Prelude.{◌≡◌, IfOk};
ghost use Rattle.cx_design.specs.PlainForms.{plain_component};
ghost use Rattle.cx_design_parts.specs.Breaks.{first_of, plain_spot};
ghost use Rattle.cx_race.specs.Races.{race_name};
ghost use Rattle.cx_race.specs.RaceBreaks.{race_break};

use crate::races::Race;
use cx_design::Component;
use cx_design_parts::{Break, FirstBreak, Spot, cell_name, group_name};
use cx_text::{Memory, Name, Place, Rule};
use std::alloc::Global;

/// Keeps a race, where there is one.
pub fn add_race(
    alloc: Global,
    first: &mut FirstBreak,
    component: &Component,
    spot: Spot,
    place: Place,
    race: Option<Race>,
) -> Result<(), Memory>
    ensures value { IfOk result (λ _. first.new ≡
        first_of first.old (race_break (plain_component component.now) (plain_spot spot) place race)) }
{
    let Some(race) = race else {
        return Ok(());
    };
    if first.is_first(Rule::Race, spot, place) {
        let name = Name::from_bytes(alloc, name(component, race))?;
        first.keep(Break {
            rule: Rule::Race,
            spot,
            place,
            name,
        });
    }
    Ok(())
}

/// The name that is told.
fn name(component: &Component, race: Race) -> &[u8]
    ensures value { result.now ≡ race_name (plain_component component.now) race }
{
    match race {
        Race::Cell(cell) => cell_name(component, cell),
        Race::Group(group) => group_name(component, group),
    }
}
