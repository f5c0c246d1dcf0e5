//! The order of breaks.

ghost use Rattle.std.specs.Prelude.{◌≡◌};
ghost use Rattle.cx_rules.specs.Accepted.{number_of, part_key, key_of};
ghost use Rattle.cx_design_parts.specs.Breaks.{plain_part, plain_spot};

use crate::breaks::{Part, Spot};
use cx_text::{Place, Rule};

/// The numbers by which breaks are in order: line, column, rule, component, and the part.
pub fn key_of(rule: Rule, spot: Spot, place: Place) -> [u64; 6]
    ensures value { result ≡ key_of rule (plain_spot spot) place }
{
    let [kind, number] = part_key(spot.part);
    [
        place.line as u64,
        place.column as u64,
        number_of(rule),
        spot.component as u64,
        kind,
        number,
    ]
}

/// The kind of a part, and its number.
fn part_key(part: Part) -> [u64; 2]
    ensures value { result ≡ part_key (plain_part part) }
{
    match part {
        Part::Itself(word) => [0, word as u64],
        Part::Bind(number) => [1, number as u64],
        Part::Assign(number) => [2, number as u64],
        Part::Statement(number) => [3, number as u64],
        Part::Group(number) => [4, number as u64],
    }
}

/// The number of a rule, from 1.
fn number_of(rule: Rule) -> u64
    ensures value { result ≡ number_of rule }
{
    match rule {
        Rule::BadByte => 1,
        Rule::OpenComment => 2,
        Rule::OpenString => 3,
        Rule::BadLiteral => 4,
        Rule::Unexpected => 5,
        Rule::TooDeep => 6,
        Rule::Duplicate => 7,
        Rule::UnknownName => 8,
        Rule::UnknownPrimitive => 9,
        Rule::BadParameters => 10,
        Rule::Recursive => 11,
        Rule::NoMain => 12,
        Rule::LeftOut => 13,
        Rule::Width => 14,
        Rule::GuardWidth => 15,
        Rule::Literal => 16,
        Rule::NotATarget => 17,
        Rule::NotASource => 18,
        Rule::NoDone => 19,
        Rule::DoneNotState => 20,
        Rule::AlwaysEnable => 21,
        Rule::CombEnable => 22,
        Rule::StaticGuard => 23,
        Rule::StaticShape => 24,
        Rule::CallShape => 25,
        Rule::OutputNotState => 26,
        Rule::CombCycle => 27,
        Rule::Race => 28,
        Rule::Limit => 29,
        Rule::TooLarge => 30,
    }
}
