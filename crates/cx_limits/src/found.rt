//! A limit that is exceeded, and the first one.

ghost use Rattle.std.specs.Prelude.{◌≡◌};
ghost use Rattle.cx_limits.specs.Scan as scan;

use cx_text::Place;

/// What a limit is on.
#[derive(Clone, Copy, Debug, PartialEq, Eq)]
pub enum Limited {
    Cells,
    Groups,
    Repeat,
    Occurrences,
    Latency,
    Instances,
    Depth,
    Words,
    Weight,
}

/// A limit that is exceeded, and the place that is told.
#[derive(Clone, Copy, Debug, PartialEq, Eq)]
pub struct FoundBreak {
    pub place: Place,
    pub limited: Limited,
}

impl Limited {
    ghost use Rattle.std.specs.Prelude.{◌≡◌};
    ghost use Rattle.cx_rules.specs.LimitRule.{word_of};
    ghost use Rattle.cx_limits.specs.Scan.{limited_of};

    /// The word that messages tell.
    pub fn text(self) -> &'static str
        ensures { result.now ≡ word_of (limited_of self) }
    {
        match self {
            Limited::Cells => "cells",
            Limited::Groups => "groups",
            Limited::Repeat => "repeat",
            Limited::Occurrences => "occurrences",
            Limited::Latency => "latency",
            Limited::Instances => "instances",
            Limited::Depth => "depth",
            Limited::Words => "words",
            Limited::Weight => "weight",
        }
    }
}

/// Whether a place stands before another.
fn stands_before(one: Place, other: Place) -> bool
    ensures { result ≡ scan.stands_before one other }
{
    one.line < other.line || (one.line == other.line && one.column < other.column)
}

/// The first so far, where one thing more is looked at.
pub fn noted(best: Option<FoundBreak>, place: Place, limited: Option<Limited>) -> Option<FoundBreak>
    ensures { result ≡ scan.noted best place limited }
{
    let Some(limited) = limited else {
        return best;
    };
    let found = FoundBreak { place, limited };
    match best {
        Some(earlier) if !stands_before(place, earlier.place) => best,
        _ => Some(found),
    }
}
