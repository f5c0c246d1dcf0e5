//! Breaks of rules, and the first of them.

ghost use Rattle.std.specs.Prelude.{◌≡◌, ℕ, List, None};
ghost use Rattle.cx_meaning.specs.Designs.{PlainDesign};
ghost use Rattle.cx_rules.specs.Accepted.{key_of};
ghost use Rattle.cx_design_parts.specs.Breaks.{Broken, plain_break, plain_spot, earlier, first_of, is_first};
ghost use Rattle.cx_design_parts.specs.Answers.{AreBreaks, IsAnswer, answer_of};

use crate::keys::key_of;
use cx_design::Refusal;
use cx_text::{Diagnostic, Name, Place, Rule};
use std::marker::Model;

/// A part of a component, by its number in the component's list of its kind: an input that a static invoke binds, an assignment
/// in source order, a statement in pre-order, a group; or the component itself, with the number of a word of the rule.
#[derive(Clone, Copy, Debug, PartialEq, Eq)]
pub enum Part {
    Itself(usize),
    Bind(usize),
    Assign(usize),
    Statement(usize),
    Group(usize),
}

/// A part of a component of a design, both by their numbers.
#[derive(Clone, Copy, Debug, PartialEq, Eq)]
pub struct Spot {
    pub component: usize,
    pub part: Part,
}

/// A break of a rule: at which part, with the place and the name that are told.
#[derive(Debug, Drop)]
pub struct Break {
    pub rule: Rule,
    pub spot: Spot,
    pub place: Place,
    pub name: Name,
}

/// The first break so far: by place, then by the rule's number, then by the component and the part.
#[derive(Debug, Drop)]
pub struct FirstBreak {
    found: Option<Break>,
}

impl Model for FirstBreak {
    ghost use Rattle.std.specs.Prelude.{Option, option_map};
    ghost use Rattle.cx_design_parts.specs.Breaks as breaks;
    ghost use Rattle.cx_design_parts.specs.Breaks.{plain_break};

    ghost Value = { Option breaks.Broken };

    ghost view = { λ first. option_map plain_break first.found };
}

impl FirstBreak {
    /// None so far.
    pub fn new() -> FirstBreak
        ensures value { result ≡ None }
    {
        FirstBreak { found: None }
    }

    /// Whether a break of this rule here would be the first.
    pub fn is_first(&self, rule: Rule, spot: Spot, place: Place) -> bool
        ensures value { result ≡ is_first self.now (key_of rule (plain_spot spot) place) }
    {
        match &self.found {
            None => true,
            Some(found) => {
                key_of(rule, spot, place) < key_of(found.rule, found.spot, found.place)
            }
        }
    }

    /// Keeps a break if it is the first.
    pub fn keep(&mut self, found: Break)
        ensures value { self.new ≡ earlier self.old (plain_break found) }
    {
        if self.is_first(found.rule, found.spot, found.place) {
            self.found = Some(found);
        }
    }

    /// What a check of a stage answers: the first break, if there is one.
    pub fn result(self) -> Result<(), Refusal>
        ensures value { result ≡ answer_of self }
        ensures answer { (stage : ℕ) (d : PlainDesign) (found : List Broken) → AreBreaks stage d found →
            self ≡ first_of None found
            → IsAnswer stage d result }
    {
        answer(self)
    }
}

/// The answer of a check that found this.
fn answer(first: FirstBreak) -> Result<(), Refusal>
    ensures { result ≡ answer_of first }
{
    match first.found {
        None => Ok(()),
        Some(found) => Err(Refusal::Rule(Diagnostic {
            rule: found.rule,
            place: found.place,
            name: found.name,
        })),
    }
}
