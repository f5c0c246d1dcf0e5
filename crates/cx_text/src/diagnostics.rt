//! What is told of a design that breaks a rule.

use crate::names::Name;
use crate::places::Place;
use crate::rules::Rule;

/// A break of a rule: which rule, where, and the name of the broken part, which is empty where the rule has none.
#[derive(Debug, Drop)]
pub struct Diagnostic {
    pub rule: Rule,
    pub place: Place,
    pub name: Name,
}
