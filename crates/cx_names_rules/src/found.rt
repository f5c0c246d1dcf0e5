//! The first break so far.

ghost use Rattle.std.specs.Prelude.{◌≡◌, OnOk};
ghost use Rattle.cx_rules.specs.Accepted.{number_of, comes_before as comes_before_of};
ghost use Rattle.cx_numbering.specs.NameRules.{key_of, path_of, tell_if as tell_if_of};
ghost use Rattle.cx_names_rules.specs.Found.{replaces as replaces_of, kept, first_of};

use crate::paths::path;
use cx_ast::{OperandForm, OperandItem};
use cx_text::{Diagnostic, Memory, Name, Place, Rule};
use std::alloc::Global;

// The number of a rule, counted from 1.
fn number(rule: Rule) -> u8
    ensures { result ≡ number_of rule }
{
    rule as u8 + 1
}

// Whether a break comes before another: by place, then by the rule's number.
fn comes_before(first: &Diagnostic, second: &Diagnostic) -> bool
    ensures { result ≡ comes_before_of (key_of first.now) (key_of second.now) }
{
    let here = first.place;
    let there = second.place;
    here.line < there.line
        || (here.line == there.line
            && (here.column < there.column
                || (here.column == there.column && number(first.rule) < number(second.rule))))
}

// Whether a break takes the place of the first so far.
fn replaces(found: &Option<Diagnostic>, broken: &Diagnostic) -> bool
    ensures { result ≡ replaces_of found.now broken.now }
{
    match found {
        None => true,
        Some(first) => comes_before(broken, first),
    }
}

/// Keeps the first of a break and the first break so far.
pub fn keep(found: &mut Option<Diagnostic>, broken: Diagnostic)
    ensures { found.new ≡ kept found.old broken }
{
    if replaces(found, &broken) {
        *found = Some(broken);
    }
}

/// Tells of a part with a name, where it breaks a rule.
pub fn tell_if(
    alloc: Global,
    found: &mut Option<Diagnostic>,
    is_broken: bool,
    rule: Rule,
    place: Place,
    name: &Name,
) -> Result<(), Memory>
    ensures { OnOk result (found.new ≡ first_of found.old (tell_if_of is_broken rule place name.now)) }
{
    if !is_broken {
        return Ok(());
    }
    let name = Name::from_bytes(alloc, name.bytes())?;
    keep(found, Diagnostic { rule, place, name });
    Ok(())
}

/// Tells of a target or an operand, where it breaks a rule.
pub(crate) fn tell_form_if(
    alloc: Global,
    found: &mut Option<Diagnostic>,
    is_broken: bool,
    rule: Rule,
    item: &OperandItem,
) -> Result<(), Memory>
    ensures { OnOk result
        (found.new ≡ first_of found.old (tell_if_of is_broken rule item.now.place (path_of item.now.form))) }
{
    if !is_broken {
        return Ok(());
    }
    let name = path(alloc, &item.form)?;
    let place = item.place;
    keep(found, Diagnostic { rule, place, name });
    Ok(())
}
