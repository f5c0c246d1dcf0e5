//! The groups that the control of a component needs: those that it enables, and those that capture.

ghost use Rattle.std.specs.Prelude.{◌≡◌, ◌+◌, [], IfOk, length, map, set, true};
ghost use Rattle.cx_meaning.specs.Control.{groups_in, groups_in_all, groups_of};
ghost use Rattle.cx_rules.specs.Counts.{group_if};
ghost use Rattle.cx_rules.specs.Items.{option_list};
ghost use Rattle.cx_rules.specs.Sizes as sizes;
ghost use Rattle.cx_design.specs.PlainForms.{plain_component, plain_form, plain_group, plain_invoke, plain_statement, plain_statements};
ghost use Rattle.cx_design_sizes.specs.Capped.{capped};
ghost use Rattle.cx_limits.specs.Inners.{captures_by, flagged, needs_of, set_all};

use cx_design::{Component, Form, Group, Statement, StaticInvoke};
use cx_design_sizes::assigns_size;
use cx_text::Memory;
use std::alloc::Global;

/// Sets the flag of a group, where the group is there.
fn flag(flags: &mut [bool], group: u32)
    ensures { flags.new ≡ set flags.old group true }
{
    let group = group as usize;
    if group < flags.len() {
        flags[group] = true;
    }
}

/// Sets the flag of a group that may be.
fn flag_some(flags: &mut [bool], group: Option<u32>)
    ensures { flags.new ≡ set_all flags.old (option_list group) }
{
    if let Some(group) = group {
        flag(flags, group);
    }
}

/// Sets the flags of the groups of a statement.
#[cycle(groups)]
fn flag_groups(flags: &mut [bool], statement: &Statement)
    ensures { flags.new ≡ set_all flags.old (groups_of (plain_statement statement.now)) }
{
    flag_form(flags, &statement.form);
}

/// Sets the flags of the groups of a form.
#[cycle(groups)]
fn flag_form(flags: &mut [bool], form: &Form)
    ensures { flags.new ≡ set_all flags.old (groups_in (plain_form form.now)) }
{
    match form {
        Form::Empty | Form::StaticInvoke(_) | Form::Timed(_) => {}
        Form::Enable(group) => flag(flags, *group),
        Form::Seq(parts)
        | Form::Par(parts)
        | Form::StaticSeq { parts, .. }
        | Form::StaticPar { parts, .. } => flag_all(flags, parts),
        Form::If { comb, yes, no, .. } => {
            flag_some(flags, *comb);
            flag_groups(flags, yes);
            flag_groups(flags, no);
        }
        Form::StaticIf { yes, no, .. } => {
            flag_groups(flags, yes);
            flag_groups(flags, no);
        }
        Form::While { comb, body, .. } => {
            flag_some(flags, *comb);
            flag_groups(flags, body);
        }
        Form::Repeat { body, .. } | Form::StaticRepeat { body, .. } => flag_groups(flags, body),
    }
}

/// Sets the flags of the groups of statements.
#[cycle(groups)]
fn flag_all(flags: &mut [bool], parts: &[Statement])
    ensures { flags.new ≡ set_all flags.old (groups_in_all (plain_statements parts.now)) }
{
    for statement in parts {
        flag_groups(flags, statement);
    }
}

/// Sets the flags of the groups by which invokes capture.
fn flag_captures(flags: &mut [bool], invokes: &[StaticInvoke])
    ensures { flags.new ≡ set_all flags.old (captures_by (map plain_invoke invokes.now)) }
{
    for invoke in invokes {
        flag_some(flags, invoke.captures);
    }
}

/// How many groups are needed, and these with their assignments and nodes. Both stop at 2^64 - 1.
#[derive(Clone, Copy)]
pub struct Needed {
    pub groups: u64,
    pub size: u64,
}

/// One group more, where its flag is set.
fn with_group(needed: Needed, is_needed: bool, group: &Group) -> Needed
    ensures groups { result.groups ≡ capped (needed.groups + length (group_if is_needed (plain_group group.now) [])) }
    ensures size { result.size ≡
        capped (needed.size + sizes.groups_size (group_if is_needed (plain_group group.now) [])) }
{
    if !is_needed {
        return needed;
    }
    let size = assigns_size(group.assigns.as_slice()).saturating_add(1);
    Needed {
        groups: needed.groups.saturating_add(1),
        size: needed.size.saturating_add(size),
    }
}

/// The groups whose flag is set.
fn flagged_groups(flags: &[bool], groups: &[Group]) -> Needed
    requires sized { length flags.now ≡ length groups.now }
    ensures groups { result.groups ≡ capped (length (flagged flags.now (map plain_group groups.now))) }
    ensures size { result.size ≡ capped (sizes.groups_size (flagged flags.now (map plain_group groups.now))) }
{
    let mut needed = Needed { groups: 0, size: 0 };
    for number in 0..groups.len() {
        needed = with_group(needed, flags[number], &groups[number]);
    }
    needed
}

/// The groups that the control of a component needs, each once.
pub fn needed_groups(alloc: Global, part: &Component) -> Result<Needed, Memory>
    ensures groups { IfOk result (λ needed. needed.groups ≡ capped (length (needs_of (plain_component part.now)))) }
    ensures size { IfOk result
        (λ needed. needed.size ≡ capped (sizes.groups_size (needs_of (plain_component part.now)))) }
{
    let mut flags = vec![in alloc; false; part.groups.len()]?;
    flag_groups(&mut flags, &part.control);
    flag_captures(&mut flags, part.invokes.as_slice());
    Ok(flagged_groups(flags.as_slice(), part.groups.as_slice()))
}
