//! Sizes of components.

ghost use Rattle.std.specs.Prelude.{◌≡◌, map};
ghost use Rattle.cx_design.specs.PlainDesigns.{plain_design};
ghost use Rattle.cx_design.specs.PlainForms.{plain_assigns, plain_component, plain_form, plain_group, plain_guard, plain_statement, plain_statements};
ghost use Rattle.cx_meaning.specs.Designs.{guards_of};
ghost use Rattle.cx_rules.specs.Items as items;
ghost use Rattle.cx_rules.specs.Items.{visit, visit_parts, visit_all};
ghost use Rattle.cx_rules.specs.Sizes as sizes;
ghost use Rattle.cx_design_sizes.specs.Capped.{capped};
ghost use Rattle.cx_design_sizes.specs.StatementSizes.{context_of, occurrences_at, statements_size};

use crate::context::{LimitContext, below_dynamic};
use crate::islands::{form_occurrences, is_island_form};
use cx_design::{Assign, Component, Design, Form, Group, Guard, Statement};

/// The nodes of a guard.
#[cycle(guard)]
fn guard_nodes(guard: &Guard) -> u64
    ensures { result ≡ capped (items.guard_nodes (plain_guard guard.now)) }
{
    match guard {
        Guard::True => 0,
        Guard::Port(_) | Guard::Compare(_, _, _) | Guard::During(_, _) => 1,
        Guard::Not(part) => guard_nodes(part).saturating_add(1),
        Guard::And(parts) | Guard::Or(parts) => nodes_in(parts).saturating_add(1),
    }
}

/// The nodes of guards together.
#[cycle(guard)]
fn nodes_in(guards: &[Guard]) -> u64
    ensures { result ≡ capped (items.nodes_in (guards_of (map plain_guard guards.now))) }
{
    let mut nodes = 0u64;
    for guard in guards {
        nodes = nodes.saturating_add(guard_nodes(guard));
    }
    nodes
}

/// Assignments, each with the nodes of its guard.
pub fn assigns_size(assigns: &[Assign]) -> u64
    ensures { result ≡ capped (sizes.assigns_size (plain_assigns assigns.now)) }
{
    let mut size = 0u64;
    for assign in assigns {
        size = size
            .saturating_add(guard_nodes(&assign.guard))
            .saturating_add(1);
    }
    size
}

/// Groups, each with its assignments.
pub fn groups_size(groups: &[Group]) -> u64
    ensures { result ≡ capped (sizes.groups_size (map plain_group groups.now)) }
{
    let mut size = 0u64;
    for group in groups {
        size = size
            .saturating_add(assigns_size(&group.assigns))
            .saturating_add(1);
    }
    size
}

/// The occurrences of a statement that is an island.
fn island_occurrences(part: &Component, context: LimitContext, statement: &Statement) -> u64
    ensures { result ≡ capped
        (occurrences_at (plain_component part.now) (context_of context) (plain_statement statement.now)) }
{
    if context == LimitContext::Dynamic && is_island_form(part, &statement.form) {
        form_occurrences(part, &statement.form)
    } else {
        0
    }
}

/// A statement with all in it, and the occurrences of islands.
#[cycle(statement)]
fn statement_size(part: &Component, context: LimitContext, statement: &Statement) -> u64
    ensures { result ≡ capped (statements_size (plain_component part.now)
        (visit (context_of context) (plain_statement statement.now))) }
{
    parts_size(part, context, &statement.form)
        .saturating_add(island_occurrences(part, context, statement))
        .saturating_add(1)
}

/// What is in a form that stands so, and the occurrences of islands.
#[cycle(statement)]
fn parts_size(part: &Component, context: LimitContext, form: &Form) -> u64
    ensures { result ≡ capped (statements_size (plain_component part.now)
        (visit_parts (context_of context) (plain_form form.now))) }
{
    match form {
        Form::Empty | Form::Enable(_) | Form::StaticInvoke(_) | Form::Timed(_) => 0,
        Form::Seq(parts) | Form::Par(parts) => all_size(part, below_dynamic(context), parts),
        Form::StaticSeq { parts, .. } | Form::StaticPar { parts, .. } => {
            all_size(part, LimitContext::InStatic, parts)
        }
        Form::If { yes, no, .. } => {
            let one = statement_size(part, below_dynamic(context), yes);
            one.saturating_add(statement_size(part, below_dynamic(context), no))
        }
        Form::StaticIf { yes, no, .. } => {
            let one = statement_size(part, LimitContext::Branch, yes);
            one.saturating_add(statement_size(part, LimitContext::Branch, no))
        }
        Form::While { body, .. } | Form::Repeat { body, .. } => {
            statement_size(part, below_dynamic(context), body)
        }
        Form::StaticRepeat { body, .. } => statement_size(part, LimitContext::InStatic, body),
    }
}

/// Statements with all in them, and the occurrences of islands.
#[cycle(statement)]
fn all_size(part: &Component, context: LimitContext, statements: &[Statement]) -> u64
    ensures { result ≡ capped (statements_size (plain_component part.now)
        (visit_all (context_of context) (plain_statements statements.now))) }
{
    let mut size = 0u64;
    for statement in statements {
        size = size.saturating_add(statement_size(part, context, statement));
    }
    size
}

/// The size of a component.
pub fn component_size(part: &Component) -> u64
    ensures { result ≡ capped (sizes.size_of (plain_component part.now)) }
{
    let ports = (part.inputs.len() as u64).saturating_add(part.outputs.len() as u64);
    ports
        .saturating_add(part.cells.len() as u64)
        .saturating_add(groups_size(&part.groups))
        .saturating_add(assigns_size(&part.always))
        .saturating_add(statement_size(part, LimitContext::Dynamic, &part.control))
}

/// The size of a design: the sizes of its components together, and one more for each.
pub fn design_size(design: &Design) -> u64
    ensures { result ≡ sizes.design_size (plain_design design.now) }
{
    components_size(&design.components)
}

/// Components, each with one more than its size. The sum stops at 2^64 - 1.
fn components_size(parts: &[Component]) -> u64
    ensures { result ≡ capped (sizes.sizes_of (map plain_component parts.now)) }
{
    let mut size = 0u64;
    for part in parts {
        size = size.saturating_add(component_size(part)).saturating_add(1);
    }
    size
}
