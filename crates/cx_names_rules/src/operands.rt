//! The rules on operands: names that are not there, and what is left out.

ghost use Rattle.std.specs.Prelude.{◌≡◌, ◌&&◌, ◌||◌, OnOk, codes};
ghost use Rattle.cx_numbering.specs.Names.{is_among, same_name, cell_among, group_names};
ghost use Rattle.cx_numbering.specs.NameRules as rules;
ghost use Rattle.cx_names_scopes.specs.Scopes.{IsScope, tree_in, part_in};
ghost use Rattle.cx_names_rules.specs.Found.{first_of};

use crate::found::tell_form_if;
use cx_ast::{OperandForm, OperandItem};
use cx_names_scopes::{CellKind, Scope, is_named, is_own_name};
use cx_text::{Diagnostic, Memory, Name, Rule};
use std::alloc::Global;

// Whether a cell of the name is there and has the port.
pub(crate) fn has_cell_port(scope: &Scope, cell: &Name, port: &Name) -> bool
    requires { IsScope scope.now }
    ensures { result ≡ is_among port.now (rules.cell_ports (tree_in scope.now) (part_in scope.now) cell.now) }
{
    match scope.cell(cell) {
        None => false,
        Some(found) => scope.kind(found).has_port(port),
    }
}

// Whether a cell of the name is there and is of a component.
fn is_of_component(scope: &Scope, cell: &Name) -> bool
    requires { IsScope scope.now }
    ensures { result ≡ rules.found_component (tree_in scope.now) (part_in scope.now)
        (cell_among cell.now (part_in scope.now).cells) }
{
    let Some(found) = scope.cell(cell) else {
        return false;
    };
    match scope.kind(found) {
        CellKind::Unknown => false,
        CellKind::Primitive { .. } => false,
        CellKind::Component { .. } => true,
    }
}

/// Whether a port is clk or reset of a component's cell.
pub(crate) fn is_clock(scope: &Scope, cell: &Name, port: &Name) -> bool
    requires { IsScope scope.now }
    ensures { result ≡ rules.is_clock (tree_in scope.now) (part_in scope.now) cell.now port.now }
{
    is_of_component(scope, cell) && (is_named(port, b"clk") || is_named(port, b"reset"))
}

/// Whether a port is go or done of a cell of a static component.
pub(crate) fn is_static_end(scope: &Scope, cell: &Name, port: &Name) -> bool
    requires { IsScope scope.now }
    ensures { result ≡ rules.is_static_end (tree_in scope.now) (part_in scope.now) cell.now port.now }
{
    scope.latency(cell).is_some() && (is_named(port, b"go") || is_named(port, b"done"))
}

// Whether a hole is one of a group that is there.
fn is_known_hole(scope: &Scope, group: &Name, hole: &Name) -> bool
    requires { IsScope scope.now }
    ensures { result ≡ (is_among group.now (group_names (part_in scope.now)) &&
        (same_name hole.now (codes "go") || same_name hole.now (codes "done"))) }
{
    scope.group(group).is_some() && (is_named(hole, b"go") || is_named(hole, b"done"))
}

// Whether an operand names a port, cell, group or hole that is not there.
fn is_unknown(scope: &Scope, form: &OperandForm) -> bool
    requires { IsScope scope.now }
    ensures { result ≡ rules.is_unknown (tree_in scope.now) (part_in scope.now) form.now }
{
    match form {
        OperandForm::Own(name) => !(scope.is_own(name) || is_own_name(name)),
        OperandForm::Port(cell, port) => {
            !(has_cell_port(scope, cell, port) || is_clock(scope, cell, port))
        }
        OperandForm::Hole(group, hole) => !is_known_hole(scope, group, hole),
        OperandForm::Literal(_, _) => false,
    }
}

// Whether an operand is an own port that every component has, a clock of a component's cell, or go or done of a static one.
pub(crate) fn is_left_out(scope: &Scope, form: &OperandForm) -> bool
    requires { IsScope scope.now }
    ensures { result ≡ rules.is_left_out (tree_in scope.now) (part_in scope.now) form.now }
{
    match form {
        OperandForm::Own(name) => is_own_name(name),
        OperandForm::Port(cell, port) => {
            is_clock(scope, cell, port) || is_static_end(scope, cell, port)
        }
        OperandForm::Hole(_, _) => false,
        OperandForm::Literal(_, _) => false,
    }
}

/// Whether an operand is a hole.
pub(crate) fn is_hole(scope: &Scope, form: &OperandForm) -> bool
    ensures { result ≡ rules.is_hole (tree_in scope.now) (part_in scope.now) form.now }
{
    match form {
        OperandForm::Own(_) => false,
        OperandForm::Port(_, _) => false,
        OperandForm::Hole(_, _) => true,
        OperandForm::Literal(_, _) => false,
    }
}

/// Tells of an operand that names what is not there.
pub(crate) fn unknown(
    alloc: Global,
    found: &mut Option<Diagnostic>,
    scope: &Scope,
    item: &OperandItem,
) -> Result<(), Memory>
    requires { IsScope scope.now }
    ensures { OnOk result
        (found.new ≡ first_of found.old (rules.unknown (tree_in scope.now) (part_in scope.now) item.now)) }
{
    let is_broken = is_unknown(scope, &item.form);
    tell_form_if(alloc, found, is_broken, Rule::UnknownName, item)
}

/// Tells of a source, an operand of a guard or a condition that is not there or is left out.
#[tactic(auto, using(crate::proofs::FoundRules::in_turn))]
pub(crate) fn source(
    alloc: Global,
    found: &mut Option<Diagnostic>,
    scope: &Scope,
    item: &OperandItem,
) -> Result<(), Memory>
    requires { IsScope scope.now }
    ensures { OnOk result (found.new ≡
        first_of found.old (rules.source_breaks (tree_in scope.now) (part_in scope.now) item.now)) }
{
    unknown(alloc, found, scope, item)?;
    let is_broken = is_left_out(scope, &item.form) || is_hole(scope, &item.form);
    tell_form_if(alloc, found, is_broken, Rule::LeftOut, item)
}
