//! The operands of guards, in source order.

ghost use Rattle.std.specs.Prelude.{◌≡◌, ◌++◌, [], OnOk, flat_map, option_map, map};
ghost use Rattle.cx_ast.specs.PlainGuards.{plain_guard, plain_guards, guards_of};
ghost use Rattle.cx_numbering.specs.NameRules.{source_breaks, operands_of, operands_in, guard_operands};
ghost use Rattle.cx_names_scopes.specs.Scopes.{IsScope, tree_in, part_in};
ghost use Rattle.cx_names_rules.specs.Found.{first_of};

use crate::operands::source;
use cx_ast::{GuardItem, OperandItem};
use cx_names_scopes::Scope;
use cx_text::{Diagnostic, Memory};
use std::alloc::Global;

/// Tells of the operands of the guard of an assignment, where there is one.
pub(crate) fn guard_sources(
    alloc: Global,
    found: &mut Option<Diagnostic>,
    scope: &Scope,
    guard: &Option<GuardItem>,
) -> Result<(), Memory>
    requires { IsScope scope.now }
    ensures { OnOk result (found.new ≡ first_of found.old
        (flat_map (source_breaks (tree_in scope.now) (part_in scope.now))
        (guard_operands (option_map plain_guard guard.now)))) }
{
    match guard {
        None => Ok(()),
        Some(guard) => sources(alloc, found, scope, guard),
    }
}

// Tells of the two operands of a comparison.
#[tactic(auto, using(crate::proofs::FoundRules::in_turn))]
fn both_sources(
    alloc: Global,
    found: &mut Option<Diagnostic>,
    scope: &Scope,
    left: &OperandItem,
    right: &OperandItem,
) -> Result<(), Memory>
    requires { IsScope scope.now }
    ensures { OnOk result (found.new ≡ first_of found.old
        (source_breaks (tree_in scope.now) (part_in scope.now) left.now ++
        (source_breaks (tree_in scope.now) (part_in scope.now) right.now ++ []))) }
{
    source(alloc, found, scope, left)?;
    source(alloc, found, scope, right)
}

// Tells of the operands of a guard.
#[cycle(sources)]
#[tactic(auto, using(crate::proofs::FoundRules::each_in_turn))]
fn sources(
    alloc: Global,
    found: &mut Option<Diagnostic>,
    scope: &Scope,
    guard: &GuardItem,
) -> Result<(), Memory>
    requires { IsScope scope.now }
    ensures { OnOk result (found.new ≡ first_of found.old
        (flat_map (source_breaks (tree_in scope.now) (part_in scope.now))
        (operands_of (plain_guard guard.now)))) }
{
    match guard {
        GuardItem::Or(parts) => all_sources(alloc, found, scope, parts),
        GuardItem::And(parts) => all_sources(alloc, found, scope, parts),
        GuardItem::Compare(_, left, right) => both_sources(alloc, found, scope, left, right),
        GuardItem::Not(part) => sources(alloc, found, scope, part),
        GuardItem::Operand(operand) => source(alloc, found, scope, operand),
        GuardItem::At(_) => Ok(()),
        GuardItem::During(_, _) => Ok(()),
    }
}

// Tells of the operands of guards.
#[cycle(sources)]
#[tactic(auto, using(crate::proofs::FoundRules::each_in_turn))]
fn all_sources(
    alloc: Global,
    found: &mut Option<Diagnostic>,
    scope: &Scope,
    guards: &[GuardItem],
) -> Result<(), Memory>
    requires { IsScope scope.now }
    ensures { OnOk result (found.new ≡ first_of found.old
        (flat_map (source_breaks (tree_in scope.now) (part_in scope.now))
        (operands_in (guards_of (plain_guards guards.now))))) }
{
    for guard in guards {
        sources(alloc, found, scope, guard)?;
    }
    Ok(())
}
