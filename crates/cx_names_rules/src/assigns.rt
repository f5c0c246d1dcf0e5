//! The rules on assignments.

ghost use Rattle.std.specs.Prelude.{◌≡◌, ◌||◌, None, Some, OnOk, flat_map, map};
ghost use Rattle.std.specs.Option.{option_copied};
ghost use Rattle.cx_ast.specs.PlainTree.{plain_assign, plain_group, plain_wire};
ghost use Rattle.cx_numbering.specs.Names.{always_in, groups_in};
ghost use Rattle.cx_numbering.specs.NameRules.{assign_breaks, standing, is_left_out as is_left_out_of, is_wrong_target as is_wrong_target_of, is_bare_done as is_bare_done_of};
ghost use Rattle.cx_names_scopes.specs.Scopes.{IsScope, tree_in, part_in};
ghost use Rattle.cx_names_rules.specs.Found.{first_of};

use crate::found::tell_form_if;
use crate::guards::guard_sources;
use crate::operands::{is_left_out, source, unknown};
use crate::targets::{is_bare_done, is_wrong_target};
use cx_ast::{AssignItem, GroupItem, WireItem};
use cx_names_scopes::Scope;
use cx_text::{Diagnostic, Memory, Name, Rule};
use std::alloc::Global;

// Whether a target is one that assignments may not have.
fn is_wrong(scope: &Scope, group: Option<&Name>, item: &AssignItem) -> bool
    requires { IsScope scope.now }
    ensures { result ≡ ((is_left_out_of (tree_in scope.now) (part_in scope.now) item.now.target.form ||
        is_wrong_target_of (tree_in scope.now) (part_in scope.now)
        (option_copied group.entry) item.now.target.form) ||
        is_bare_done_of (tree_in scope.now) (part_in scope.now) (plain_assign item.now)) }
{
    is_left_out(scope, &item.target.form)
        || is_wrong_target(scope, group, &item.target.form)
        || is_bare_done(scope, item)
}

// Tells of an assignment in a group, or of a continuous one.
#[tactic(auto, using(crate::proofs::FoundRules::in_turn))]
fn assign(
    alloc: Global,
    found: &mut Option<Diagnostic>,
    scope: &Scope,
    group: Option<&Name>,
    item: &AssignItem,
) -> Result<(), Memory>
    requires { IsScope scope.now }
    ensures { OnOk result (found.new ≡ first_of found.old
        (assign_breaks (tree_in scope.now) (part_in scope.now)
        (record { group = option_copied group.entry; assign = plain_assign item.now }))) }
{
    unknown(alloc, found, scope, &item.target)?;
    let is_broken = is_wrong(scope, group, item);
    tell_form_if(alloc, found, is_broken, Rule::LeftOut, &item.target)?;
    source(alloc, found, scope, &item.source)?;
    guard_sources(alloc, found, scope, &item.guard)
}

// Tells of the continuous assignments.
#[tactic(auto, using(crate::proofs::FoundRules::in_turn))]
fn always(
    alloc: Global,
    found: &mut Option<Diagnostic>,
    scope: &Scope,
    wires: &[WireItem],
) -> Result<(), Memory>
    requires { IsScope scope.now }
    ensures { OnOk result (found.new ≡ first_of found.old
        (flat_map (assign_breaks (tree_in scope.now) (part_in scope.now))
        (map (λ a. record { group = None; assign = a }) (always_in (map plain_wire wires.now))))) }
{
    for wire in wires {
        let WireItem::Assign(item) = wire else {
            continue;
        };
        assign(alloc, found, scope, None, item)?;
    }
    Ok(())
}

// Tells of the assignments of a group.
#[tactic(auto, using(crate::proofs::FoundRules::in_turn))]
fn group_assigns(
    alloc: Global,
    found: &mut Option<Diagnostic>,
    scope: &Scope,
    group: &GroupItem,
) -> Result<(), Memory>
    requires { IsScope scope.now }
    ensures { OnOk result (found.new ≡ first_of found.old
        (flat_map (assign_breaks (tree_in scope.now) (part_in scope.now))
        (map (λ a. record { group = Some (plain_group group.now).name; assign = a })
        (plain_group group.now).assigns))) }
{
    for item in &group.assigns {
        assign(alloc, found, scope, Some(&group.name), item)?;
    }
    Ok(())
}

// Tells of the assignments of the groups.
#[tactic(auto, using(crate::proofs::FoundRules::each_in_turn))]
fn groups_assigns(
    alloc: Global,
    found: &mut Option<Diagnostic>,
    scope: &Scope,
    wires: &[WireItem],
) -> Result<(), Memory>
    requires { IsScope scope.now }
    ensures { OnOk result (found.new ≡ first_of found.old
        (flat_map (assign_breaks (tree_in scope.now) (part_in scope.now))
        (flat_map (λ g. map (λ a. record { group = Some g.name; assign = a }) g.assigns)
        (groups_in (map plain_wire wires.now))))) }
{
    for wire in wires {
        let WireItem::Group(group) = wire else {
            continue;
        };
        group_assigns(alloc, found, scope, group)?;
    }
    Ok(())
}

/// Tells of the assignments of a component: the continuous ones, and then those of the groups.
#[tactic(auto, using(crate::proofs::FoundRules::each_in_turn))]
pub fn component_assigns(
    alloc: Global,
    found: &mut Option<Diagnostic>,
    scope: &Scope,
) -> Result<(), Memory>
    requires { IsScope scope.now }
    ensures { OnOk result (found.new ≡ first_of found.old
        (flat_map (assign_breaks (tree_in scope.now) (part_in scope.now)) (standing (part_in scope.now)))) }
{
    always(alloc, found, scope, &scope.part.wires)?;
    groups_assigns(alloc, found, scope, &scope.part.wires)
}
