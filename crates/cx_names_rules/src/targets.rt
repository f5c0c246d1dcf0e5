//! The rules on targets.

ghost use Rattle.std.specs.Prelude.{◌≡◌, option_map};
ghost use Rattle.std.specs.Option.{option_copied};
ghost use Rattle.cx_ast.specs.PlainTree.{plain_assign};
ghost use Rattle.cx_numbering.specs.NameRules as rules;
ghost use Rattle.cx_names_scopes.specs.Scopes.{IsScope, tree_in, part_in};

use crate::operands::is_hole;
use cx_ast::{AssignItem, OperandForm};
use cx_names_scopes::{Scope, is_named};
use cx_text::Name;

// Whether this is the group that an assignment stands in.
fn is_group(scope: &Scope, group: Option<&Name>, name: &Name) -> bool
    ensures { result ≡ rules.is_group (tree_in scope.now) (part_in scope.now) (option_copied group.entry) name.now }
{
    match group {
        None => false,
        Some(group) => is_named(group, name.bytes()),
    }
}

/// Whether a target is a go, the done of another group, or in a group an output of the signature.
pub(crate) fn is_wrong_target(scope: &Scope, group: Option<&Name>, form: &OperandForm) -> bool
    requires { IsScope scope.now }
    ensures { result ≡
        rules.is_wrong_target (tree_in scope.now) (part_in scope.now) (option_copied group.entry) form.now }
{
    match form {
        OperandForm::Own(name) => group.is_some() && scope.is_output(name),
        OperandForm::Port(_, _) => false,
        OperandForm::Hole(name, hole) => is_named(hole, b"go") || !is_group(scope, group, name),
        OperandForm::Literal(_, _) => false,
    }
}

// Whether a source is 1'd1.
fn is_one(scope: &Scope, form: &OperandForm) -> bool
    ensures { result ≡ rules.is_one (tree_in scope.now) (part_in scope.now) form.now }
{
    match form {
        OperandForm::Own(_) => false,
        OperandForm::Port(_, _) => false,
        OperandForm::Hole(_, _) => false,
        OperandForm::Literal(width, value) => *width == 1 && *value == 1,
    }
}

/// Whether an assignment is a done of 1'd1 without a guard.
pub(crate) fn is_bare_done(scope: &Scope, assign: &AssignItem) -> bool
    ensures { result ≡ rules.is_bare_done (tree_in scope.now) (part_in scope.now) (plain_assign assign.now) }
{
    is_hole(scope, &assign.target.form)
        && assign.guard.is_none()
        && is_one(scope, &assign.source.form)
}
