//! The rules on statements.

ghost use Rattle.std.specs.Prelude.{◌≡◌, ◌++◌, OnOk, flat_map, option_map};
ghost use Rattle.cx_ast.specs.PlainStatements.{plain_form, plain_statement, plain_block, else_of};
ghost use Rattle.cx_numbering.specs.Names.{group_among, groups_in};
ghost use Rattle.cx_numbering.specs.NameRules.{enable_breaks, with_breaks, form_breaks, visit_parts, visit_block, visit_else, is_comb_group as is_comb_group_of, statements_in, is_comb_word, source_breaks};
ghost use Rattle.cx_names_scopes.specs.Scopes.{IsScope, tree_in, part_in};
ghost use Rattle.cx_names_rules.specs.Found.{first_of};
ghost use Rattle.cx_names_rules.specs.Visits.{visit_statement};

use crate::found::tell_if;
use crate::invokes::invoke;
use crate::operands::source;
use cx_ast::{Block, GroupWord, OperandItem, StatementForm, StatementItem};
use cx_names_scopes::Scope;
use cx_text::{Diagnostic, Memory, Name, Place, Rule};
use std::alloc::Global;

// Whether a group of the name is there and is a comb group.
fn is_comb_group(scope: &Scope, name: &Name) -> bool
    requires { IsScope scope.now }
    ensures { result ≡ is_comb_group_of (tree_in scope.now) (part_in scope.now)
        (group_among name.now (groups_in (part_in scope.now).wires)) }
{
    match scope.group(name) {
        None => false,
        Some(word) => is_comb(scope, word),
    }
}

// Whether a word is that of a comb group.
fn is_comb(scope: &Scope, word: GroupWord) -> bool
    ensures { result ≡ is_comb_word (tree_in scope.now) (part_in scope.now) word }
{
    match word {
        GroupWord::Plain => false,
        GroupWord::Comb => true,
        GroupWord::Timed(_) => false,
    }
}

// Tells of the enable of a group that is not there, or is a comb group.
#[tactic(auto, using(crate::proofs::FoundRules::in_turn))]
fn enable(
    alloc: Global,
    found: &mut Option<Diagnostic>,
    scope: &Scope,
    name: &Name,
    place: Place,
) -> Result<(), Memory>
    requires { IsScope scope.now }
    ensures { OnOk result (found.new ≡
        first_of found.old (enable_breaks (tree_in scope.now) (part_in scope.now) name.now place)) }
{
    let is_absent = scope.group(name).is_none();
    tell_if(alloc, found, is_absent, Rule::UnknownName, place, name)?;
    let is_comb = is_comb_group(scope, name);
    tell_if(alloc, found, is_comb, Rule::LeftOut, place, name)
}

// Tells of a `with` that names no group, or no comb group.
#[tactic(auto, using(crate::proofs::FoundRules::in_turn))]
fn with(
    alloc: Global,
    found: &mut Option<Diagnostic>,
    scope: &Scope,
    comb: &Option<Name>,
    place: Place,
) -> Result<(), Memory>
    requires { IsScope scope.now }
    ensures { OnOk result (found.new ≡
        first_of found.old (with_breaks (tree_in scope.now) (part_in scope.now) comb.now place)) }
{
    let Some(name) = comb else {
        return Ok(());
    };
    let is_absent = scope.group(name).is_none();
    tell_if(alloc, found, is_absent, Rule::UnknownName, place, name)?;
    let is_other = !is_comb_group(scope, name);
    tell_if(alloc, found, is_other, Rule::LeftOut, place, name)
}

// Tells of a condition and of its `with`.
#[tactic(auto, using(crate::proofs::FoundRules::in_turn))]
fn tested(
    alloc: Global,
    found: &mut Option<Diagnostic>,
    scope: &Scope,
    comb: &Option<Name>,
    test: &OperandItem,
    place: Place,
) -> Result<(), Memory>
    requires { IsScope scope.now }
    ensures { OnOk result (found.new ≡ first_of found.old
        (with_breaks (tree_in scope.now) (part_in scope.now) comb.now place ++
        source_breaks (tree_in scope.now) (part_in scope.now) test.now)) }
{
    with(alloc, found, scope, comb, place)?;
    source(alloc, found, scope, test)
}

// Tells of a statement without the statements in it.
#[tactic(auto, using(crate::proofs::FoundRules::in_turn))]
fn form(
    alloc: Global,
    found: &mut Option<Diagnostic>,
    scope: &Scope,
    form: &StatementForm,
    place: Place,
) -> Result<(), Memory>
    requires { IsScope scope.now }
    ensures { OnOk result (found.new ≡
        first_of found.old (form_breaks (tree_in scope.now) (part_in scope.now) (plain_form form.now) place)) }
{
    match form {
        StatementForm::Enable { group, .. } => enable(alloc, found, scope, group, place),
        StatementForm::If { test, comb, .. } => tested(alloc, found, scope, comb, test, place),
        StatementForm::StaticIf { test, .. } => source(alloc, found, scope, test),
        StatementForm::While { test, comb, .. } => {
            tested(alloc, found, scope, comb, test, place)
        }
        StatementForm::Invoke {
            cell,
            inputs,
            outputs,
        } => invoke(alloc, found, scope, cell, inputs, outputs, place),
        StatementForm::StaticInvoke {
            cell,
            inputs,
            outputs,
            ..
        } => invoke(alloc, found, scope, cell, inputs, outputs, place),
        _ => Ok(()),
    }
}

// Tells of a statement and of those in it.
#[cycle(visits)]
#[tactic(auto, using(crate::proofs::FoundRules::each_in_turn))]
fn statement(
    alloc: Global,
    found: &mut Option<Diagnostic>,
    scope: &Scope,
    item: &StatementItem,
) -> Result<(), Memory>
    requires { IsScope scope.now }
    ensures { OnOk result (found.new ≡ first_of found.old
        (flat_map (λ v. form_breaks (tree_in scope.now) (part_in scope.now) v.form v.place)
        (visit_statement (plain_statement item.now)))) }
{
    placed(alloc, found, scope, &item.form, item.place)
}

// Tells of what stands at a place and of the statements in it.
#[cycle(visits)]
#[tactic(auto, using(crate::proofs::FoundRules::in_turn))]
fn placed(
    alloc: Global,
    found: &mut Option<Diagnostic>,
    scope: &Scope,
    item: &StatementForm,
    place: Place,
) -> Result<(), Memory>
    requires { IsScope scope.now }
    ensures { OnOk result (found.new ≡ first_of found.old
        (form_breaks (tree_in scope.now) (part_in scope.now) (plain_form item.now) place ++
        flat_map (λ v. form_breaks (tree_in scope.now) (part_in scope.now) v.form v.place)
        (visit_parts (plain_form item.now)))) }
{
    form(alloc, found, scope, item, place)?;
    parts(alloc, found, scope, item)
}

// Tells of the statements of a block.
#[cycle(visits)]
#[tactic(auto, using(crate::proofs::FoundRules::each_in_turn))]
fn block(
    alloc: Global,
    found: &mut Option<Diagnostic>,
    scope: &Scope,
    block: &Block,
) -> Result<(), Memory>
    requires { IsScope scope.now }
    ensures { OnOk result (found.new ≡ first_of found.old
        (flat_map (λ v. form_breaks (tree_in scope.now) (part_in scope.now) v.form v.place)
        (visit_block (plain_block block.now)))) }
{
    for item in &block.statements {
        statement(alloc, found, scope, item)?;
    }
    Ok(())
}

// Tells of the statements behind `else`, where it is there.
#[cycle(visits)]
#[tactic(auto, using(crate::proofs::FoundRules::each_in_turn))]
fn otherwise(
    alloc: Global,
    found: &mut Option<Diagnostic>,
    scope: &Scope,
    no: &Option<Block>,
) -> Result<(), Memory>
    requires { IsScope scope.now }
    ensures { OnOk result (found.new ≡ first_of found.old
        (flat_map (λ v. form_breaks (tree_in scope.now) (part_in scope.now) v.form v.place)
        (visit_else (else_of (option_map plain_block no.now))))) }
{
    match no {
        None => Ok(()),
        Some(body) => block(alloc, found, scope, body),
    }
}

// Tells of the statements in a statement.
#[cycle(visits)]
#[tactic(auto, using(crate::proofs::FoundRules::each_in_turn))]
fn parts(
    alloc: Global,
    found: &mut Option<Diagnostic>,
    scope: &Scope,
    form: &StatementForm,
) -> Result<(), Memory>
    requires { IsScope scope.now }
    ensures { OnOk result (found.new ≡ first_of found.old
        (flat_map (λ v. form_breaks (tree_in scope.now) (part_in scope.now) v.form v.place)
        (visit_parts (plain_form form.now)))) }
{
    match form {
        StatementForm::Seq { block: body, .. }
        | StatementForm::Par { block: body, .. }
        | StatementForm::StaticSeq { block: body, .. }
        | StatementForm::StaticPar { block: body, .. }
        | StatementForm::While { body, .. }
        | StatementForm::Repeat { body, .. }
        | StatementForm::StaticRepeat { body, .. } => block(alloc, found, scope, body),
        StatementForm::If { yes, no, .. } | StatementForm::StaticIf { yes, no, .. } => {
            block(alloc, found, scope, yes)?;
            otherwise(alloc, found, scope, no)?;
            Ok(())
        }
        StatementForm::Enable { .. }
        | StatementForm::Invoke { .. }
        | StatementForm::StaticInvoke { .. } => Ok(()),
    }
}

/// Tells of the statements of a component.
#[tactic(auto, using(crate::proofs::FoundRules::each_in_turn))]
pub fn component_statements(
    alloc: Global,
    found: &mut Option<Diagnostic>,
    scope: &Scope,
) -> Result<(), Memory>
    requires { IsScope scope.now }
    ensures { OnOk result (found.new ≡ first_of found.old
        (flat_map (λ v. form_breaks (tree_in scope.now) (part_in scope.now) v.form v.place)
        (statements_in (part_in scope.now)))) }
{
    match &scope.part.control {
        None => Ok(()),
        Some(body) => block(alloc, found, scope, body),
    }
}
