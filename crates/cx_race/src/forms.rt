//! The groups and conditions of a statement.

ghost use Rattle.std.specs.Prelude.{◌≡◌, ◌++◌, IfOk, flat_map};
ghost use Rattle.cx_meaning.specs.Control.{groups_of};
ghost use Rattle.cx_rules.specs.Items.{option_list, test_in, tests_of};
ghost use Rattle.cx_rules.specs.RaceRule.{enabled_group, enabled_in};
ghost use Rattle.cx_rules.specs.Invokes.{invoke_in, invokes_of};
ghost use Rattle.cx_design.specs.PlainForms.{plain_form, plain_statement, plain_statements};
ghost use Rattle.cx_race.specs.Forms.{forms_below, forms_in, forms_of, own_groups, plain_forms};

use cx_design::{Form, PlacedPort, Statement};
use cx_design_parts::test;
use cx_text::Memory;
use std::alloc::Global;

/// The groups that a statement enables. The comb groups of its conditions are not among them.
#[tactic(auto, using(crate::proofs::FormLemmas::enabled_by_forms))]
pub fn enabled(alloc: Global, statement: &Statement) -> Result<Vec<u32>, Memory>
    ensures value { IfOk result (λ groups. groups.items ≡ enabled_in (plain_statement statement.now)) }
{
    let forms = forms(alloc, statement)?;
    enabled_by(alloc, forms.as_slice())
}

/// The groups that a statement enables, with the comb groups of its conditions.
#[tactic(auto, using(crate::proofs::FormLemmas::groups_by_forms))]
pub fn groups(alloc: Global, statement: &Statement) -> Result<Vec<u32>, Memory>
    ensures value { IfOk result (λ groups. groups.items ≡ groups_of (plain_statement statement.now)) }
{
    let forms = forms(alloc, statement)?;
    groups_by(alloc, forms.as_slice())
}

/// The conditions in a statement.
#[tactic(auto, using(crate::proofs::FormLemmas::tests_by_forms))]
pub fn tests(alloc: Global, statement: &Statement) -> Result<Vec<PlacedPort>, Memory>
    ensures value { IfOk result (λ tests. tests.items ≡ tests_of (plain_statement statement.now)) }
{
    let forms = forms(alloc, statement)?;
    tests_by(alloc, forms.as_slice())
}

/// The numbers of the static invokes in a statement, in source order.
#[tactic(auto, using(crate::proofs::FormLemmas::invokes_by_forms))]
pub fn invokes(alloc: Global, statement: &Statement) -> Result<Vec<u32>, Memory>
    ensures value { IfOk result (λ numbers. numbers.items ≡ invokes_of (plain_statement statement.now)) }
{
    let forms = forms(alloc, statement)?;
    invokes_by(alloc, forms.as_slice())
}

fn enabled_by(alloc: Global, forms: &[&Form]) -> Result<Vec<u32>, Memory>
    ensures value { IfOk result (λ groups. groups.items ≡ flat_map enabled_group (plain_forms forms.now)) }
{
    let mut groups = Vec::new(alloc);
    for form in forms {
        add_enabled(&mut groups, form)?;
    }
    Ok(groups)
}

fn add_enabled(groups: &mut Vec<u32>, form: &Form) -> Result<(), Memory>
    ensures value { IfOk result (λ _. groups.new.items ≡ groups.old.items ++ enabled_group (plain_form form.now)) }
{
    match form {
        Form::Enable(group) => groups.push(*group)?,
        Form::Empty
        | Form::Seq(_)
        | Form::Par(_)
        | Form::If { .. }
        | Form::While { .. }
        | Form::Repeat { .. }
        | Form::StaticSeq { .. }
        | Form::StaticPar { .. }
        | Form::StaticIf { .. }
        | Form::StaticRepeat { .. }
        | Form::StaticInvoke(_)
        | Form::Timed(_) => {}
    }
    Ok(())
}

fn groups_by(alloc: Global, forms: &[&Form]) -> Result<Vec<u32>, Memory>
    ensures value { IfOk result (λ groups. groups.items ≡ flat_map own_groups (plain_forms forms.now)) }
{
    let mut groups = Vec::new(alloc);
    for form in forms {
        add_groups(&mut groups, form)?;
    }
    Ok(groups)
}

fn add_groups(groups: &mut Vec<u32>, form: &Form) -> Result<(), Memory>
    ensures value { IfOk result (λ _. groups.new.items ≡ groups.old.items ++ own_groups (plain_form form.now)) }
{
    match form {
        Form::Enable(group) => groups.push(*group)?,
        Form::If { comb, .. } | Form::While { comb, .. } => add_comb(groups, *comb)?,
        Form::Empty
        | Form::Seq(_)
        | Form::Par(_)
        | Form::Repeat { .. }
        | Form::StaticSeq { .. }
        | Form::StaticPar { .. }
        | Form::StaticIf { .. }
        | Form::StaticRepeat { .. }
        | Form::StaticInvoke(_)
        | Form::Timed(_) => {}
    }
    Ok(())
}

fn add_comb(groups: &mut Vec<u32>, comb: Option<u32>) -> Result<(), Memory>
    ensures value { IfOk result (λ _. groups.new.items ≡ groups.old.items ++ option_list comb) }
{
    if let Some(group) = comb {
        groups.push(group)?;
    }
    Ok(())
}

fn tests_by(alloc: Global, forms: &[&Form]) -> Result<Vec<PlacedPort>, Memory>
    ensures value { IfOk result
        (λ tests. tests.items ≡ flat_map (λ form. option_list (test_in form)) (plain_forms forms.now)) }
{
    let mut tests = Vec::new(alloc);
    for form in forms {
        add_test(&mut tests, form)?;
    }
    Ok(tests)
}

fn add_test(tests: &mut Vec<PlacedPort>, form: &Form) -> Result<(), Memory>
    ensures value { IfOk result
        (λ _. tests.new.items ≡ tests.old.items ++ option_list (test_in (plain_form form.now))) }
{
    if let Some(port) = test(form) {
        tests.push(port)?;
    }
    Ok(())
}

fn invokes_by(alloc: Global, forms: &[&Form]) -> Result<Vec<u32>, Memory>
    ensures value { IfOk result (λ numbers. numbers.items ≡ flat_map invoke_in (plain_forms forms.now)) }
{
    let mut numbers = Vec::new(alloc);
    for form in forms {
        add_invoke(&mut numbers, form)?;
    }
    Ok(numbers)
}

fn add_invoke(numbers: &mut Vec<u32>, form: &Form) -> Result<(), Memory>
    ensures value { IfOk result (λ _. numbers.new.items ≡ numbers.old.items ++ invoke_in (plain_form form.now)) }
{
    match form {
        Form::StaticInvoke(number) => numbers.push(*number)?,
        Form::Timed(number) => numbers.push(*number)?,
        Form::Empty
        | Form::Enable(_)
        | Form::Seq(_)
        | Form::Par(_)
        | Form::If { .. }
        | Form::While { .. }
        | Form::Repeat { .. }
        | Form::StaticSeq { .. }
        | Form::StaticPar { .. }
        | Form::StaticIf { .. }
        | Form::StaticRepeat { .. } => {}
    }
    Ok(())
}

/// The forms of a statement and of all statements in it, in pre-order.
fn forms(alloc: Global, statement: &Statement) -> Result<Vec<&Form>, Memory>
    ensures value { IfOk result (λ forms. plain_forms forms.items ≡ forms_of (plain_statement statement.now)) }
{
    let mut forms = Vec::new(alloc);
    add_statement(&mut forms, statement)?;
    Ok(forms)
}

#[cycle(forms)]
fn add_statement<'a>(forms: &mut Vec<&'a Form>, statement: &'a Statement) -> Result<(), Memory>
    ensures value { IfOk result (λ _.
        plain_forms forms.new.items ≡ plain_forms forms.old.items ++ forms_of (plain_statement statement.now)) }
{
    forms.push(&statement.form)?;
    add_below(forms, &statement.form)
}

#[cycle(forms)]
fn add_below<'a>(forms: &mut Vec<&'a Form>, form: &'a Form) -> Result<(), Memory>
    ensures value { IfOk result (λ _.
        plain_forms forms.new.items ≡ plain_forms forms.old.items ++ forms_below (plain_form form.now)) }
{
    match form {
        Form::Empty | Form::Enable(_) | Form::StaticInvoke(_) | Form::Timed(_) => Ok(()),
        Form::Seq(parts)
        | Form::Par(parts)
        | Form::StaticSeq { parts, .. }
        | Form::StaticPar { parts, .. } => add_all(forms, parts.as_slice()),
        Form::If { yes, no, .. } | Form::StaticIf { yes, no, .. } => {
            add_statement(forms, yes)?;
            add_statement(forms, no)
        }
        Form::While { body, .. } | Form::Repeat { body, .. } | Form::StaticRepeat { body, .. } => {
            add_statement(forms, body)
        }
    }
}

#[cycle(forms)]
fn add_all<'a>(forms: &mut Vec<&'a Form>, parts: &'a [Statement]) -> Result<(), Memory>
    ensures value { IfOk result (λ _.
        plain_forms forms.new.items ≡ plain_forms forms.old.items ++ forms_in (plain_statements parts.now)) }
{
    for part in parts {
        add_statement(forms, part)?;
    }
    Ok(())
}
