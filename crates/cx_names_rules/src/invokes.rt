//! The rules on invokes.

ghost use Rattle.std.specs.Prelude.{◌≡◌, ◌||◌, [], ◌++◌, OnOk, not, flat_map};
ghost use Rattle.cx_numbering.specs.Names.{cell_among, is_among, cell_go};
ghost use Rattle.cx_numbering.specs.NameRules as rules;
ghost use Rattle.cx_names_scopes.specs.Scopes.{IsScope, tree_in, part_in, kind_of, IsKind};
ghost use Rattle.cx_names_rules.specs.Found.{first_of};

use crate::duplicates::bind_duplicates;
use crate::found::{tell_form_if, tell_if};
use crate::operands::{has_cell_port, is_clock, is_static_end, source, unknown};
use cx_ast::{BindItem, OperandForm};
use cx_names_scopes::{CellKind, Scope, is_named};
use cx_text::{Diagnostic, Memory, Name, Place, Rule};
use std::alloc::Global;

// Whether a target is `in` of a register.
fn is_register_in(scope: &Scope, form: &OperandForm) -> bool
    requires { IsScope scope.now }
    ensures { result ≡ rules.is_register_in (tree_in scope.now) (part_in scope.now) form.now }
{
    match form {
        OperandForm::Own(_) => false,
        OperandForm::Port(cell, port) => is_of_register(scope, cell) && is_named(port, b"in"),
        OperandForm::Hole(_, _) => false,
        OperandForm::Literal(_, _) => false,
    }
}

// Whether a cell of the name is there and is a register.
fn is_of_register(scope: &Scope, cell: &Name) -> bool
    requires { IsScope scope.now }
    ensures { result ≡ rules.found_reg (tree_in scope.now) (part_in scope.now)
        (cell_among cell.now (part_in scope.now).cells) }
{
    match scope.cell(cell) {
        None => false,
        Some(found) => scope.kind(found).is_reg(scope),
    }
}

// Whether a name is the go port of a kind of cell.
fn is_go(scope: &Scope, kind: &CellKind, name: &Name) -> bool
    ensures { result ≡ rules.is_go_name (tree_in scope.now) (part_in scope.now) (cell_go (kind_of kind.now)) name.now }
{
    match kind.go() {
        None => false,
        Some(go) => is_named(name, go.as_bytes()),
    }
}

// Whether a cell has no port of the name.
fn lacks_port(scope: &Scope, cell: &Name, port: &Name) -> bool
    requires { IsScope scope.now }
    ensures { result ≡ not (is_among port.now
        (rules.cell_ports (tree_in scope.now) (part_in scope.now) cell.now) ||
        rules.is_clock (tree_in scope.now) (part_in scope.now) cell.now port.now) }
{
    !(has_cell_port(scope, cell, port) || is_clock(scope, cell, port))
}

// Whether a port is no input that an invoke may bind.
fn is_no_input(scope: &Scope, cell: &Name, kind: &CellKind, port: &Name) -> bool
    requires scope { IsScope scope.now }
    requires kind { IsKind kind.now }
    ensures { result ≡ ((is_among port.now
        (rules.output_names (tree_in scope.now) (part_in scope.now) (kind_of kind.now)) ||
        rules.is_go_name (tree_in scope.now) (part_in scope.now) (cell_go (kind_of kind.now)) port.now) ||
        rules.is_clock (tree_in scope.now) (part_in scope.now) cell.now port.now) }
{
    kind.has_output(scope, port) || is_go(scope, kind, port) || is_clock(scope, cell, port)
}

// Whether a port is no output that an invoke may bind.
fn is_no_output(scope: &Scope, cell: &Name, kind: &CellKind, port: &Name) -> bool
    requires scope { IsScope scope.now }
    requires kind { IsKind kind.now }
    ensures { result ≡ (not
        (is_among port.now (rules.output_names (tree_in scope.now) (part_in scope.now) (kind_of kind.now))) ||
        rules.is_static_end (tree_in scope.now) (part_in scope.now) cell.now port.now) }
{
    !kind.has_output(scope, port) || is_static_end(scope, cell, port)
}

// Tells of an input of an invoke.
#[tactic(auto, using(crate::proofs::FoundRules::in_turn))]
fn input(
    alloc: Global,
    found: &mut Option<Diagnostic>,
    scope: &Scope,
    cell: &Name,
    kind: &CellKind,
    bind: &BindItem,
) -> Result<(), Memory>
    requires scope { IsScope scope.now }
    requires kind { IsKind kind.now }
    ensures { OnOk result (found.new ≡ first_of found.old
        (rules.input_breaks (tree_in scope.now) (part_in scope.now) cell.now (kind_of kind.now) bind.now)) }
{
    let is_absent = lacks_port(scope, cell, &bind.name);
    tell_if(
        alloc,
        found,
        is_absent,
        Rule::UnknownName,
        bind.place,
        &bind.name,
    )?;
    let is_wrong = is_no_input(scope, cell, kind, &bind.name);
    tell_if(
        alloc,
        found,
        is_wrong,
        Rule::LeftOut,
        bind.place,
        &bind.name,
    )?;
    source(alloc, found, scope, &bind.value)
}

// Tells of an output of an invoke.
#[tactic(auto, using(crate::proofs::FoundRules::in_turn))]
fn output(
    alloc: Global,
    found: &mut Option<Diagnostic>,
    scope: &Scope,
    cell: &Name,
    kind: &CellKind,
    bind: &BindItem,
) -> Result<(), Memory>
    requires scope { IsScope scope.now }
    requires kind { IsKind kind.now }
    ensures { OnOk result (found.new ≡ first_of found.old
        (rules.output_breaks (tree_in scope.now) (part_in scope.now) cell.now (kind_of kind.now) bind.now)) }
{
    let is_absent = lacks_port(scope, cell, &bind.name);
    tell_if(
        alloc,
        found,
        is_absent,
        Rule::UnknownName,
        bind.place,
        &bind.name,
    )?;
    let is_wrong = is_no_output(scope, cell, kind, &bind.name);
    tell_if(
        alloc,
        found,
        is_wrong,
        Rule::LeftOut,
        bind.place,
        &bind.name,
    )?;
    unknown(alloc, found, scope, &bind.value)?;
    let is_other = !is_register_in(scope, &bind.value.form);
    tell_form_if(alloc, found, is_other, Rule::LeftOut, &bind.value)
}

// Tells of the inputs of an invoke.
#[tactic(auto, using(crate::proofs::FoundRules::in_turn))]
fn inputs(
    alloc: Global,
    found: &mut Option<Diagnostic>,
    scope: &Scope,
    cell: &Name,
    kind: &CellKind,
    binds: &[BindItem],
) -> Result<(), Memory>
    requires scope { IsScope scope.now }
    requires kind { IsKind kind.now }
    ensures { OnOk result (found.new ≡ first_of found.old
        (flat_map
        (rules.input_breaks (tree_in scope.now) (part_in scope.now) cell.now (kind_of kind.now)) binds.now)) }
{
    for bind in binds {
        input(alloc, found, scope, cell, kind, bind)?;
    }
    Ok(())
}

// Tells of the outputs of an invoke.
#[tactic(auto, using(crate::proofs::FoundRules::in_turn))]
fn outputs(
    alloc: Global,
    found: &mut Option<Diagnostic>,
    scope: &Scope,
    cell: &Name,
    kind: &CellKind,
    binds: &[BindItem],
) -> Result<(), Memory>
    requires scope { IsScope scope.now }
    requires kind { IsKind kind.now }
    ensures { OnOk result (found.new ≡ first_of found.old
        (flat_map
        (rules.output_breaks (tree_in scope.now) (part_in scope.now) cell.now (kind_of kind.now)) binds.now)) }
{
    for bind in binds {
        output(alloc, found, scope, cell, kind, bind)?;
    }
    Ok(())
}

// Tells of the cell of an invoke and of what is bound.
#[tactic(auto, using(crate::proofs::FoundRules::in_turn))]
fn bound(
    alloc: Global,
    found: &mut Option<Diagnostic>,
    scope: &Scope,
    cell: &Name,
    inputs_bound: &[BindItem],
    outputs_bound: &[BindItem],
    place: Place,
) -> Result<(), Memory>
    requires { IsScope scope.now }
    ensures { OnOk result (found.new ≡ first_of found.old
        (rules.invoke_on (tree_in scope.now)
        (part_in scope.now) cell.now inputs_bound.now outputs_bound.now place
        (cell_among cell.now (part_in scope.now).cells))) }
{
    let Some(item) = scope.cell(cell) else {
        return tell_if(alloc, found, true, Rule::UnknownName, place, cell);
    };
    let kind = scope.kind(item);
    let is_without_go = kind.go().is_none();
    tell_if(alloc, found, is_without_go, Rule::LeftOut, place, cell)?;
    inputs(alloc, found, scope, cell, &kind, inputs_bound)?;
    outputs(alloc, found, scope, cell, &kind, outputs_bound)
}

/// Tells of an invoke.
#[tactic(auto, using(crate::proofs::FoundRules::in_turn))]
pub(crate) fn invoke(
    alloc: Global,
    found: &mut Option<Diagnostic>,
    scope: &Scope,
    cell: &Name,
    inputs_bound: &[BindItem],
    outputs_bound: &[BindItem],
    place: Place,
) -> Result<(), Memory>
    requires { IsScope scope.now }
    ensures { OnOk result (found.new ≡ first_of found.old
        (rules.duplicates [] (rules.bind_names inputs_bound.now) ++
        rules.duplicates [] (rules.bind_names outputs_bound.now) ++
        rules.invoke_on (tree_in scope.now)
        (part_in scope.now) cell.now inputs_bound.now outputs_bound.now place
        (cell_among cell.now (part_in scope.now).cells))) }
{
    bind_duplicates(alloc, found, inputs_bound)?;
    bind_duplicates(alloc, found, outputs_bound)?;
    bound(
        alloc,
        found,
        scope,
        cell,
        inputs_bound,
        outputs_bound,
        place,
    )
}
