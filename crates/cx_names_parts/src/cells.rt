//! The rules on cells.

ghost use Rattle.std.specs.Prelude.{◌≡◌, ◌≢◌, ◌&&◌, not, nat_eq, nat_le, is_none, codes, OnOk, flat_map};
ghost use Rattle.cx_ast.specs.PlainTree.{plain_cell};
ghost use Rattle.cx_prim.specs.Table.{row_at, row_of};
ghost use Rattle.cx_rules.specs.Wellformed.{is_memory as is_memory_of, first_number};
ghost use Rattle.cx_numbering.specs.Names.{same_name, is_on as is_on_of, has_attribute as has_attribute_of, has_mark as has_mark_of, is_external as is_external_of, cell_of};
ghost use Rattle.cx_numbering.specs.NameRules as rules;
ghost use Rattle.cx_names_scopes.specs.Scopes.{IsScope, IsKind, kind_of, tree_in, part_in};
ghost use Rattle.cx_names_parts.specs.Leading.{IsLeading, StandsIn, is_recursive as is_recursive_of};
ghost use Rattle.cx_names_rules.specs.Found.{first_of};
ghost use Rattle.cx_names_parts.specs.Memories.{is_memory_name as is_memory_name_of};

use crate::is_recursive;
use cx_ast::{Attribute, CellItem, Mark};
use cx_names_rules::{is_main, tell_if};
use cx_names_scopes::{CellKind, Scope, is_named, primitive_row};
use cx_prim::PrimitiveName;
use cx_text::{Diagnostic, Memory, Rule};
use std::alloc::Global;

// Tells of a cell of what is not there, and of numbers that break its row or that a component does not take.
fn kind_break(
    alloc: Global,
    found: &mut Option<Diagnostic>,
    scope: &Scope,
    cell: &CellItem,
    kind: &CellKind,
) -> Result<(), Memory>
    requires { IsKind kind.now }
    ensures { OnOk result (found.new ≡ first_of found.old
        (rules.kind_breaks (tree_in scope.now) (part_in scope.now) (plain_cell cell.now) (kind_of kind.now))) }
{
    match kind {
        CellKind::Unknown => {
            tell_if(
                alloc,
                found,
                true,
                Rule::UnknownPrimitive,
                cell.place,
                &cell.kind,
            )
        }
        CellKind::Primitive { name, numbers } => {
            let is_bad = breaks_row(*name, numbers);
            tell_if(
                alloc,
                found,
                is_bad,
                Rule::BadParameters,
                cell.place,
                &cell.name,
            )
        }
        CellKind::Component { .. } => {
            let has_numbers = !cell.numbers.is_empty();
            tell_if(
                alloc,
                found,
                has_numbers,
                Rule::BadParameters,
                cell.place,
                &cell.name,
            )
        }
    }
}

// Whether numbers break the row of a primitive.
fn breaks_row(name: PrimitiveName, numbers: &[u64]) -> bool
    requires { name ≢ PrimitiveName.Timer }
    ensures { result ≡ is_none (row_at name numbers.now) }
{
    primitive_row(name, numbers).is_none()
}

// Whether an attribute or a mark is on: one without a number is, and one with another number than 0.
fn is_on(number: Option<u64>) -> bool
    ensures { result ≡ is_on_of number }
{
    match number {
        None => true,
        Some(number) => number != 0,
    }
}

// Whether this is the attribute @external, and on.
fn is_external_attribute(attribute: &Attribute) -> bool
    ensures { result ≡ (same_name attribute.now.name (codes "external") && is_on_of attribute.now.number) }
{
    is_named(&attribute.name, b"external") && is_on(attribute.number)
}

// Whether attributes have @external.
fn has_attribute(attributes: &[Attribute]) -> bool
    ensures { result ≡ has_attribute_of (codes "external") attributes.now }
{
    for attribute in attributes {
        if is_external_attribute(attribute) {
            return true;
        }
    }
    false
}

// Whether this is the mark external, and on.
fn is_external_mark(mark: &Mark) -> bool
    ensures { result ≡ (same_name mark.now.name (codes "external") && not (nat_eq mark.now.number 0)) }
{
    is_named(&mark.name, b"external") && mark.number != 0
}

// Whether marks have external.
fn has_mark(marks: &[Mark]) -> bool
    ensures { result ≡ has_mark_of (codes "external") marks.now }
{
    for mark in marks {
        if is_external_mark(mark) {
            return true;
        }
    }
    false
}

/// Whether a cell is external.
pub fn is_external(cell: &CellItem) -> bool
    ensures { result ≡ is_external_of (plain_cell cell.now) }
{
    has_attribute(&cell.attributes) || has_mark(&cell.marks)
}

// Whether a primitive of this name is a memory.
fn is_memory_name(name: PrimitiveName) -> bool
    ensures { result ≡ is_memory_name_of name }
{
    match name {
        PrimitiveName::StdMemD1
        | PrimitiveName::StdMemD2
        | PrimitiveName::StdMemD3
        | PrimitiveName::StdMemD4
        | PrimitiveName::CombMemD1
        | PrimitiveName::CombMemD2
        | PrimitiveName::CombMemD3
        | PrimitiveName::CombMemD4
        | PrimitiveName::SeqMemD1
        | PrimitiveName::SeqMemD2
        | PrimitiveName::SeqMemD3
        | PrimitiveName::SeqMemD4 => true,
        _ => false,
    }
}

// Whether a primitive is a memory.
fn is_memory(name: PrimitiveName, numbers: &[u64]) -> bool
    requires { name ≢ PrimitiveName.Timer }
    ensures { result ≡ is_memory_of (row_of (record { name = name; numbers = numbers.now })).shape }
{
    is_memory_name(name) && !breaks_row(name, numbers)
}

// Whether the first number, if any, is at most 64.
fn is_narrow(numbers: &[u64]) -> bool
    ensures { result ≡ nat_le (first_number numbers.now) 64 }
{
    match numbers {
        [] => true,
        [first, ..] => *first <= 64,
    }
}

// Whether what a cell is of is a memory with words of at most 64 bits.
fn is_narrow_memory(scope: &Scope, kind: &CellKind) -> bool
    requires { IsKind kind.now }
    ensures { result ≡ rules.is_narrow_memory (tree_in scope.now) (part_in scope.now) (kind_of kind.now) }
{
    match kind {
        CellKind::Unknown => false,
        CellKind::Primitive { name, numbers } => is_memory(*name, numbers) && is_narrow(numbers),
        CellKind::Component { .. } => false,
    }
}

// Whether a cell is external and may not be: it is no memory of main, or one with wide words.
fn is_wrongly_external(scope: &Scope, cell: &CellItem, kind: &CellKind) -> bool
    requires { IsKind kind.now }
    ensures { result ≡ (is_external_of (plain_cell cell.now) &&
        not (rules.is_main (tree_in scope.now) (part_in scope.now) &&
        rules.is_narrow_memory (tree_in scope.now) (part_in scope.now) (kind_of kind.now))) }
{
    is_external(cell) && !(is_main(scope) && is_narrow_memory(scope, kind))
}

// Tells of a cell that may not be external.
fn external_break(
    alloc: Global,
    found: &mut Option<Diagnostic>,
    scope: &Scope,
    cell: &CellItem,
    kind: &CellKind,
) -> Result<(), Memory>
    requires kind { IsKind kind.now }
    requires of_cell { kind_of kind.now ≡ cell_of (tree_in scope.now) (plain_cell cell.now) }
    ensures { OnOk result (found.new ≡ first_of found.old
        (rules.external_breaks (tree_in scope.now) (part_in scope.now) (plain_cell cell.now))) }
{
    let is_wrong = is_wrongly_external(scope, cell, kind);
    tell_if(
        alloc,
        found,
        is_wrong,
        Rule::LeftOut,
        cell.place,
        &cell.name,
    )
}

// Tells of a cell that leads back to its component.
fn recursive_break(
    alloc: Global,
    found: &mut Option<Diagnostic>,
    scope: &Scope,
    leading: &Option<Vec<bool>>,
    cell: &CellItem,
) -> Result<(), Memory>
    requires scope { IsScope scope.now }
    requires leading { IsLeading (tree_in scope.now) (part_in scope.now) leading.now }
    requires stands { StandsIn (part_in scope.now).cells (plain_cell cell.now) }
    ensures { OnOk result (found.new ≡ first_of found.old
        (rules.recursive_breaks (tree_in scope.now) (part_in scope.now) (plain_cell cell.now))) }
{
    let is_broken = is_recursive(scope, leading, cell);
    tell_if(
        alloc,
        found,
        is_broken,
        Rule::Recursive,
        cell.place,
        &cell.name,
    )?;
    Ok(())
}

// Tells of a cell.
#[tactic(auto, using(cx_names_rules::proofs::FoundRules::in_turn))]
fn cell_break(
    alloc: Global,
    found: &mut Option<Diagnostic>,
    scope: &Scope,
    leading: &Option<Vec<bool>>,
    cell: &CellItem,
) -> Result<(), Memory>
    requires scope { IsScope scope.now }
    requires leading { IsLeading (tree_in scope.now) (part_in scope.now) leading.now }
    requires stands { StandsIn (part_in scope.now).cells (plain_cell cell.now) }
    ensures { OnOk result (found.new ≡
        first_of found.old (rules.cell_breaks (tree_in scope.now) (part_in scope.now) (plain_cell cell.now))) }
{
    let kind = scope.kind(cell);
    kind_break(alloc, found, scope, cell, &kind)?;
    external_break(alloc, found, scope, cell, &kind)?;
    recursive_break(alloc, found, scope, leading, cell)
}

/// Tells of the cells of a component.
#[tactic(auto, using(cx_names_rules::proofs::FoundRules::in_turn))]
pub(crate) fn cells(
    alloc: Global,
    found: &mut Option<Diagnostic>,
    scope: &Scope,
    leading: &Option<Vec<bool>>,
) -> Result<(), Memory>
    requires scope { IsScope scope.now }
    requires leading { IsLeading (tree_in scope.now) (part_in scope.now) leading.now }
    ensures { OnOk result (found.new ≡ first_of found.old
        (flat_map (rules.cell_breaks (tree_in scope.now) (part_in scope.now)) (part_in scope.now).cells)) }
{
    for cell in &scope.part.cells {
        cell_break(alloc, found, scope, leading, cell)?;
    }
    Ok(())
}
