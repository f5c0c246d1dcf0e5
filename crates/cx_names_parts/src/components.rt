//! The rules on what stands in a component.

ghost use Rattle.std.specs.Prelude.{◌≡◌, ◌++◌, true, false, Some, OnOk, is_some, slice_get, flat_map};
ghost use Rattle.cx_numbering.specs.Names.{primitive_of};
ghost use Rattle.cx_numbering.specs.NameRules as rules;
ghost use Rattle.cx_ast.specs.PlainTree.{plain_tree};
ghost use Rattle.cx_names_scopes.specs.Indexed.{IsIndex};
ghost use Rattle.cx_names_scopes.specs.Scopes.{IsScope, tree_in, part_in};
ghost use Rattle.cx_names_parts.specs.Leading.{AreCircles};
ghost use Rattle.cx_names_rules.specs.Found.{first_of};

use crate::CellCircles;
use crate::cells::cells;
use cx_ast::Tree;
use cx_names_rules::{
    cell_duplicates, component_assigns, component_statements, group_duplicates, is_main,
    port_duplicates, signature_ports, tell_if,
};
use cx_names_scopes::{Index, Scope};
use cx_prim::PrimitiveName;
use cx_text::{Diagnostic, Memory, Name, Rule};
use std::alloc::Global;

// Whether a primitive has the name.
fn is_primitive(name: &Name) -> bool
    ensures { result ≡ is_some (primitive_of name.now) }
{
    match PrimitiveName::from_text(name.bytes()) {
        Some(_) => true,
        None => false,
    }
}

// Tells of a component with the name of a primitive.
fn primitive_named(
    alloc: Global,
    found: &mut Option<Diagnostic>,
    scope: &Scope,
) -> Result<(), Memory>
    ensures { OnOk result (found.new ≡ first_of found.old (rules.primitive_named (part_in scope.now))) }
{
    let part = scope.part;
    let is_taken = is_primitive(&part.name);
    tell_if(
        alloc,
        found,
        is_taken,
        Rule::Duplicate,
        part.place,
        &part.name,
    )
}

// Tells of a main that is static.
fn main_static(alloc: Global, found: &mut Option<Diagnostic>, scope: &Scope) -> Result<(), Memory>
    ensures { OnOk result (found.new ≡ first_of found.old (rules.main_static (tree_in scope.now) (part_in scope.now))) }
{
    let part = scope.part;
    let is_broken = is_main(scope) && part.length.is_some();
    tell_if(
        alloc,
        found,
        is_broken,
        Rule::LeftOut,
        part.place,
        &part.name,
    )
}

// Tells of ports, cells and groups with the name of an earlier one.
#[tactic(auto, using(cx_names_rules::proofs::FoundRules::in_turn))]
fn duplicates(alloc: Global, found: &mut Option<Diagnostic>, scope: &Scope) -> Result<(), Memory>
    ensures { OnOk result (found.new ≡ first_of found.old (rules.component_duplicates (part_in scope.now))) }
{
    let part = scope.part;
    port_duplicates(alloc, found, &part.inputs, &part.outputs)?;
    cell_duplicates(alloc, found, &part.cells)?;
    group_duplicates(alloc, found, &part.wires)
}

// Tells of the name of a component and of the names in it.
#[tactic(auto, using(cx_names_rules::proofs::FoundRules::in_turn))]
fn names(alloc: Global, found: &mut Option<Diagnostic>, scope: &Scope) -> Result<(), Memory>
    ensures { OnOk result (found.new ≡ first_of found.old
        (rules.primitive_named (part_in scope.now) ++
        rules.main_static (tree_in scope.now) (part_in scope.now) ++
        rules.component_duplicates (part_in scope.now))) }
{
    primitive_named(alloc, found, scope)?;
    main_static(alloc, found, scope)?;
    duplicates(alloc, found, scope)
}

// Tells of the signature of a component.
#[tactic(auto, using(cx_names_rules::proofs::FoundRules::in_turn))]
fn signature(alloc: Global, found: &mut Option<Diagnostic>, scope: &Scope) -> Result<(), Memory>
    requires { IsScope scope.now }
    ensures { OnOk result (found.new ≡ first_of found.old
        (flat_map (rules.port_breaks (tree_in scope.now) (part_in scope.now) true)
        (part_in scope.now).inputs ++ flat_map
        (rules.port_breaks (tree_in scope.now) (part_in scope.now) false) (part_in scope.now).outputs)) }
{
    signature_ports(alloc, found, scope, true, &scope.part.inputs)?;
    signature_ports(alloc, found, scope, false, &scope.part.outputs)
}

// Tells of the assignments and the statements of a component.
#[tactic(auto, using(cx_names_rules::proofs::FoundRules::in_turn))]
fn body(alloc: Global, found: &mut Option<Diagnostic>, scope: &Scope) -> Result<(), Memory>
    requires { IsScope scope.now }
    ensures { OnOk result (found.new ≡ first_of found.old
        (flat_map (rules.assign_breaks (tree_in scope.now) (part_in scope.now))
        (rules.standing (part_in scope.now)) ++
        flat_map (λ v. rules.form_breaks (tree_in scope.now) (part_in scope.now) v.form v.place)
        (rules.statements_in (part_in scope.now)))) }
{
    component_assigns(alloc, found, scope)?;
    component_statements(alloc, found, scope)
}

// Tells of a component.
#[tactic(auto, using(cx_names_rules::proofs::FoundRules::in_turn))]
fn component(
    alloc: Global,
    found: &mut Option<Diagnostic>,
    scope: &Scope,
    circles: &CellCircles,
    number: usize,
) -> Result<(), Memory>
    requires scope { IsScope scope.now }
    requires circles { AreCircles (tree_in scope.now) circles.now }
    requires number { slice_get (tree_in scope.now).components number ≡ Some (part_in scope.now) }
    ensures { OnOk result
        (found.new ≡ first_of found.old (rules.component_breaks (tree_in scope.now) (part_in scope.now))) }
{
    names(alloc, found, scope)?;
    signature(alloc, found, scope)?;
    let leading = circles.leading(alloc, scope, number)?;
    cells(alloc, found, scope, &leading)?;
    body(alloc, found, scope)?;
    Ok(())
}

/// Tells of the components of a tree.
pub(crate) fn components(
    alloc: Global,
    found: &mut Option<Diagnostic>,
    tree: &Tree,
    index: &Index,
) -> Result<(), Memory>
    requires { IsIndex (plain_tree tree.now) index.now }
    ensures { OnOk result (found.new ≡ first_of found.old
        (flat_map (rules.component_breaks (plain_tree tree.now)) (plain_tree tree.now).components)) }
{
    let circles = CellCircles::new(alloc, tree, index)?;
    for number in 0..tree.components.len() {
        let scope = Scope::new(tree, index, number);
        component(alloc, found, &scope, &circles, number)?;
    }
    Ok(())
}
