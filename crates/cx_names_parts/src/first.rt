//! The first break of the rules on names in a tree.

ghost use Rattle.std.specs.Prelude.{◌≡◌, IfOk, OnOk, flat_map};
ghost use Rattle.cx_ast.specs.PlainTree.{plain_tree};
ghost use Rattle.cx_numbering.specs.NameRules.{begins_with as begins_with_of, import_breaks, main_breaks, name_breaks, names_break};
ghost use Rattle.cx_names_scopes.specs.Indexed.{IsIndex};
ghost use Rattle.cx_names_rules.specs.Found.{first_of};

use crate::components::components;
use cx_ast::{ImportItem, Tree};
use cx_names_rules::{component_duplicates, tell_if};
use cx_names_scopes::Index;
use cx_text::{Diagnostic, Memory, Name, Place, Rule};
use std::alloc::Global;

/// The first break of the rules on names, by place and then by the rule's number. None where the tree keeps them all.
pub fn first_name_break(alloc: Global, tree: &Tree) -> Result<Option<Diagnostic>, Memory>
    ensures value { IfOk result (λ found. found ≡ names_break (plain_tree tree.now)) }
{
    let index = Index::new(alloc, tree)?;
    let mut found = None;
    all_breaks(alloc, &mut found, tree, &index)?;
    Ok(found)
}

// Tells of a tree.
#[tactic(auto, using(cx_names_rules::proofs::FoundRules::in_turn))]
fn all_breaks(
    alloc: Global,
    found: &mut Option<Diagnostic>,
    tree: &Tree,
    index: &Index,
) -> Result<(), Memory>
    requires { IsIndex (plain_tree tree.now) index.now }
    ensures { OnOk result (found.new ≡ first_of found.old (name_breaks (plain_tree tree.now))) }
{
    main_break(alloc, found, tree, index)?;
    imports(alloc, found, &tree.imports)?;
    component_duplicates(alloc, found, &tree.components)?;
    components(alloc, found, tree, index)?;
    Ok(())
}

// Tells of a tree without main.
fn main_break(
    alloc: Global,
    found: &mut Option<Diagnostic>,
    tree: &Tree,
    index: &Index,
) -> Result<(), Memory>
    requires { IsIndex (plain_tree tree.now) index.now }
    ensures { OnOk result (found.new ≡ first_of found.old (main_breaks (plain_tree tree.now))) }
{
    let main = Name::from_bytes(alloc, b"main")?;
    let none = Name::from_bytes(alloc, b"")?;
    let is_absent = !index.components.has(&main);
    let start = Place { line: 1, column: 1 };
    tell_if(alloc, found, is_absent, Rule::NoMain, start, &none)
}

// Tells of an import of what is none of the libraries.
fn import(alloc: Global, found: &mut Option<Diagnostic>, item: &ImportItem) -> Result<(), Memory>
    ensures { OnOk result (found.new ≡ first_of found.old (import_breaks item.now)) }
{
    let is_other = !begins_with(b"primitives/", item.path.bytes());
    tell_if(
        alloc,
        found,
        is_other,
        Rule::LeftOut,
        item.place,
        &item.path,
    )
}

// Whether a text begins with another.
#[tactic(auto, using(crate::proofs::CellLemmas::begins_is))]
fn begins_with(start: &[u8], text: &[u8]) -> bool
    ensures { result ≡ begins_with_of start.now text.now }
{
    text.starts_with(start)
}

// Tells of the imports.
#[tactic(auto, using(cx_names_rules::proofs::FoundRules::in_turn))]
fn imports(
    alloc: Global,
    found: &mut Option<Diagnostic>,
    items: &[ImportItem],
) -> Result<(), Memory>
    ensures { OnOk result (found.new ≡ first_of found.old (flat_map import_breaks items.now)) }
{
    for item in items {
        import(alloc, found, item)?;
    }
    Ok(())
}
