//! The tokens of a whole file.

ghost use Rattle.std.specs.Prelude.{◌≡◌, OnOk, map};
ghost use Rattle.cx_ast.specs.PlainTree.{plain_component, plain_tree};
ghost use Rattle.cx_print.specs.declared.pieces.Gap.TheVariants.{Tight};
ghost use Rattle.cx_print.specs.Pieces.{add_component, add_import, add_from, behind_imports, add_tree};

use crate::components::component;
use crate::pieces::{Gap, Piece, sign, token, word};
use cx_ast::{ComponentItem, ImportItem, Sign, TokenKind, Tree};
use cx_text::{Memory, Name};
use std::alloc::Global;

// Adds an import.
fn import(alloc: Global, out: &mut Vec<Piece>, gap: Gap, item: &ImportItem) -> Result<(), Memory>
    ensures { OnOk result (out.new.items ≡ add_import gap item.now out.old.items) }
{
    word(alloc, out, gap, b"import")?;
    let path = Name::from_bytes(alloc, item.path.bytes())?;
    token(out, Gap::Space, TokenKind::Text(path))?;
    sign(out, Gap::Tight, Sign::Semicolon)
}

// Adds imports, each on its line.
fn imports(alloc: Global, out: &mut Vec<Piece>, items: &[ImportItem]) -> Result<(), Memory>
    ensures { OnOk result (out.new.items ≡ add_from add_import Tight items.now out.old.items) }
{
    let mut gap = Gap::Tight;
    for item in items {
        import(alloc, out, gap, item)?;
        gap = Gap::Line;
    }
    Ok(())
}

// What stands before the components.
fn behind(items: &[ImportItem]) -> Gap
    ensures { result ≡ behind_imports items.now }
{
    if items.is_empty() {
        Gap::Tight
    } else {
        Gap::Line
    }
}

// Adds components, one after the other.
fn components(
    alloc: Global,
    out: &mut Vec<Piece>,
    gap: Gap,
    items: &[ComponentItem],
) -> Result<(), Memory>
    ensures { OnOk result (out.new.items ≡ add_from add_component gap (map plain_component items.now) out.old.items) }
{
    let mut gap = gap;
    for item in items {
        component(alloc, out, gap, item)?;
        gap = Gap::Line;
    }
    Ok(())
}

/// Adds the tokens of a tree.
pub(crate) fn file(alloc: Global, out: &mut Vec<Piece>, tree: &Tree) -> Result<(), Memory>
    ensures { OnOk result (out.new.items ≡ add_tree (plain_tree tree.now) out.old.items) }
{
    imports(alloc, out, &tree.imports)?;
    components(alloc, out, behind(&tree.imports), &tree.components)
}
