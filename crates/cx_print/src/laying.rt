//! The text of a tree.

ghost use Rattle.std.specs.Prelude.{◌≡◌, OnOk, OnErr};
ghost use Rattle.cx_ast.specs.PlainTree.{plain_tree};
ghost use Rattle.cx_print.specs.Pieces.{tokens_of};
ghost use Rattle.cx_print.specs.Layout.{AreWritable, AppendsTokens};

use crate::files::file;
use crate::rendering::render;
use cx_ast::Tree;
use cx_text::Memory;
use std::alloc::Global;

/// Appends a text of the tree: two spaces of indentation, one statement a line, parentheses only where they are needed.
/// Its tokens are those of the tree, whose names, numbers, literals and strings meet their rules.
pub fn lay_out(alloc: Global, tree: &Tree, out: &mut Vec<u8>) -> Result<(), Memory>
    requires { AreWritable (tokens_of (plain_tree tree.now)) }
    ensures ok { OnOk result (AppendsTokens (tokens_of (plain_tree tree.now)) out.old.items out.new.items) }
    ensures err { OnErr result (out.new.items ≡ out.old.items) }
{
    let mut pieces = Vec::new(alloc);
    file(alloc, &mut pieces, tree)?;
    let mut text = Vec::new(alloc);
    render(&mut text, &pieces)?;
    out.extend_from_slice(&text)?;
    Ok(())
}
