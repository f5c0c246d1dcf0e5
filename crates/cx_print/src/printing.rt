//! The text of a tree.

ghost use Rattle.std.specs.Prelude.{◌≡◌, OnOk, OnErr};
ghost use Rattle.cx_ast.specs.PlainTree.{plain_tree};
ghost use Rattle.cx_print.specs.Printable.{IsPrintable};
ghost use Rattle.cx_print.specs.Printed.{AppendsTree};

use crate::lay_out;
use cx_ast::Tree;
use cx_text::Memory;
use std::alloc::Global;

/// Appends a text that is read as an equal tree apart from places: two spaces of indentation, one statement a line,
/// parentheses only where they are needed.
#[tactic(auto, using(crate::proofs::PrintLemmas::tree_appended))]
pub fn print(alloc: Global, tree: &Tree, out: &mut Vec<u8>) -> Result<(), Memory>
    requires { IsPrintable (plain_tree tree.now) }
    ensures ok { OnOk result (AppendsTree (plain_tree tree.now) out.old.items out.new.items) }
    ensures err { OnErr result (out.new.items ≡ out.old.items) }
{
    lay_out(alloc, tree, out)?;
    Ok(())
}
