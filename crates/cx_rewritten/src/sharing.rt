//! What `share` writes of a design.

ghost use Rattle.std.specs.Prelude.{◌≡◌, ◌++◌, IfOk};
ghost use Rattle.cx_ast.specs.PlainTree.{plain_tree};
ghost use Rattle.cx_design.specs.PlainDesigns.{plain_design};
ghost use Rattle.cx_numbering.specs.DesignOf.{design_of};
ghost use Rattle.cx_check.specs.Acceptance.{IsAcceptedTree};
ghost use Rattle.cx_print.specs.Printable.{IsPrintable};
ghost use Rattle.cx_rewritten.specs.Alike.{RunsAs};
ghost use Rattle.cx_rewritten.specs.Sources.{IsTreeOfText};
ghost use Rattle.cx_rewritten.specs.SharedTexts as texts;
ghost use Rattle.cx_rewritten.specs.SharedTexts.{IsSharedText, row_line};

use crate::lines::push_word;
use cx_ast::Tree;
use cx_design::Checked;
use cx_print::print;
use cx_share::{SharedRow, share};
use cx_text::Memory;
use std::alloc::Global;

/// Writes the tree in which one cell stands for those that are never used together, behind a line for each cell that is gone. The tree
/// is that of some text and accepted, and the design is its design.
pub fn share_text(alloc: Global, tree: &Tree, design: &Checked) -> Result<Vec<u8>, Memory>
    requires design { plain_design design.now ≡ design_of (plain_tree tree.now) }
    requires source { IsTreeOfText (plain_tree tree.now) }
    requires accepted { IsAcceptedTree (plain_tree tree.now) }
    ensures written { IfOk result (λ text. IsSharedText (plain_tree tree.now) text.items) }
    // What is written is accepted, and its design runs as the design of the tree, with static components too.
    ensures runs { IfOk result (λ text. RunsAs (plain_tree tree.now) text.items) }
{
    let text = written(alloc, tree, design)?;
    Ok(text)
}

/// The lines, and the printed tree behind them.
fn written(alloc: Global, tree: &Tree, design: &Checked) -> Result<Vec<u8>, Memory>
    requires design { plain_design design.now ≡ design_of (plain_tree tree.now) }
    requires printable { IsPrintable (plain_tree tree.now) }
    ensures { IfOk result (λ text. IsSharedText (plain_tree tree.now) text.items) }
{
    let sharing = share(alloc, tree, design)?;
    let mut text = lines(alloc, sharing.rows.as_slice())?;
    print(alloc, &sharing.tree, &mut text)?;
    Ok(text)
}

/// A line for each row.
fn lines(alloc: Global, rows: &[SharedRow]) -> Result<Vec<u8>, Memory>
    ensures { IfOk result (λ text. text.items ≡ texts.lines rows.now) }
{
    let mut text = Vec::new(alloc);
    for row in rows {
        push_line(&mut text, row)?;
    }
    Ok(text)
}

/// `// shared COMPONENT CELL KEPT`.
fn push_line(text: &mut Vec<u8>, row: &SharedRow) -> Result<(), Memory>
    ensures { IfOk result (λ _. text.new.items ≡ text.old.items ++ row_line row.now) }
{
    text.extend_from_slice(b"// shared")?;
    push_word(text, row.component.bytes())?;
    push_word(text, row.cell.bytes())?;
    push_word(text, row.kept.bytes())?;
    text.push(b'\n')?;
    Ok(())
}
