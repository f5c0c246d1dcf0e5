//! What `promote` writes of a design.

ghost use Rattle.std.specs.Prelude.{◌≡◌, ◌++◌, IfOk};
ghost use Rattle.cx_ast.specs.PlainTree.{plain_tree};
ghost use Rattle.cx_design.specs.PlainDesigns.{plain_design};
ghost use Rattle.cx_numbering.specs.DesignOf.{design_of};
ghost use Rattle.cx_names.specs.Targets.{HasTargets};
ghost use Rattle.cx_check.specs.Acceptance.{IsAcceptedTree};
ghost use Rattle.cx_print.specs.Printable.{IsPrintable};
ghost use Rattle.cx_rewritten.specs.NoLater.{EndsNoLater};
ghost use Rattle.cx_rewritten.specs.Sources.{IsTreeOfText};
ghost use Rattle.cx_rewritten.specs.PromotedTexts as texts;
ghost use Rattle.cx_rewritten.specs.PromotedTexts.{IsPromotedText, row_line};

use crate::laws::promoted_texts_end_no_later;
use crate::lines::{push_number, push_word};
use cx_ast::Tree;
use cx_design::Checked;
use cx_print::print;
use cx_promote::{PromotedRow, promote};
use cx_text::Memory;
use std::alloc::Global;

/// Writes the tree in which groups of known length are static and runs of them static seqs, behind a line for each such group. The
/// tree is that of some text and accepted, and the design is its design.
pub fn promote_text(alloc: Global, tree: &Tree, design: &Checked) -> Result<Vec<u8>, Memory>
    requires design { plain_design design.now ≡ design_of (plain_tree tree.now) }
    requires source { IsTreeOfText (plain_tree tree.now) }
    requires accepted { IsAcceptedTree (plain_tree tree.now) }
    ensures written { IfOk result (λ text. IsPromotedText (plain_tree tree.now) text.items) }
    // What is written is accepted, and its design ends no later than the design of the tree, in the same state.
    ensures runs { IfOk result (λ text. EndsNoLater (plain_tree tree.now) text.items) }
{
    promoted_texts_end_no_later();
    let text = written(alloc, tree, design)?;
    Ok(text)
}

/// The lines, and the printed tree behind them.
fn written(alloc: Global, tree: &Tree, design: &Checked) -> Result<Vec<u8>, Memory>
    requires design { plain_design design.now ≡ design_of (plain_tree tree.now) }
    requires accepted { IsAcceptedTree (plain_tree tree.now) }
    requires targets { HasTargets (plain_tree tree.now) }
    requires printable { IsPrintable (plain_tree tree.now) }
    ensures { IfOk result (λ text. IsPromotedText (plain_tree tree.now) text.items) }
{
    let promotion = promote(alloc, tree, design)?;
    let mut text = lines(alloc, promotion.rows.as_slice())?;
    print(alloc, &promotion.tree, &mut text)?;
    Ok(text)
}

/// A line for each row.
fn lines(alloc: Global, rows: &[PromotedRow]) -> Result<Vec<u8>, Memory>
    ensures { IfOk result (λ text. text.items ≡ texts.lines rows.now) }
{
    let mut text = Vec::new(alloc);
    for row in rows {
        push_line(&mut text, row)?;
    }
    Ok(text)
}

/// `// promoted COMPONENT GROUP N`.
fn push_line(text: &mut Vec<u8>, row: &PromotedRow) -> Result<(), Memory>
    ensures { IfOk result (λ _. text.new.items ≡ text.old.items ++ row_line row.now) }
{
    text.extend_from_slice(b"// promoted")?;
    push_word(text, row.component.bytes())?;
    push_word(text, row.group.bytes())?;
    push_number(text, row.cycles)?;
    text.push(b'\n')?;
    Ok(())
}
