//! Laws of written texts: each function does nothing but call others, and its clauses are the law.

ghost use Rattle.std.specs.Prelude.{ℕ, List};
ghost use Rattle.cx_ast.specs.PlainTree.{PlainTree};
ghost use Rattle.cx_rules.specs.Wellformed.{IsDesign};
ghost use Rattle.cx_numbering.specs.DesignOf.{design_of};
ghost use Rattle.cx_check.specs.Acceptance.{IsAcceptedTree};
ghost use Rattle.cx_print.specs.Printable.{IsPrintable};
ghost use Rattle.cx_promotion.specs.declared.rows.PromotedRow.{PromotedRow};
ghost use Rattle.cx_promotion.specs.Rewriting.{IsPromotedTree};
ghost use Rattle.cx_sharing.specs.SharedTree.{shared_tree};
ghost use Rattle.cx_rewritten.specs.Ordered.{KeepsOrder};
ghost use Rattle.cx_rewritten.specs.Written.{IsReadAs};
ghost use Rattle.cx_rewritten.specs.Sources.{IsTreeOfText};
ghost use Rattle.cx_rewritten.specs.PromotedTexts.{IsPromotedText};
ghost use Rattle.cx_rewritten.specs.SharedTexts.{IsSharedText};
ghost use Rattle.cx_rewritten.specs.Alike.{RunsAs};
ghost use Rattle.cx_rewritten.specs.NoLater.{EndsNoLater};

use cx_promote::laws::{promoted_is_accepted, promoted_trees_run_quicker};

/// The lines of what is shared in the tree of a text, and behind them the shared tree as it is printed, are read as the shared tree, at
/// other places. Where the tree is accepted, what is written is accepted; it has the same external memories; and its design, with its
/// static components, ends in the same turn with the same words, has the fault in the same turn, of the same kind and
/// at the same port of the cell that is kept for the fault's cell, or needs more turns, where that of the tree does, if
/// nothing in that looks at the done of a static component's cell, as in the design of every text.
pub fn shared_texts_run_alike()
    ensures read { (tree : PlainTree) (written : List ℕ) → IsTreeOfText tree → IsSharedText tree written →
        IsReadAs (shared_tree tree) written }
    ensures runs { (tree : PlainTree) (written : List ℕ) → IsTreeOfText tree → IsAcceptedTree tree →
        IsDesign (design_of tree) → IsSharedText tree written → RunsAs tree written }
{}

/// The promoted tree has a text where the tree has one; its assignments and invokes stand in the order in which they stood.
pub fn promoted_trees_are_printable()
    ensures printable { (tree new : PlainTree) (rows : List PromotedRow) → IsPromotedTree tree new rows →
        IsPrintable tree → IsPrintable new }
    ensures order { (tree new : PlainTree) (rows : List PromotedRow) → IsPromotedTree tree new rows →
        KeepsOrder tree new }
{}

/// The lines of what is promoted in the tree of a text, and behind them the promoted tree as it is printed, are read as the promoted
/// tree, at other places. Where the tree is accepted, what is written is accepted; it has the same external memories; and where the run of
/// the tree's design ends, with its static components, its design ends no later, in the same state, if nothing in the first looks at the
/// done of a static component's cell, as in the design of every text.
pub fn promoted_texts_end_no_later()
    ensures read { (tree : PlainTree) (written : List ℕ) → IsTreeOfText tree →
        (p : IsPromotedText tree written) → IsReadAs p.new written }
    ensures runs { (tree : PlainTree) (written : List ℕ) → IsTreeOfText tree → IsAcceptedTree tree →
        IsDesign (design_of tree) → IsPromotedText tree written → EndsNoLater tree written }
{
    promoted_is_accepted();
    promoted_trees_run_quicker();
}
