//! Laws of verdicts: each function does nothing, and its clause is the law.

ghost use Rattle.cx_text.specs.declared.diagnostics.Diagnostic.{Diagnostic};
ghost use Rattle.cx_ast.specs.PlainTree.{PlainTree};
ghost use Rattle.cx_numbering.specs.DesignOf.{design_of};
ghost use Rattle.cx_check.specs.Acceptance.{IsAcceptedTree, TreeBreak};
ghost use Rattle.cx_check.specs.Verdicts.{IsSame};

/// A tree has one verdict: one that is accepted is refused for nothing, and what a tree is refused for is one rule at one place, with
/// one name, but where operands that are no sources share a place.
pub fn one_verdict()
    ensures accepted { (tree : PlainTree) (told : Diagnostic) → IsAcceptedTree tree → TreeBreak tree told → ⊥ }
    ensures refused { (tree : PlainTree) (told other : Diagnostic) → TreeBreak tree told →
        TreeBreak tree other → IsSame (design_of tree) told other }
{}
