//! Laws of promoted trees: each function does nothing, and its clause is the law.

ghost use Rattle.std.specs.Prelude.{◌≡◌, []};
ghost use Rattle.cx_ast.specs.PlainTree.{PlainTree};
ghost use Rattle.cx_promotion.specs.Rewriting.{IsPromotedTree};

/// A promoted tree without rows is the tree itself.
#[tactic(auto, using(crate::proofs::Unchanged::without_rows_the_same))]
pub fn without_rows_the_tree_stays()
    ensures { (tree new : PlainTree) → IsPromotedTree tree new [] → new ≡ tree }
{}
