//! Laws of the promoted tree: each function does nothing, and its clauses are the law.

ghost use Rattle.std.specs.Prelude.{◌≡◌, List, [], None};
ghost use Rattle.cx_ast.specs.PlainTree.{PlainTree};
ghost use Rattle.cx_meaning.specs.Instances.{State, tree_of, words_of};
ghost use Rattle.cx_rules.specs.Flat.{IsFlat};
ghost use Rattle.cx_rules.specs.Wellformed.{IsDesign};
ghost use Rattle.cx_numbering.specs.DesignOf.{design_of};
ghost use Rattle.cx_numbering.specs.NameRules.{names_break};
ghost use Rattle.cx_rewrites.specs.Places.{SameDesign};
ghost use Rattle.cx_promotion.specs.declared.rows.PromotedRow.{PromotedRow};
ghost use Rattle.cx_flattening.specs.Ends.{NoneNamesDone};
ghost use Rattle.cx_promotion.specs.Made.{DesignMade, WholeQuickens};
ghost use Rattle.cx_promotion.specs.Rewriting.{IsPromotedTree, made_tree};
ghost use Rattle.cx_names.specs.Targets.{HasTargets};
ghost use Rattle.cx_check.specs.Acceptance.{IsAcceptedTree};

/// The design of a promoted tree is one that promotion makes of the tree's design.
pub fn promoted_trees_have_promoted_designs()
    ensures made { (tree new : PlainTree) (rows : List PromotedRow) → IsPromotedTree tree new rows →
        DesignMade (design_of tree) (design_of new) }
{}

/// The promoted tree of an accepted tree is accepted, and has no static component where the tree has none. The tree that is made,
/// whatever its size, breaks no rule on names and has no target that is a literal, where the tree breaks and has none.
pub fn promoted_is_accepted()
    ensures accepted { (tree new : PlainTree) (rows : List PromotedRow) → IsDesign (design_of tree) →
        IsAcceptedTree tree → IsPromotedTree tree new rows → IsAcceptedTree new }
    ensures flat { (tree new : PlainTree) (rows : List PromotedRow) → IsFlat (design_of tree) →
        IsPromotedTree tree new rows → IsFlat (design_of new) }
    ensures named { (tree : PlainTree) → names_break tree ≡ None → names_break (made_tree tree) ≡ None }
    ensures targets { (tree : PlainTree) → HasTargets tree → HasTargets (made_tree tree) }
{}

/// Where the run of an accepted tree's design ends, with its static components, on whatever data and under whatever budget, that of the
/// promoted tree's design ends under that budget, in no more turns, in the same state of every cell, if nothing in the first looks at
/// the done of a static component's cell, as in the design of every text; and so does that of a tree whose design is the same apart
/// from places. The external memories of a state are read alike.
pub fn promoted_trees_run_quicker()
    ensures quickens { (tree new : PlainTree) (rows : List PromotedRow)
        → IsDesign (design_of tree) → IsAcceptedTree tree → NoneNamesDone (design_of tree)
        → IsPromotedTree tree new rows
        → WholeQuickens (design_of tree) (design_of new) }
    ensures again { (tree new again : PlainTree) (rows : List PromotedRow)
        → IsDesign (design_of tree) → IsAcceptedTree tree → NoneNamesDone (design_of tree)
        → IsPromotedTree tree new rows
        → SameDesign (design_of new) (design_of again) → WholeQuickens (design_of tree) (design_of again) }
    ensures words { (tree new : PlainTree) (rows : List PromotedRow) (s : State)
        → IsDesign (design_of tree) → IsAcceptedTree tree → IsPromotedTree tree new rows
        → words_of (tree_of (design_of new)) s ≡ words_of (tree_of (design_of tree)) s }
{}

/// Nothing more is promoted in a promoted tree: no row is told of it, and it stays as it is.
pub fn promoted_trees_promote_nothing_more()
    ensures rows { (tree new newer : PlainTree) (rows more : List PromotedRow) →
        IsPromotedTree tree new rows → IsPromotedTree new newer more → more ≡ [] }
    ensures stays { (tree new newer : PlainTree) (rows more : List PromotedRow) →
        IsPromotedTree tree new rows → IsPromotedTree new newer more → newer ≡ new }
{}
