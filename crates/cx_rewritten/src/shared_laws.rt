//! Laws of the shared tree: each function does nothing, and its clauses are the law.

ghost use Rattle.std.specs.Prelude.{◌≡◌, ◌<◌, ◌^◌, [], None};
ghost use Rattle.cx_ast.specs.PlainTree.{PlainTree};
ghost use Rattle.cx_rules.specs.Externals.{external_rows};
ghost use Rattle.cx_rules.specs.Flat.{IsFlat};
ghost use Rattle.cx_rules.specs.Sizes.{design_size};
ghost use Rattle.cx_rules.specs.Wellformed.{IsDesign};
ghost use Rattle.cx_numbering.specs.DesignOf.{design_of};
ghost use Rattle.cx_numbering.specs.NameRules.{names_break};
ghost use Rattle.cx_names.specs.Targets.{HasTargets};
ghost use Rattle.cx_check.specs.Acceptance.{IsAcceptedTree};
ghost use Rattle.cx_print.specs.Printable.{IsPrintable};
ghost use Rattle.cx_sharing.specs.SharedDesign.{shared_design};
ghost use Rattle.cx_sharing.specs.SharedRows.{shared_rows};
ghost use Rattle.cx_sharing.specs.SharedTree.{shared_tree};

/// The shared tree stands for the shared design, where the tree breaks no rule on names. That is what every design keeps, where
/// no target of the tree is a literal and its design has fewer than 2^32 parts. Of an accepted tree it has the same external
/// memories.
pub fn shared_trees_have_shared_designs()
    ensures same { (tree : PlainTree) → names_break tree ≡ None →
        design_of (shared_tree tree) ≡ shared_design (design_of tree) }
    ensures kept { (tree : PlainTree) → HasTargets tree → names_break tree ≡ None →
        design_size (design_of tree) < 2 ^ 32 → IsDesign (design_of (shared_tree tree)) }
    ensures rows { (tree : PlainTree) → IsDesign (design_of tree) → IsAcceptedTree tree →
        external_rows (design_of (shared_tree tree)) ≡ external_rows (design_of tree) }
{}

/// The shared tree of an accepted tree is accepted: it breaks no rule on names, and its design breaks no rule. Where the tree has no
/// static component, neither has it.
pub fn shared_is_accepted()
    ensures accepted { (tree : PlainTree) → IsDesign (design_of tree) → IsAcceptedTree tree →
        IsAcceptedTree (shared_tree tree) }
    ensures flat { (tree : PlainTree) → names_break tree ≡ None → IsFlat (design_of tree) →
        IsFlat (design_of (shared_tree tree)) }
    ensures named { (tree : PlainTree) → names_break tree ≡ None → names_break (shared_tree tree) ≡ None }
{}

/// The shared tree has a text where the tree has one, and no target that is a literal where the tree has none.
pub fn shared_trees_are_printable()
    ensures printable { (tree : PlainTree) → IsPrintable tree → IsPrintable (shared_tree tree) }
    ensures targets { (tree : PlainTree) → names_break tree ≡ None → HasTargets tree → HasTargets (shared_tree tree) }
{}

/// A shared tree shares nothing more: no row is told of it, where the tree breaks no rule on names.
pub fn shared_trees_share_nothing_more()
    ensures { (tree : PlainTree) → names_break tree ≡ None → shared_rows (shared_tree tree) ≡ [] }
{}
