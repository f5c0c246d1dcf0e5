//! What holds of the designs of trees.

ghost use Rattle.std.specs.Prelude.{◌≡◌, ◌<◌, ◌^◌, None};
ghost use Rattle.cx_ast.specs.PlainTree.{PlainTree};
ghost use Rattle.cx_rules.specs.Sizes.{design_size};
ghost use Rattle.cx_rules.specs.Wellformed.{IsDesign};
ghost use Rattle.cx_numbering.specs.DesignOf.{design_of};
ghost use Rattle.cx_numbering.specs.NameRules.{names_break};
ghost use Rattle.cx_names.specs.Targets.{HasTargets};

/// A tree that keeps the rules on names, and whose targets are no literals, has a design, unless that has too many parts.
pub fn kept_names_make_a_design()
    ensures { (tree : PlainTree) → HasTargets tree → names_break tree ≡ None →
        design_size (design_of tree) < 2 ^ 32 → IsDesign (design_of tree) }
{}
