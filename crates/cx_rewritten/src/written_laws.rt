//! Laws of what a rewriting writes: each function does nothing, and its clause is the law.

ghost use Rattle.std.specs.Prelude.{◌≡◌, ℕ, List};
ghost use Rattle.cx_ast.specs.declared.tokens.Token.{Token};
ghost use Rattle.cx_ast.specs.PlainTree.{PlainTree};
ghost use Rattle.cx_lex.specs.Lex.{Lex};
ghost use Rattle.cx_grammar.specs.Parsing.{Parse};
ghost use Rattle.cx_numbering.specs.DesignOf.{design_of};
ghost use Rattle.cx_print.specs.Places.{without_places};
ghost use Rattle.cx_print.specs.Printable.{IsPrintable};
ghost use Rattle.cx_rewrites.specs.Places.{SameDesign};
ghost use Rattle.cx_rewritten.specs.Ordered.{IsInOrder, KeepsOrder};
ghost use Rattle.cx_rewritten.specs.Written.{IsReadAs, IsWritten};

/// In the tree of a text the places of assignments and of invokes rise in the order in which they are written.
pub fn texts_are_in_order()
    ensures { (text : List ℕ) (tokens : List Token) (tree : PlainTree) → Lex text tokens →
        Parse tokens tree → IsInOrder tree }
{}

/// Trees that are in order, and the same apart from places, have designs that are the same apart from places, with their assignments in
/// the same order.
pub fn same_trees_have_same_designs()
    ensures { (tree other : PlainTree) → without_places tree ≡ without_places other → IsInOrder tree →
        IsInOrder other → SameDesign (design_of tree) (design_of other) }
{}

/// What is written of a printable tree that keeps the order of the tree of a text is read as that tree, at other places.
pub fn written_is_read()
    ensures { (text written : List ℕ) (tokens : List Token) (tree new : PlainTree) → Lex text tokens → Parse tokens tree
        → KeepsOrder tree new → IsPrintable new → IsWritten new written → IsReadAs new written }
{}
