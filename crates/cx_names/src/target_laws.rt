//! Laws of trees of texts: each function does nothing, and its clause is the law.

ghost use Rattle.std.specs.Prelude.{List};
ghost use Rattle.cx_ast.specs.declared.tokens.Token.{Token};
ghost use Rattle.cx_ast.specs.PlainTree.{PlainTree};
ghost use Rattle.cx_grammar.specs.Parsing.{Parse};
ghost use Rattle.cx_names.specs.Targets.{HasTargets};

/// In the tree of a text no target of an assignment is a literal.
pub fn targets_are_ports()
    ensures { (tokens : List Token) (tree : PlainTree) → Parse tokens tree → HasTargets tree }
{}
