//! What holds of the trees of texts.

ghost use Rattle.std.specs.Prelude.{ℕ, List};
ghost use Rattle.cx_ast.specs.declared.tokens.Token.{Token as TokenValue};
ghost use Rattle.cx_ast.specs.PlainTree.{PlainTree};
ghost use Rattle.cx_lex.specs.Lex.{Lex};
ghost use Rattle.cx_grammar.specs.Parsing.{Parse};
ghost use Rattle.cx_print.specs.Printable.{IsPrintable};

/// Each tree that is read from the tokens of a text is printable.
pub fn parsed_is_printable()
    ensures { (text : List ℕ) (tokens : List TokenValue) (tree : PlainTree) → Lex text tokens → Parse tokens tree
        → IsPrintable tree }
{}
