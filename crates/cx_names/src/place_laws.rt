//! Laws of designs of texts: each function does nothing, and its clause is the law.

ghost use Rattle.std.specs.Prelude.{◌≡◌, List, ℕ, None};
ghost use Rattle.cx_text.specs.declared.diagnostics.Diagnostic.{Diagnostic};
ghost use Rattle.cx_ast.specs.declared.tokens.Token.{Token};
ghost use Rattle.cx_ast.specs.PlainTree.{PlainTree, PlainComponent};
ghost use Rattle.cx_lex.specs.Lex.{Lex};
ghost use Rattle.cx_grammar.specs.Parsing.{Parse};
ghost use Rattle.cx_meaning.specs.declared.ports.PlacedPort.{PlacedPort};
ghost use Rattle.cx_text.specs.Members.{In};
ghost use Rattle.cx_rules.specs.Items.{sources_of};
ghost use Rattle.cx_rules.specs.Accepted.{FirstBreak};
ghost use Rattle.cx_numbering.specs.DesignOf.{assign_of, design_of};
ghost use Rattle.cx_numbering.specs.NameRules.{Standing, standing, names_break};
ghost use Rattle.cx_rules.specs.OneBreak.{IsPlaced};

/// In the design of a text each operand of an assignment that is written has a place of its own: two at one place are of one port.
pub fn written_operands_are_placed()
    ensures { (text : List ℕ) (tokens : List Token) (tree : PlainTree) (part : PlainComponent)
        (x : Standing) (p q : PlacedPort)
        → Lex text tokens → Parse tokens tree → In tree.components part → In (standing part) x
        → In (sources_of (assign_of tree part x.assign)) p
        → In (sources_of (assign_of tree part x.assign)) q → p.place ≡ q.place → p.port ≡ q.port }
{}

/// In the design of a text a place tells a port among the operands of an assignment that are no sources.
pub fn texts_are_placed()
    ensures { (text : List ℕ) (tokens : List Token) (tree : PlainTree) → Lex text tokens →
        Parse tokens tree → names_break tree ≡ None → IsPlaced (design_of tree) }
{}

/// Two first breaks of the design of a text are of one rule, at one place, and have one name.
pub fn one_refusal()
    ensures rule { (text : List ℕ) (tokens : List Token) (tree : PlainTree) (a b : Diagnostic) →
        Lex text tokens → Parse tokens tree → names_break tree ≡ None
        → FirstBreak (design_of tree) a → FirstBreak (design_of tree) b → a.rule ≡ b.rule }
    ensures place { (text : List ℕ) (tokens : List Token) (tree : PlainTree) (a b : Diagnostic) →
        Lex text tokens → Parse tokens tree → names_break tree ≡ None
        → FirstBreak (design_of tree) a → FirstBreak (design_of tree) b → a.place ≡ b.place }
    ensures name { (text : List ℕ) (tokens : List Token) (tree : PlainTree) (a b : Diagnostic) →
        Lex text tokens → Parse tokens tree → names_break tree ≡ None
        → FirstBreak (design_of tree) a → FirstBreak (design_of tree) b → a.name ≡ b.name }
{}
