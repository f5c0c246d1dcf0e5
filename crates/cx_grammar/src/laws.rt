//! The law of readings.

ghost use Rattle.std.specs.Prelude.{◌≡◌, ◌⊎◌, List};
ghost use Rattle.cx_ast.specs.declared.tokens.Token.{Token as TokenValue};
ghost use Rattle.cx_ast.specs.PlainTree.{PlainTree};
ghost use Rattle.cx_grammar.specs.Parsing.{Parse, IsUnexpected, IsDeep};

/// The law of readings: tokens have one tree, or one unexpected token or end, or one token that is too deep, and no two of
/// these.
pub fn one_reading()
    ensures some { (tokens : List TokenValue) → ((tree : PlainTree) × Parse tokens tree)
        ⊎ (((front back : List TokenValue) × IsUnexpected tokens front back)
        ⊎ ((front back : List TokenValue) × IsDeep tokens front back)) }

    ensures tree { (tokens : List TokenValue) (tree other : PlainTree)
        → Parse tokens tree → Parse tokens other → tree ≡ other }
    ensures unexpected { (tokens front back other rest : List TokenValue)
        → IsUnexpected tokens front back → IsUnexpected tokens other rest → (front ≡ other) × (back ≡ rest) }
    ensures deep { (tokens front back other rest : List TokenValue)
        → IsDeep tokens front back → IsDeep tokens other rest → (front ≡ other) × (back ≡ rest) }

    ensures tree_or_unexpected { (tokens : List TokenValue) (tree : PlainTree) (front back : List TokenValue)
        → Parse tokens tree → ¬ IsUnexpected tokens front back }
    ensures tree_or_deep { (tokens : List TokenValue) (tree : PlainTree) (front back : List TokenValue)
        → Parse tokens tree → ¬ IsDeep tokens front back }
    ensures unexpected_or_deep { (tokens front back other rest : List TokenValue)
        → IsUnexpected tokens front back → ¬ IsDeep tokens other rest }
{}
