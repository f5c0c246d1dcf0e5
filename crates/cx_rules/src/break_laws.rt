//! Laws of breaks: each function does nothing, and its clauses are the law.

ghost use Rattle.std.specs.Prelude.{◌≡◌};
ghost use Rattle.cx_text.specs.declared.diagnostics.Diagnostic.{Diagnostic};
ghost use Rattle.cx_text.specs.declared.rules.Rule.TheVariants.{NotASource};
ghost use Rattle.cx_meaning.specs.Designs.{PlainDesign};
ghost use Rattle.cx_rules.specs.Accepted.{FirstBreak};
ghost use Rattle.cx_rules.specs.OneBreak.{IsPlaced};

/// Two first breaks of one design are of one rule, at one place. They have one name, but for `not-a-source`, where the
/// places of an assignment's operands that are no sources have to tell their ports, as in the design of a text.
pub fn first_break_is_one()
    ensures rule { (d : PlainDesign) (a b : Diagnostic) → FirstBreak d a → FirstBreak d b → a.rule ≡ b.rule }
    ensures place { (d : PlainDesign) (a b : Diagnostic) → FirstBreak d a → FirstBreak d b → a.place ≡ b.place }
    ensures name { (d : PlainDesign) (a b : Diagnostic) → (a.rule ≡ NotASource → IsPlaced d) →
        FirstBreak d a → FirstBreak d b → a.name ≡ b.name }
{}
