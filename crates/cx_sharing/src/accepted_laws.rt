//! Laws of acceptance: each function does nothing, and its clause is the law.

ghost use Rattle.cx_meaning.specs.Designs.{PlainDesign};
ghost use Rattle.cx_rules.specs.Accepted.{IsAccepted};
ghost use Rattle.cx_rules.specs.Wellformed.{IsDesign};
ghost use Rattle.cx_sharing.specs.SharedDesign.{shared_design};

/// The shared design of an accepted design is accepted: it breaks no rule of stages 3 to 7.
pub fn shared_design_is_accepted()
    ensures { (d : PlainDesign) → IsDesign d → IsAccepted d → IsAccepted (shared_design d) }
{}
