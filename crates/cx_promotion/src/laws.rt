//! Laws of promotion: each function does nothing, and its clause is the law.

ghost use Rattle.cx_meaning.specs.Designs.{PlainDesign};
ghost use Rattle.cx_rules.specs.Accepted.{IsAccepted, KeepsStage};
ghost use Rattle.cx_rules.specs.Wellformed.{IsDesign};
ghost use Rattle.cx_promotion.specs.Made.{DesignMade};

/// A design that promotion makes of an accepted one breaks no rule but that on limits; so it is accepted where it keeps the limits,
/// which may be passed, since a static seq counts anew.
pub fn promoted_keeps_rules()
    ensures { (old new : PlainDesign) → IsDesign old → IsAccepted old → DesignMade old new →
        KeepsStage 7 new → IsAccepted new }
{}
