//! Laws of the breaks: each function does nothing, and its clause is the law.

ghost use Rattle.cx_meaning.specs.Designs.{PlainDesign};
ghost use Rattle.cx_design_parts.specs.Answers.{AreBreaksBy};
ghost use Rattle.cx_shape_state.specs.StateBreaks.{StateBreaks, state_breaks};

/// The list of breaks has exactly the breaks of the rules.
pub fn list_has_the_breaks()
    ensures { (d : PlainDesign) → AreBreaksBy (StateBreaks d) (state_breaks d) }
{}
