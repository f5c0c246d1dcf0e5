//! Laws of the list of breaks: each function does nothing, and its clause is the law.

ghost use Rattle.cx_meaning.specs.Designs.{PlainDesign};
ghost use Rattle.cx_design_parts.specs.Answers.{AreBreaksBy};
ghost use Rattle.cx_shape_rules.specs.ShapeBreaks.{ShapeFamily, shape_breaks};

/// The list has the breaks of the rules on shapes, and no others.
pub fn shape_breaks_are()
    ensures { (d : PlainDesign) → AreBreaksBy (ShapeFamily d) (shape_breaks d) }
{}
