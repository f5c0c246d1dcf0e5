//! What follows from the definitions, for all codes and values.

ghost use Rattle.cx_vnets.specs.Widths.{HaveWidths};

/// A value of a code is as wide as the code.
pub fn codes_have_widths()
    ensures { HaveWidths }
{}
