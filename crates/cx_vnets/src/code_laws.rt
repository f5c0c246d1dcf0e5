//! What soundness of an expression gives its code.

ghost use Rattle.cx_vnets.specs.CodeLaws.{NamesHaveNumbers, CodesHaveWidths};

/// Where each name of an expression stands as it may, all of them have numbers.
pub fn names_have_numbers()
    ensures { NamesHaveNumbers }
{}

/// A code has the width of its expression, where the widths in that fit.
pub fn code_widths()
    ensures { CodesHaveWidths }
{}
