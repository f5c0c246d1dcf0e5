//! A law of the table of primitives: the function does nothing, and its clause is the law.

ghost use Rattle.cx_prim.specs.Table.{PrimitiveRow, row_of};
ghost use Rattle.cx_design_parts.specs.Outputs.{ReadsFirst};

/// The combinational outputs of a primitive read the inputs that `read_count` counts, and no others.
pub fn outputs_read_first()
    ensures { (p : PrimitiveRow) → ReadsFirst (row_of p) }
{}
