//! How large what is written is at most: each function does nothing, and its clause is the law.

ghost use Rattle.cx_emitted.specs.ByteLaws.{PrimitivesAreSmall, TextsAreSmall};

/// The module of each primitive of the table, the timer too, has few nets and few bytes.
pub fn primitives_are_small()
    ensures { PrimitivesAreSmall }
{}

/// The text of an accepted design has few bytes, by the design's size and weight.
pub fn texts_are_small()
    ensures { TextsAreSmall }
{}
