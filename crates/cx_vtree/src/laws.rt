//! What follows from the definitions of a value and of a run, for all sources, cycles and data.

ghost use Rattle.cx_vtree.specs.Meaning.{OneValue, OneEval, RankedHave};
ghost use Rattle.cx_vtree.specs.SimRun.{OneOutcome};

/// A net has one value at most in a cycle, and so does an expression.
pub fn one_value()
    ensures nets { OneValue }
    ensures exprs { OneEval }
{}

/// Where a rank goes down along what the nets need in a cycle, each net that something drives has a value in it.
pub fn ranked()
    ensures { RankedHave }
{}

/// A run from reset has one outcome at most.
pub fn one_outcome()
    ensures { OneOutcome }
{}
