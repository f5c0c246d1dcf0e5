//! Worked breaks of rules that are relations: each function does nothing, and its clause is what is told.

ghost use Rattle.std.specs.Prelude.{codes};
ghost use Rattle.cx_text.specs.declared.rules.Rule.TheVariants.{DoneNotState, Race};
ghost use Rattle.cx_rules.specs.Accepted.{Breaks};
ghost use Rattle.cx_laws.specs.Examples.{at, racing, restless, statement_of_main, assign_of_main};

/// One arm drives `x`, and the other reads it by way of a wire: `refused 7:1 race x`.
pub fn race_is_told()
    ensures { Breaks racing Race (statement_of_main 0) (at 7 1) (codes "x") }
{}

/// The done of `g` is an output that follows the inputs that `g` drives: `refused 5:76 done-not-state g`.
pub fn restless_done_is_told()
    ensures { Breaks restless DoneNotState (assign_of_main 4) (at 5 76) (codes "g") }
{}
