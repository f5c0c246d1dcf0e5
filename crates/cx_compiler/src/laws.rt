//! What follows from the definitions of what the commands and the passes do: each function does nothing but call
//! others, and its clause is the law.

ghost use Rattle.cx_compiler.specs.Laws.{AreShallow, NeverTooLong, NoneEnds, OneSource};
ghost use Rattle.cx_compiler.specs.Promise.{PromiseIsKept};

use crate::flat_laws::{what_is_run_is_accepted, what_is_run_is_flat};
use cx_orders::laws::run_ends_too;

/// A Verilog text spells one sound source at most.
pub fn one_source()
    ensures { OneSource }
{}

/// Whatever `compile` writes of a text keeps the promise.
pub fn promise_is_kept()
    ensures { PromiseIsKept }
{}

/// Few static ifs stand around a statement of what is run of an accepted text without static components.
pub fn texts_are_shallow()
    ensures { AreShallow }
{}

/// Where this is so of what is run of an accepted text within the size, what the passes make of it is never too long to be written.
pub fn never_too_long()
    ensures { NeverTooLong }
{
    what_is_run_is_accepted();
    what_is_run_is_flat();
}

/// In an accepted design, where the run of `main` has a fault, no order of the leaves ends.
pub fn none_ends()
    ensures { NoneEnds }
{
    run_ends_too();
}
