//! A worked rewriting: the function does nothing but call laws, and its clause is what they give.

ghost use Rattle.std.specs.Prelude.{◌≡◌, ℕ, ⊤};
ghost use Rattle.cx_meaning.specs.Designs.{PlainStatement};
ghost use Rattle.cx_meaning.specs.Instances.{Instance, State};
ghost use Rattle.cx_meaning.specs.Sights.{Held};
ghost use Rattle.cx_meaning.specs.Running.{run_statement};
ghost use Rattle.cx_rewrites.specs.LoneParts.{unwrapped};

use crate::rewriting::Rewriting;
use crate::run_laws::run_follows;

/// Takes a `seq` of one part for that part. A state stands for the same state, whatever was counted; nothing is asked of leaves
/// or ports.
pub struct LoneParts;

impl Rewriting for LoneParts {
    ghost stands = { λ counted s z. s ≡ z };

    ghost groups = { λ g. ⊤ };

    ghost forms = { λ form. ⊤ };

    ghost inside = { λ p. ⊤ };
}

/// A `seq` of one part runs as that part, wherever it stands in dynamic control: in every instance each statement has the same
/// answer from each state and under each budget, faults included.
pub fn lone_parts_run_alike()
    ensures { (i : Instance) (held : Held) (statement : PlainStatement) (s : State) (n : ℕ)
        → run_statement i held (unwrapped statement) s n ≡ run_statement i held statement s n }
{
    run_follows::<LoneParts>();
}
