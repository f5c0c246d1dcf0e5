//! The law of spare parts: the function does nothing, and its clauses are the law.

ghost use Rattle.std.specs.Prelude.{◌≡◌, ◌≤◌, ℕ};
ghost use Rattle.cx_meaning.specs.Designs.{PlainDesign, PlainStatement};
ghost use Rattle.cx_meaning.specs.Instances.{Instance, Path, State, instance_at, tree_of};
ghost use Rattle.cx_meaning.specs.Sights.{Held};
ghost use Rattle.cx_state.specs.Tables.{IsNumber};
ghost use Rattle.cx_orders.specs.Open.{Open, open_statement};
ghost use Rattle.cx_orders.specs.Steps.{step};
ghost use Rattle.cx_weave.specs.declared.needs.Piece.{Piece};
ghost use Rattle.cx_weave.specs.Strands.{PlainStrand, Shows};
ghost use Rattle.cx_weave.specs.Takes.{StepsWithin, need, room, taken};

/// What is open of a statement takes at most what the statement needs, and after a turn no more than before; and a strand has no
/// more of the spare parts than what it shows takes at most.
pub fn takes_no_more()
    ensures opened { (k : Piece) (i : Instance) (st : PlainStatement) → room k i (open_statement i st) ≤ need k i st }
    ensures turn { (k : Piece) (i : Instance) (held : Held) (o : Open) (leaf : ℕ) (s : State)
        → StepsWithin k i (room k i o) (step i held o leaf s) }
    ensures now { (k : Piece) (d : PlainDesign) (n : ℕ) (path : Path) (p : PlainStrand) (o : Open) →
        IsNumber d n path → Shows d n p o
        → taken k p ≤ room k (instance_at (tree_of d) path) o }
{}
