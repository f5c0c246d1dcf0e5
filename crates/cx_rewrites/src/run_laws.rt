//! Laws of runs: each function does nothing, and its clause is the law.

ghost use Rattle.std.specs.Prelude.{◌≡◌, ℕ};
ghost use Rattle.cx_meaning.specs.declared.ports.PortRef.{PortRef};
ghost use Rattle.cx_meaning.specs.Designs.{PlainStatement};
ghost use Rattle.cx_meaning.specs.Instances.{State};
ghost use Rattle.cx_meaning.specs.Cycles.{Fault};
ghost use Rattle.cx_meaning.specs.Answers.{End, More};
ghost use Rattle.cx_meaning.specs.Answers as answers;
ghost use Rattle.cx_meaning.specs.Control.{Leaves, groups_of, run};
ghost use Rattle.cx_rules.specs.Items.{Context, visit};
ghost use Rattle.cx_frames.proofs.ControlFrames.{Holds};
ghost use Rattle.cx_rewrites.specs.Moving.{moved_statement};
ghost use Rattle.cx_rewrites.specs.Tallies.{Counting, Tally, count, plus};
ghost use Rattle.cx_rewrites.specs.Carrying.{Carries, Exact, Keeps, Pace, Rests, Room};
ghost use Rattle.cx_rewrites.specs.Beside.{Beside, LeavesCarry};

use crate::rewriting::Rewriting;

/// Of two statements whose parts stand beside each other, down to parts that carry each other outright, the first carries the
/// second: wherever its run ends, that of the second ends, at the pace, in a state that stands for its state. So does a
/// statement whose ports are moved, where the leaves carry.
pub fn run_carries<W: Rewriting>()
    ensures statements { (pace : Pace) (faults : Fault → Fault) (L M : Leaves State Fault)
        (C : Counting State) (s t : PlainStatement)
        → Rests W.stands L.rest M.rest → Beside pace W.stands faults L C M s t
        → Carries pace W.stands faults (count L C s) (run L s) (run M t) }
    ensures moved { (pace : Pace) (faults : Fault → Fault) (L M : Leaves State Fault) (C : Counting State)
        (move : PortRef → PortRef)
        (context : Context) (s : PlainStatement)
        → LeavesCarry pace W.stands faults L C M move W.groups W.forms
        → Holds W.groups W.forms (groups_of s) (visit context s)
        → Carries pace W.stands faults (count L C s) (run L s) (run M (moved_statement move s)) }
    ensures ends { (pace : Pace) (faults : Fault → Fault) (L M : Leaves State Fault) (C : Counting State)
        (s t : PlainStatement)
        (before : Tally) (a b c : State) (n m k : ℕ)
        → Rests W.stands L.rest M.rest → Beside pace W.stands faults L C M s t
        → Room pace n m → W.stands before a b → run L s a n ≡ End c k
        → (d : State) × (u : ℕ) × (run M t b m ≡ End d u) × Keeps pace u k
        × W.stands (plus before (count L C s a n)) c d }
{}

/// At the exact pace the second run follows the first: it ends in the same turn, in a state that stands for the first one's
/// by what the first has counted, or has its fault in the same turn, or needs more turns too.
pub fn run_follows<W: Rewriting>()
    ensures ends { (faults : Fault → Fault) (L M : Leaves State Fault) (C : Counting State) (s t : PlainStatement)
        (before : Tally) (a b c : State) (n k : ℕ)
        → Rests W.stands L.rest M.rest → Beside Exact W.stands faults L C M s t
        → W.stands before a b → run L s a n ≡ End c k
        → (d : State) × (run M t b n ≡ End d k) × W.stands (plus before (count L C s a n)) c d }
    ensures faults { (faults : Fault → Fault) (L M : Leaves State Fault) (C : Counting State) (s t : PlainStatement)
        (before : Tally) (a b : State) (f : Fault) (n k : ℕ)
        → Rests W.stands L.rest M.rest → Beside Exact W.stands faults L C M s t
        → W.stands before a b → run L s a n ≡ answers.Fault f k → run M t b n ≡ answers.Fault (faults f) k }
    ensures more { (faults : Fault → Fault) (L M : Leaves State Fault) (C : Counting State) (s t : PlainStatement)
        (before : Tally) (a b : State) (n : ℕ)
        → Rests W.stands L.rest M.rest → Beside Exact W.stands faults L C M s t
        → W.stands before a b → run L s a n ≡ More → run M t b n ≡ More }
{}
