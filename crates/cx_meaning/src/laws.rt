//! Laws of the meaning: each function does nothing, and its clause is the law.

ghost use Rattle.std.specs.Prelude.{◌≡◌, ◌≤◌, ℕ};
ghost use Rattle.cx_meaning.specs.declared.ports.PortRef.{PortRef};
ghost use Rattle.cx_meaning.specs.declared.sights.Seen.{Seen};
ghost use Rattle.cx_meaning.specs.Rows.{KeepsIdle};
ghost use Rattle.cx_meaning.specs.Designs.{PlainDesign, PlainStatement};
ghost use Rattle.cx_meaning.specs.Instances.{Instance, State, Path, idle, tree_of, start_at, IsSettled};
ghost use Rattle.cx_meaning.specs.Active.{Active};
ghost use Rattle.cx_meaning.specs.Sights.{Held, Sees};
ghost use Rattle.cx_meaning.specs.Running.{run_statement};
ghost use Rattle.cx_meaning.specs.Budgets.{Grows, TakesTurns, Leaves};
ghost use Rattle.cx_meaning.specs.Laws.{AllRows};

/// A port is seen as one thing.
pub fn sees_one_thing()
    ensures { (i : Instance) (held : Held) (act : Active) (s : State) (p : PortRef) (x y : Seen)
        → Sees i held act s p x → Sees i held act s p y → x ≡ y }
{}

/// With a greater budget a run that ended ends so, one that faulted faults so, and another ends or faults later.
pub fn grows_with_budget()
    ensures { (i : Instance) (held : Held) (statement : PlainStatement) (s : State) (n m : ℕ)
        → n ≤ m → Grows n (run_statement i held statement s n) (run_statement i held statement s m) }
{}

/// A statement that ends takes at least one turn.
pub fn takes_a_turn()
    ensures { (i : Instance) (held : Held) (statement : PlainStatement) (s : State) (n : ℕ)
        → TakesTurns (run_statement i held statement s n) }
{}

/// Two idle turns are one: after one the state is settled.
pub fn idle_settles()
    ensures { (i : Instance) (s : State) → AllRows KeepsIdle i → IsSettled i (idle i s) }
{}

/// Where every cell is at its row's start the state is settled.
pub fn start_is_settled()
    ensures { (i : Instance) → AllRows KeepsIdle i → IsSettled i (start_at i) }
{}

/// A statement that begins in a settled state and ends leaves a settled state.
pub fn leaves_settled()
    ensures { (i : Instance) (held : Held) (statement : PlainStatement) (s : State) (n : ℕ)
        → AllRows KeepsIdle i → IsSettled i s → Leaves (IsSettled i) (run_statement i held statement s n) }
{}

/// The rows of a design's tree keep their idle edges, which the laws on settled states ask.
pub fn designs_keep_idle()
    ensures { (d : PlainDesign) → AllRows KeepsIdle (tree_of d) }
{}
