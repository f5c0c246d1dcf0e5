//! Laws: each function does nothing, and its clause is the law.

ghost use Rattle.std.specs.Prelude.{◌≡◌, ℕ, ◌<◌, List, [], ◌∷◌, ◌++◌, Some, None, get_or, set, length};
ghost use Rattle.cx_prim.specs.CellStates.{CellState};
ghost use Rattle.cx_meaning.specs.declared.ports.PortRef.{PortRef};
ghost use Rattle.cx_meaning.specs.Designs.{PlainDesign};
ghost use Rattle.cx_meaning.specs.Cycles.{Goes, cycle_of};
ghost use Rattle.cx_meaning.specs.Instances.{Path, Set, State, instance_at, tree_of};
ghost use Rattle.cx_meaning.specs.Active.{Active};
ghost use Rattle.cx_meaning.specs.Sights.{Held, seen};
ghost use Rattle.cx_state.specs.Tables.{IsNumber, IsTable};
ghost use Rattle.cx_state.specs.declared.tables.InstanceRow.{InstanceRow};
ghost use Rattle.cx_state.specs.States.{PlainInstance, IsStateOf, StandsFor, put_path, under_path};
ghost use Rattle.cx_state.specs.ReadStates.{state_in};

/// In every instance of the tree each port is seen as the same in all states for which the same rows stand.
pub fn states_are_seen_alike()
    ensures { (d : PlainDesign) (rows : List PlainInstance) (s t : State) (n : ℕ) (path : Path)
        (held : Held) (act : Active) (p : PortRef)
        → IsStateOf d rows → StandsFor (tree_of d) rows s → StandsFor (tree_of d) rows t → IsNumber d n path
        → seen (instance_at (tree_of d) path) held act (under_path path s) p ≡
        seen (instance_at (tree_of d) path) held act (under_path path t) p }
{}

/// The rows of a state of a design stand for the state that is read off them.
pub fn rows_stand()
    ensures { (d : PlainDesign) (table : List InstanceRow) (children : List ℕ) (rows : List PlainInstance)
        → IsTable d table children → IsStateOf d rows → StandsFor (tree_of d) rows (state_in (tree_of d) rows) }
{}

/// Where the row of one instance changes, the rows stand for the state with another one at that instance's path, if the new row
/// has what its cells hold there and nothing deeper changes.
pub fn one_row_changes()
    ensures { (d : PlainDesign) (rows : List PlainInstance) (s after : State) (n : ℕ) (path : Path)
        (new : PlainInstance)
        → n < length rows → StandsFor (tree_of d) rows s → IsNumber d n path
        → ((c : ℕ) (held : CellState) → get_or new.cells c None ≡ Some held → after (c ∷ []) ≡ held)
        → after [] ≡ s path → ((c e : ℕ) (below : Path) → after (c ∷ e ∷ below) ≡ s (path ++ c ∷ e ∷ below))
        → StandsFor (tree_of d) (set rows n new) (put_path path after s) }
{}

/// So after a cycle of an instance: where its new row has what its cells hold, the rows stand for the next state at its path.
pub fn a_cycle_changes_one_row()
    ensures { (d : PlainDesign) (rows : List PlainInstance) (s after : State) (n : ℕ) (path : Path)
        (new : PlainInstance) (held : Held) (act : Active) (listed : Set)
        → n < length rows → StandsFor (tree_of d) rows s → IsNumber d n path
        → cycle_of (instance_at (tree_of d) path) held act listed (under_path path s) ≡ Goes after
        → ((c : ℕ) (kept : CellState) → get_or new.cells c None ≡ Some kept → after (c ∷ []) ≡ kept)
        → StandsFor (tree_of d) (set rows n new) (put_path path after s) }
{}
