//! Laws: each function does nothing, and its clause is the law.

ghost use Rattle.std.specs.Prelude.{◌≡◌, ℕ, true, false, List, Option, None, Some, Ok, Err};
ghost use Rattle.cx_prim.specs.CellStates.{CellState};
ghost use Rattle.cx_prim.specs.Rows.{Inputs};
ghost use Rattle.cx_prim.specs.Table.{PrimitiveRow, row_of};
ghost use Rattle.cx_meaning.specs.Designs.{PlainCell};
ghost use Rattle.cx_meaning.specs.Instances.{Instance, State, cells_for};
ghost use Rattle.cx_meaning.specs.Sights.{Look};
ghost use Rattle.cx_meaning.specs.Cycles.{Next, cell_outcome, cycle_by, every_cell, looks_at};
ghost use Rattle.cx_eval_cycle.specs.declared.passes.CellFault.{CellFault};
ghost use Rattle.cx_eval_cycle.specs.declared.rooms.CellRoom.{CellRoom};
ghost use Rattle.cx_eval_cycle.specs.declared.stepping.SteppingCell.{SteppingCell};
ghost use Rattle.cx_eval_cycle.specs.declared.stepping.SteppingCells.{SteppingCells};
ghost use Rattle.cx_eval_cycle.specs.Passes.{AreStepped, EndsSo, HeldAt, IsAscending, fault_of, first_among, listed_in};
ghost use Rattle.cx_eval_cycle.specs.Stepping.{AreStepping, AreSteppingCells, any_enables};
ghost use Rattle.cx_eval_cycle.specs.Steps.{AreGathered, after_room};

/// A cycle of the cells of an ascending list ends with the first fault over its look; or, where there is none, as the cells hold
/// after their steps with what was gathered over the look.
pub fn listed_cycles_end_so()
    ensures faults { (look : Look) (cells : List PlainCell) (held : List (Option CellState))
        (child : ℕ → Instance) (s : State) (listed : List ℕ) (fault : CellFault)
        → IsAscending listed → HeldAt cells held s → first_among (fault_of look cells held) listed ≡ Some fault
        → EndsSo cells held held (Err fault) (cycle_by (listed_in listed) look (cells_for child cells) s) }
    ensures goes { (look : Look) (cells : List PlainCell) (kept : List (Option SteppingCell))
        (rooms : List CellRoom) (old new : List (Option CellState)) (child : ℕ → Instance) (s : State)
        (listed : List ℕ)
        → IsAscending listed → HeldAt cells old s → first_among (fault_of look cells old) listed ≡ None
        → AreStepping cells kept → AreGathered (listed_in listed) look kept old rooms
        → AreStepped (listed_in listed) (after_room kept rooms) old new
        → EndsSo cells old new (Ok tt) (cycle_by (listed_in listed) look (cells_for child cells) s) }
{}

/// A cycle of all cells is one of the cells that can step.
pub fn other_cells_stay()
    ensures { (look : Look) (cells : List PlainCell) (stepping : SteppingCells) (child : ℕ → Instance)
        (s : State) → AreSteppingCells cells stepping
        → cycle_by every_cell look (cells_for child cells) s ≡
        cycle_by (listed_in stepping.numbers.items) look (cells_for child cells) s }
{}

/// A cycle looks at no port of a primitive that has no enabling port, and leaves it as it is.
pub fn cells_without_enabling_stay()
    ensures stays { (look : Look) (c : ℕ) (p : PrimitiveRow) (state : CellState) → any_enables (row_of p).ports ≡ false
        → cell_outcome look c (row_of p) state ≡ Next state }
    ensures unseen { (p : PrimitiveRow) (state : CellState) (inputs : Inputs) (port : ℕ) →
        any_enables (row_of p).ports ≡ false
        → looks_at (row_of p) state inputs port ≡ false }
{}
