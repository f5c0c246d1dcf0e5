//! The steps of the cells of an instance.

ghost use Rattle.std.specs.Prelude.{◌≡◌, ◌<◌, ℕ, length, true};
ghost use Rattle.cx_meaning.specs.Instances.{paths_of, tree_of};
ghost use Rattle.cx_state.specs.States.{IsStateOf, instance_state, plain_state};
ghost use Rattle.cx_eval_cycle.specs.Passes.{IsAscending, cell_held, listed_in};
ghost use Rattle.cx_eval_cycle.specs.Rooms.{HaveRooms};
ghost use Rattle.cx_eval_cycle.specs.Steps.{CanStepAt};
ghost use Rattle.cx_eval.specs.Cycling.{HaveStepped};
ghost use Rattle.cx_eval.specs.Tables.{AreTables, design_of, kept_of};

use crate::tables::{Tables, stepping_of};
use cx_eval_cycle::{CellRoom, step_listed};
use cx_state::State;

/// The listed cells of an instance make their steps in a state, with what stands at their ports.
pub(crate) fn step_in(
    tables: &Tables<'_>,
    rooms: &[CellRoom],
    state: &mut State,
    instance: usize,
    listed: &[u32],
)
    requires tables { AreTables tables.now }
    requires state { IsStateOf (design_of tables.now) (plain_state state.old) }
    requires instance { instance < length (paths_of (tree_of (design_of tables.now))) }
    requires rooms { HaveRooms (kept_of tables.now instance) rooms.now }
    requires ascending { IsAscending listed.now }
    requires can { (c : ℕ) → listed_in listed.now c ≡ true →
        CanStepAt (kept_of tables.now instance) rooms.now c
        (cell_held (instance_state (plain_state state.old) instance).cells c) }
    ensures stepped { HaveStepped (kept_of tables.now instance) rooms.now instance (listed_in listed.now)
        (plain_state state.old) (plain_state state.new) }
{
    let stepping = stepping_of(tables, instance);
    let own = &mut state.instances[instance];
    step_listed(&stepping.cells, rooms, &mut own.cells, listed);
}
