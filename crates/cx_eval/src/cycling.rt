//! A cycle of an instance: its first fault on demand, and then the steps of its cells with what was found at their ports.

ghost use Rattle.std.specs.Prelude.{◌≡◌, ◌<◌, ◌^◌, length};
ghost use Rattle.cx_meaning.specs.Cycles.{every_cell};
ghost use Rattle.cx_meaning.specs.Instances.{paths_of, tree_of};
ghost use Rattle.cx_meaning.specs.declared.ports.PortRef.TheVariants.{Cell};
ghost use Rattle.cx_state.specs.States.{IsStateOf, instance_state, plain_state};
ghost use Rattle.cx_eval_cycle.specs.Passes.{IsAscending, listed_in};
ghost use Rattle.cx_eval_cycle.specs.Rooms.{HaveRooms};
ghost use Rattle.cx_eval.specs.Cycling.{IsFirst};
ghost use Rattle.cx_eval.specs.Evaluated.{CanAct, Cycled};
ghost use Rattle.cx_eval.specs.Tables.{AreMarksOf, AreReady, AreRooms, AreTables, asked_in, cells_at, design_of, kept_of};
ghost use Rattle.cx_eval.specs.Shown.{ServesIn};

use crate::faults::first_fault;
use crate::known::{Ahead, find_ahead};
use crate::laws::seen_ports_are_wide;
use crate::stepping::step_in;
use crate::tables::{Tables, ask, group_at, stepping_of};
use cx_design::{Active, GroupKind, PortFault, PortRef, Seen};
use cx_eval_cycle::{CellFault, CellRoom};
use cx_eval_network::{GroupList, Marks};
use cx_state::State;

/// The first fault among the listed cells of an instance; where there is none, the rooms have what stands at their ports.
/// What serves these cells is found first, so that looks wait for none.
fn fault_in(
    tables: &Tables<'_>,
    marks: &mut Marks,
    rooms: &mut [CellRoom],
    slots: &mut [Seen],
    state: &State,
    active: &Active,
    instance: usize,
    listed: &[u32],
    ahead: Ahead<'_>,
) -> Option<CellFault>
    requires tables { AreTables tables.now }
    requires state { IsStateOf (design_of tables.now) (plain_state state.now) }
    requires instance { instance < length (paths_of (tree_of (design_of tables.now))) }
    requires active { CanAct (design_of tables.now) instance active.now }
    requires ready { AreReady tables.now (plain_state state.now) instance active.now marks.old }
    requires rooms { HaveRooms (kept_of tables.now instance) rooms.old }
    requires ahead { ServesIn tables.now instance active.now ahead }
    ensures first { IsFirst (asked_in tables.now (plain_state state.now) instance active.now)
        (cells_at tables.now instance) (kept_of tables.now instance)
        (instance_state (plain_state state.now) instance).cells listed.now rooms.new result }
    ensures rooms { HaveRooms (kept_of tables.now instance) rooms.new }
    ensures count { AreMarksOf tables.now marks.new }
{
    seen_ports_are_wide();
    let asking = ask(tables, state, active, instance);
    let component = tables.table.rows[instance].component;
    let known = find_ahead(&asking, component, marks, slots, ahead);
    let firsts = tables.firsts[instance].as_slice();
    let stepping = stepping_of(tables, instance);
    first_fault(
        &asking,
        firsts,
        marks,
        known,
        &stepping.cells,
        rooms,
        listed,
    )
}

/// The fault of a cell of an instance, as it is told.
fn told(fault: CellFault, instance: usize) -> PortFault
    requires few { instance < 2 ^ 32 }
    ensures value { result ≡
        record { kind = fault.stop.kind; instance = instance; port = Cell fault.cell fault.stop.port } }
{
    PortFault {
        kind: fault.stop.kind,
        instance: instance as u32,
        port: PortRef::Cell(fault.cell, fault.stop.port),
    }
}

/// A cycle of the listed cells of an instance, with room for a look at each, where what is marked is right.
fn cycle_in(
    tables: &Tables<'_>,
    marks: &mut Marks,
    rooms: &mut [CellRoom],
    slots: &mut [Seen],
    state: &mut State,
    active: &Active,
    instance: usize,
    listed: &[u32],
    ahead: Ahead<'_>,
) -> Result<(), PortFault>
    requires tables { AreTables tables.now }
    requires state { IsStateOf (design_of tables.now) (plain_state state.old) }
    requires instance { instance < length (paths_of (tree_of (design_of tables.now))) }
    requires active { CanAct (design_of tables.now) instance active.now }
    requires ready { AreReady tables.now (plain_state state.old) instance active.now marks.old }
    requires rooms { HaveRooms (kept_of tables.now instance) rooms.old }
    requires ascending { IsAscending listed.now }
    requires ahead { ServesIn tables.now instance active.now ahead }
    ensures value { Cycled (design_of tables.now) (plain_state state.old)
        (plain_state state.new) instance active.now (listed_in listed.now) result }
    ensures fits { IsStateOf (design_of tables.now) (plain_state state.new) }
    ensures rooms { HaveRooms (kept_of tables.now instance) rooms.new }
    ensures count { AreMarksOf tables.now marks.new }
{
    if let Some(fault) = fault_in(
        tables, marks, rooms, slots, state, active, instance, listed, ahead,
    ) {
        return Err(told(fault, instance));
    }
    step_in(tables, rooms, state, instance, listed);
    Ok(())
}

/// A cycle of the listed cells of an instance, where what is marked is right. It takes no memory.
#[inline(always)]
pub(crate) fn cycle_listed(
    tables: &Tables<'_>,
    marks: &mut Marks,
    rooms: &mut [Vec<CellRoom>],
    slots: &mut [Seen],
    state: &mut State,
    active: &Active,
    instance: usize,
    listed: &[u32],
    ahead: Ahead<'_>,
) -> Result<(), PortFault>
    requires tables { AreTables tables.now }
    requires state { IsStateOf (design_of tables.now) (plain_state state.old) }
    requires instance { instance < length (paths_of (tree_of (design_of tables.now))) }
    requires active { CanAct (design_of tables.now) instance active.now }
    requires ready { AreReady tables.now (plain_state state.old) instance active.now marks.old }
    requires rooms { AreRooms tables.now rooms.old }
    requires ascending { IsAscending listed.now }
    requires ahead { ServesIn tables.now instance active.now ahead }
    ensures value { Cycled (design_of tables.now) (plain_state state.old)
        (plain_state state.new) instance active.now (listed_in listed.now) result }
    ensures fits { IsStateOf (design_of tables.now) (plain_state state.new) }
    ensures rooms { AreRooms tables.now rooms.new }
    ensures count { AreMarksOf tables.now marks.new }
{
    let part = tables.table.rows[instance].component as usize;
    let own = &mut rooms[part];
    cycle_in(
        tables, marks, own, slots, state, active, instance, listed, ahead,
    )
}

/// How many cycles a static group has at most for its ports to be found before its cells are looked at. In a cycle of a longer one
/// most cells are not enabled, and what their other ports rest on is not needed.
const SHORT: u64 = 2;

/// Whether a group of an instance is such a static one.
fn is_short(tables: &Tables<'_>, instance: usize, group: u32) -> bool {
    match group_at(tables, instance, group) {
        Some(group) => matches!(group.kind, GroupKind::Timed(length) if length <= SHORT),
        None => false,
    }
}

/// What serves the cells of a cycle that no turn has begun: the list of the one short static group of an island.
fn island_list(tables: &Tables<'_>, active: &Active, instance: usize) -> Ahead<'static>
    ensures value { ServesIn tables.now instance active.now result }
{
    match active {
        Active::Entries(entries)
            if entries.len() == 1 && is_short(tables, instance, entries[0].group) => {
            Ahead::List(GroupList::Others)
        }
        _ => Ahead::Nothing,
    }
}

/// A cycle of the listed cells of an instance that no turn has begun. It takes no memory.
pub(crate) fn cycle_anew(
    tables: &Tables<'_>,
    marks: &mut Marks,
    rooms: &mut [Vec<CellRoom>],
    slots: &mut [Seen],
    state: &mut State,
    active: &Active,
    instance: usize,
    listed: &[u32],
) -> Result<(), PortFault>
    requires tables { AreTables tables.now }
    requires state { IsStateOf (design_of tables.now) (plain_state state.old) }
    requires instance { instance < length (paths_of (tree_of (design_of tables.now))) }
    requires active { CanAct (design_of tables.now) instance active.now }
    requires ready { AreReady tables.now (plain_state state.old) instance active.now marks.old }
    requires rooms { AreRooms tables.now rooms.old }
    requires ascending { IsAscending listed.now }
    ensures value { Cycled (design_of tables.now) (plain_state state.old)
        (plain_state state.new) instance active.now (listed_in listed.now) result }
    ensures fits { IsStateOf (design_of tables.now) (plain_state state.new) }
    ensures rooms { AreRooms tables.now rooms.new }
    ensures count { AreMarksOf tables.now marks.new }
{
    let ahead = island_list(tables, active, instance);
    cycle_listed(
        tables, marks, rooms, slots, state, active, instance, listed, ahead,
    )
}

/// A cycle of all cells of an instance: of those that can step, since the others stay. It takes no memory.
pub(crate) fn cycle_all(
    tables: &Tables<'_>,
    marks: &mut Marks,
    rooms: &mut [Vec<CellRoom>],
    slots: &mut [Seen],
    state: &mut State,
    active: &Active,
    instance: usize,
) -> Result<(), PortFault>
    requires tables { AreTables tables.now }
    requires state { IsStateOf (design_of tables.now) (plain_state state.old) }
    requires instance { instance < length (paths_of (tree_of (design_of tables.now))) }
    requires active { CanAct (design_of tables.now) instance active.now }
    requires ready { AreReady tables.now (plain_state state.old) instance active.now marks.old }
    requires rooms { AreRooms tables.now rooms.old }
    ensures value { Cycled (design_of tables.now) (plain_state state.old)
        (plain_state state.new) instance active.now every_cell result }
    ensures fits { IsStateOf (design_of tables.now) (plain_state state.new) }
    ensures rooms { AreRooms tables.now rooms.new }
    ensures count { AreMarksOf tables.now marks.new }
{
    let stepping = stepping_of(tables, instance);
    cycle_anew(
        tables,
        marks,
        rooms,
        slots,
        state,
        active,
        instance,
        &stepping.numbers,
    )
}
