//! Turns of groups.

ghost use Rattle.std.specs.Prelude.{◌≡◌, ◌≢◌, ◌<◌, ℕ, [], IfSome, true, false, length};
ghost use Rattle.cx_meaning.specs.Instances.{Instance, paths_of, tree_of};
ghost use Rattle.cx_meaning.specs.declared.ports.PortRef.TheVariants.{Done};
ghost use Rattle.cx_meaning.specs.Truths as truths;
ghost use Rattle.cx_meaning.specs.Truths.{Zero};
ghost use Rattle.cx_design.specs.declared.actives.Active.TheVariants.{Group};
ghost use Rattle.cx_state.specs.States.{IsStateOf, plain_state};
ghost use Rattle.cx_eval_cycle.specs.Passes.{IsAscending, listed_in};
ghost use Rattle.cx_eval_network.specs.Nodes.{part_at};
ghost use Rattle.cx_eval.specs.Evaluated.{CanAct, IsPort, IsSeen, Turned};
ghost use Rattle.cx_eval.specs.Shown.{ServesAs};
ghost use Rattle.cx_eval.specs.Sources.{AreSourcesOf, IsSeenBy};
ghost use Rattle.cx_eval.specs.Tables.{AreMarksOf, AreReady, AreRooms, AreTables, design_of};

use crate::cycling::cycle_listed;
use crate::known::ahead_of;
use crate::seeing::source_seen;
use crate::sights::seen_in;
use crate::sources::{GroupSources, Source};
use crate::tables::{Tables, ask, known_group};
use cx_design::{Active, PortFault, PortRef, Seen};
use cx_eval_cycle::CellRoom;
use cx_eval_drives::{Truth, truth_of};
use cx_eval_network::{GroupList, Marks};
use cx_state::State;

/// What a turn of a group comes to.
#[derive(Clone, Copy, Debug, PartialEq, Eq)]
pub enum GroupTurn {
    /// Its done hole is seen as this, which is not 0, and nothing changes.
    Seen(Seen),
    /// Its done hole is seen as 0: how a cycle of the listed cells ends.
    Cycled(Result<(), PortFault>),
}

/// Whether a port is seen as the value 0.
fn is_zero(seen: &Seen) -> bool
    ensures zero { result ≡ true → truths.truth_of seen.now ≡ Zero }
    ensures not_zero { result ≡ false → truths.truth_of seen.now ≢ Zero }
{
    matches!(truth_of(*seen), Truth::Zero)
}

/// A turn of a group, where what is marked is right under it. It takes no memory.
pub(crate) fn turn_in(
    tables: &Tables<'_>,
    marks: &mut Marks,
    rooms: &mut [Vec<CellRoom>],
    slots: &mut [Seen],
    state: &mut State,
    instance: usize,
    group: u32,
    cells: &[u32],
) -> GroupTurn
    requires tables { AreTables tables.now }
    requires state { IsStateOf (design_of tables.now) (plain_state state.old) }
    requires instance { instance < length (paths_of (tree_of (design_of tables.now))) }
    requires active { CanAct (design_of tables.now) instance (Group group) }
    requires port { IsPort (design_of tables.now) instance (Done group) }
    requires ready { AreReady tables.now (plain_state state.old) instance (Group group) marks.old }
    requires rooms { AreRooms tables.now rooms.old }
    requires ascending { IsAscending cells.now }
    ensures value { Turned (design_of tables.now) (plain_state state.old)
        (plain_state state.new) instance group (listed_in cells.now) result }
    ensures fits { IsStateOf (design_of tables.now) (plain_state state.new) }
    ensures rooms { AreRooms tables.now rooms.new }
    ensures sized { AreMarksOf tables.now marks.new }
{
    let active = Active::Group(group);
    let known = known_group(tables, instance, group);
    let hole = hole_seen(tables, marks, state, &active, instance, group, known);
    if is_zero(&hole) {
        let ahead = ahead_of(known);
        GroupTurn::Cycled(cycle_listed(
            tables, marks, rooms, slots, state, &active, instance, cells, ahead,
        ))
    } else {
        GroupTurn::Seen(hole)
    }
}

/// The source of the done hole of a group, where it is known.
fn hole_of(known: Option<&GroupSources>) -> Option<Source>
    ensures value { (i : Instance) (group : ℕ) →
        IfSome known.entry (λ own. AreSourcesOf i group own.now) →
        IfSome result (λ source. IsSeenBy i (Group group) [] (Done group) source) }
{
    match known {
        Some(own) => own.hole,
        None => None,
    }
}

/// What the done hole of a group is seen as: by its source, or else by a list.
#[inline(always)]
fn hole_seen(
    tables: &Tables<'_>,
    marks: &mut Marks,
    state: &State,
    active: &Active,
    instance: usize,
    group: u32,
    known: Option<&GroupSources>,
) -> Seen
    requires tables { AreTables tables.now }
    requires state { IsStateOf (design_of tables.now) (plain_state state.now) }
    requires instance { instance < length (paths_of (tree_of (design_of tables.now))) }
    requires group { active.now ≡ Group group }
    requires active { CanAct (design_of tables.now) instance active.now }
    requires port { IsPort (design_of tables.now) instance (Done group) }
    requires ready { AreReady tables.now (plain_state state.now) instance active.now marks.old }
    requires known { IfSome known (λ own. AreSourcesOf
        (part_at (design_of tables.now) tables.now.table.rows.items instance) group own.now) }
    ensures value { IsSeen (design_of tables.now) (plain_state state.now) instance active.now (Done group) result }
    ensures ready { AreReady tables.now (plain_state state.now) instance active.now marks.new }
{
    match hole_of(known) {
        Some(source) => {
            let asking = ask(tables, state, active, instance);
            let component = tables.table.rows[instance].component;
            source_seen(&asking, component, &[], &source)
        }
        None => {
            let list = Some(GroupList::Hole);
            let hole = PortRef::Done(group);
            seen_in(tables, marks, state, active, instance, list, hole)
        }
    }
}
