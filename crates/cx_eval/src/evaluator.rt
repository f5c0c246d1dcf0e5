//! The evaluator of a design.

ghost use Rattle.std.specs.Prelude.{◌≡◌, ℕ, ◌<◌, IfOk, length};
ghost use Rattle.cx_meaning.specs.Cycles.{every_cell};
ghost use Rattle.cx_meaning.specs.Instances.{paths_of, tree_of};
ghost use Rattle.cx_design.specs.PlainDesigns.{plain_design};
ghost use Rattle.cx_design.specs.declared.actives.Active.TheVariants.{Group};
ghost use Rattle.cx_meaning.specs.declared.ports.PortRef.TheVariants.{Done};
ghost use Rattle.cx_state.specs.States.{IsStateOf, plain_state};
ghost use Rattle.cx_eval.specs.Evaluated.{CanAct, Cycled, IsPort, IsSeen, Turned};
ghost use Rattle.cx_eval_cycle.specs.Passes.{IsAscending, listed_in};
ghost use Rattle.cx_rules.specs.Flat.{IsFlat};

use crate::cycling::{cycle_all, cycle_anew};
use crate::groups::most_operators;
use crate::sights::{seen_in, test_seen};
use crate::tables::{Tables, rooms_of};
use crate::turns::{GroupTurn, turn_in};
use cx_design::{Active, Checked, PortFault, PortRef, Seen};
use cx_eval_cycle::CellRoom;
use cx_eval_network::Marks;
use cx_state::State;
use cx_text::Memory;
use std::alloc::Global;
use std::marker::Model;

/// An evaluator of a design. Contracts see it as the design.
#[derive(Drop)]
pub struct Evaluator<'a> {
    tables: Tables<'a>,
    /// What is known of the ports of all instances, in one state and under one active set.
    marks: Marks,
    /// Room for a look at each cell of each component that can step.
    rooms: Vec<Vec<CellRoom>>,
    /// Room for what the operators of a group are seen as. What it holds between calls is of no account.
    slots: Vec<Seen>,
}

impl<'a> Model for Evaluator<'a> {
    ghost use Rattle.cx_design.specs.declared.designs.Design.{Design};
    ghost use Rattle.std.specs.Coded.{codes};
    ghost use Rattle.cx_design.specs.contracts.designs.Design as designs;
    ghost use Rattle.cx_eval.specs.Tables.{AreMarksOf, AreRooms, AreTables};

    ghost Value = { Design };

    ghost coded = { Prim.hlevel (codes, designs.the_row.coded) };

    ghost view = { λ e. e.tables.design.now };

    ghost invariant = { λ e. AreTables e.tables × AreMarksOf e.tables e.marks × AreRooms e.tables e.rooms.items };
}

impl<'a> Evaluator<'a> {
    /// An evaluator of an accepted design without static components.
    pub fn new(alloc: Global, design: &'a Checked) -> Result<Evaluator<'a>, Memory>
        requires flat { IsFlat (plain_design design.now) }
        ensures value { IfOk result (λ e. e ≡ design.entry.now) }
    {
        let tables = Tables::new(alloc, design)?;
        let marks = Marks::new(alloc, tables.nodes.count())?;
        let rooms = rooms_of(alloc, &tables)?;
        let slots = vec![in alloc; Seen::Undefined; most_operators(&tables.sources)]?;
        Ok(Evaluator {
            tables,
            marks,
            rooms,
            slots,
        })
    }

    /// What a port of an instance is seen as under an active set. It takes no memory.
    pub fn seen(&mut self, state: &State, instance: usize, active: &Active, port: PortRef) -> Seen
        requires state { IsStateOf (plain_design self.old) (plain_state state.now) }
        requires instance { instance < length (paths_of (tree_of (plain_design self.old))) }
        requires active { CanAct (plain_design self.old) instance active.now }
        requires port { IsPort (plain_design self.old) instance port }
        ensures value { IsSeen (plain_design self.old) (plain_state state.now) instance active.now port result }
        ensures same { self.new ≡ self.old }
    {
        match test_seen(&self.tables, &mut self.slots, state, active, instance, port) {
            Some(seen) => seen,
            None => {
                self.marks.forget();
                seen_in(
                    &self.tables,
                    &mut self.marks,
                    state,
                    active,
                    instance,
                    None,
                    port,
                )
            }
        }
    }

    /// A cycle of an instance under an active set: its next state, or exactly its fault, which leaves the state. It takes no
    /// memory.
    pub fn cycle(
        &mut self,
        state: &mut State,
        instance: usize,
        active: &Active,
    ) -> Result<(), PortFault>
        requires state { IsStateOf (plain_design self.old) (plain_state state.old) }
        requires instance { instance < length (paths_of (tree_of (plain_design self.old))) }
        requires active { CanAct (plain_design self.old) instance active.now }
        ensures value { Cycled (plain_design self.old) (plain_state state.old)
            (plain_state state.new) instance active.now every_cell result }
        ensures fits { IsStateOf (plain_design self.old) (plain_state state.new) }
        ensures same { self.new ≡ self.old }
    {
        self.marks.forget();
        cycle_all(
            &self.tables,
            &mut self.marks,
            &mut self.rooms,
            &mut self.slots,
            state,
            active,
            instance,
        )
    }

    /// A cycle of the listed cells alone: only they are looked at, and only they make a step. It takes no memory.
    pub fn cycle_of(
        &mut self,
        state: &mut State,
        instance: usize,
        active: &Active,
        cells: &[u32],
    ) -> Result<(), PortFault>
        requires state { IsStateOf (plain_design self.old) (plain_state state.old) }
        requires instance { instance < length (paths_of (tree_of (plain_design self.old))) }
        requires active { CanAct (plain_design self.old) instance active.now }
        requires ascending { IsAscending cells.now }
        ensures value { Cycled (plain_design self.old) (plain_state state.old)
            (plain_state state.new) instance active.now (listed_in cells.now) result }
        ensures fits { IsStateOf (plain_design self.old) (plain_state state.new) }
        ensures same { self.new ≡ self.old }
    {
        self.marks.forget();
        cycle_anew(
            &self.tables,
            &mut self.marks,
            &mut self.rooms,
            &mut self.slots,
            state,
            active,
            instance,
            cells,
        )
    }

    /// A turn of a group: what its done hole is seen as under the group, and where that is 0 a cycle of the listed cells.
    /// Each port is found once. It takes no memory.
    pub fn group_turn(
        &mut self,
        state: &mut State,
        instance: usize,
        group: u32,
        cells: &[u32],
    ) -> GroupTurn
        requires state { IsStateOf (plain_design self.old) (plain_state state.old) }
        requires instance { instance < length (paths_of (tree_of (plain_design self.old))) }
        requires active { CanAct (plain_design self.old) instance (Group group) }
        requires port { IsPort (plain_design self.old) instance (Done group) }
        requires ascending { IsAscending cells.now }
        ensures value { Turned (plain_design self.old) (plain_state state.old)
            (plain_state state.new) instance group (listed_in cells.now) result }
        ensures fits { IsStateOf (plain_design self.old) (plain_state state.new) }
        ensures same { self.new ≡ self.old }
    {
        self.marks.forget();
        turn_in(
            &self.tables,
            &mut self.marks,
            &mut self.rooms,
            &mut self.slots,
            state,
            instance,
            group,
            cells,
        )
    }
}
