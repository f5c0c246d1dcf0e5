//! What an evaluator knows of its design and never changes.

ghost use Rattle.std.specs.Prelude.{◌≡◌, ◌<◌, IfOk, IfSome, length};
ghost use Rattle.cx_meaning.specs.Instances.{paths_of, tree_of};
ghost use Rattle.cx_rules.specs.Wellformed.{IsDesign};
ghost use Rattle.cx_rules.specs.Flat.{IsFlat};
ghost use Rattle.cx_design.specs.PlainDesigns.{plain_design};
ghost use Rattle.cx_state.specs.States.{IsStateOf, plain_state};
ghost use Rattle.cx_eval_network.specs.Askings.{IsAsking, asked_of};
ghost use Rattle.cx_eval_network.specs.Nodes.{part_at};
ghost use Rattle.cx_eval_cycle.specs.Stepping.{AreSteppingCells};
ghost use Rattle.cx_eval.specs.Evaluated.{CanAct};
ghost use Rattle.cx_eval.specs.Tables.{AreRooms, AreSteppingParts, AreTables, asked_in, cells_at, design_of, kept_of};
ghost use Rattle.cx_eval.specs.Sources.{AreSourcesOf};

use crate::firsts::all_firsts;
use crate::groups::{PartSources, all_sources, group_sources};
use crate::sources::GroupSources;
use cx_design::{Active, Checked, Design, Group};
use cx_design_parts::component;
use cx_eval_cycle::{CellRoom, SteppingCells, rooms_for};
use cx_eval_network::{Asking, Nodes, accepted_designs_are_networks};
use cx_state::{InstanceTable, State, instances};
use cx_text::Memory;
use std::alloc::Global;

/// A design, and the tables of its instances, of their ports, and of the cells that can step.
#[derive(Drop)]
pub(crate) struct Tables<'a> {
    pub(crate) design: &'a Design,
    pub(crate) table: InstanceTable,
    pub(crate) nodes: Nodes,
    /// For each instance the nodes of the first ports of its cells.
    pub(crate) firsts: Vec<Vec<usize>>,
    /// What is known of the groups of each component.
    pub(crate) sources: Vec<PartSources>,
    /// The cells of each component that can step.
    pub(crate) parts: Vec<SteppingCells<'a>>,
    /// The empty active set, for the instances below the asked one.
    pub(crate) nothing: Active,
}

impl<'a> Tables<'a> {
    /// The tables of an accepted design.
    pub(crate) fn new(alloc: Global, design: &'a Checked) -> Result<Tables<'a>, Memory>
        requires flat { IsFlat (plain_design design.now) }
        ensures design { IfOk result (λ tables. tables.design.now ≡ design.now) }
        ensures tables { IfOk result AreTables }
    {
        let table = instances(alloc, design)?;
        let design = design.design();
        let nodes = Nodes::new(alloc, design, &table)?;
        let firsts = all_firsts(alloc, design, &table, &nodes)?;
        let sources = all_sources(alloc, design, &nodes)?;
        let parts = stepping_parts(alloc, design)?;
        Ok(Tables {
            design,
            table,
            nodes,
            firsts,
            sources,
            parts,
            nothing: Active::Nothing,
        })
    }
}

/// An instance that is asked under an active set, in a state.
pub(crate) fn ask<'b, 'a>(
    tables: &'b Tables<'a>,
    state: &'b State,
    active: &'b Active,
    instance: usize,
) -> Asking<'b>
    requires tables { AreTables tables.now }
    requires state { IsStateOf (design_of tables.now) (plain_state state.now) }
    requires instance { instance < length (paths_of (tree_of (design_of tables.now))) }
    requires active { CanAct (design_of tables.now) instance active.now }
    ensures asked { asked_of result ≡ asked_in tables.now (plain_state state.now) instance active.now }
    ensures nodes { result.nodes.now ≡ tables.now.nodes }
    ensures active { result.active.now ≡ active.now }
    ensures can { IsAsking result }
{
    accepted_designs_are_networks();
    Asking {
        design: tables.design,
        table: &tables.table,
        nodes: &tables.nodes,
        state,
        active,
        nothing: &tables.nothing,
        instance,
    }
}

/// The cells of each component of a design that can step.
fn stepping_parts<'a>(alloc: Global, design: &'a Design) -> Result<Vec<SteppingCells<'a>>, Memory>
    requires design { IsDesign (plain_design design.now) }
    ensures value { IfOk result (λ parts. AreSteppingParts (plain_design design.now) parts.items) }
{
    let mut parts = Vec::new(alloc);
    for number in 0..design.components.len() {
        let cells = component(design, number).cells.as_slice();
        parts.push(SteppingCells::new(alloc, cells)?)?;
    }
    Ok(parts)
}

/// Room for a look at each cell of each component that can step.
pub(crate) fn rooms_of(alloc: Global, tables: &Tables<'_>) -> Result<Vec<Vec<CellRoom>>, Memory>
    ensures value { IfOk result (λ rooms. AreRooms tables.now rooms.items) }
{
    let mut rooms = Vec::new(alloc);
    for number in 0..tables.parts.len() {
        rooms.push(rooms_for(alloc, &tables.parts[number].cells)?)?;
    }
    Ok(rooms)
}

/// The cells of an instance that can step.
pub(crate) fn stepping_of<'b, 'a>(tables: &'b Tables<'a>, instance: usize) -> &'b SteppingCells<'a>
    requires tables { AreTables tables.now }
    requires instance { instance < length (paths_of (tree_of (design_of tables.now))) }
    ensures value { AreSteppingCells (cells_at tables.now instance) result.now }
    ensures kept { result.now.cells.items ≡ kept_of tables.now instance }
{
    let part = tables.table.rows[instance].component as usize;
    &tables.parts[part]
}

/// A group of an instance, where it is there.
pub(crate) fn group_at<'b>(
    tables: &'b Tables<'_>,
    instance: usize,
    group: u32,
) -> Option<&'b Group> {
    let row = tables.table.rows.get(instance)?;
    let part = tables.design.components.get(row.component as usize)?;
    part.groups.get(group as usize)
}

/// What is known of a group of an instance before any run, where it is there.
pub(crate) fn known_group<'b>(
    tables: &'b Tables<'_>,
    instance: usize,
    group: u32,
) -> Option<&'b GroupSources>
    requires tables { AreTables tables.now }
    requires instance { instance < length (paths_of (tree_of (design_of tables.now))) }
    ensures value { IfSome result (λ known. AreSourcesOf
        (part_at (design_of tables.now) tables.now.table.rows.items instance) group known.now) }
{
    group_sources(
        &tables.sources,
        tables.table.rows[instance].component,
        group,
    )
}
