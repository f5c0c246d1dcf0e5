//! Groups of which every port that a turn looks at has a source.

ghost use Rattle.std.specs.Prelude.{◌≡◌, List, [], IfOk, IfSome, OnOk};
ghost use Rattle.cx_meaning.specs.declared.ports.PortRef.TheVariants.{Done};
ghost use Rattle.cx_meaning.specs.Instances.{Instance};
ghost use Rattle.cx_design.specs.declared.actives.Active.TheVariants as actives;
ghost use Rattle.cx_eval_network.specs.Lists.{AreGroupPorts};
ghost use Rattle.cx_eval.specs.declared.sources.Operator as operator;
ghost use Rattle.cx_eval.specs.Sources.{AreCellsSeen, AreKnownPorts, AreOperators, AreSourcesOf, HaveGrown, IsClosed, IsPartGroup, IsSeenBy};

use crate::closing::{KnownPorts, add_outputs, known_ports, port_sources};
use crate::leaves::{PartGroup, leaf};
use crate::sources::{CellSources, ClosedGroup, GroupSources, Operator, Source};
use cx_cells::Primitive;
use cx_design::{Assign, CellKind, Component, Group, GroupKind, PortRef};
use cx_eval_network::GroupPorts;
use cx_prim::{Cycle, Side};
use cx_text::Memory;
use std::alloc::Global;
use std::collections::BTreeSet;

/// What is known of a group of a component, by its number and its lists.
pub(crate) fn sources_of(
    alloc: Global,
    component: &Component,
    of: &PartGroup<'_>,
    group: u32,
    lists: &GroupPorts,
) -> Result<GroupSources, Memory>
    requires active { of.now.active.now ≡ actives.Group group }
    requires lists { AreGroupPorts of.now.part.now.ports.items of.now.plans.now.ports.items
        of.now.active.now lists.now }
    ensures value { IfOk result (λ known. (i : Instance) → IsPartGroup i of.now →
        AreSourcesOf i group known) }
{
    let hole = hole_source(of, group);
    let closed = match component.groups.get(group as usize) {
        Some(group) => closed_group(alloc, component, of, group, lists)?,
        None => None,
    };
    Ok(GroupSources { hole, closed })
}

/// What the done hole of a group is seen as, where no operator is needed for that.
fn hole_source(of: &PartGroup<'_>, group: u32) -> Option<Source>
    ensures value { IfSome result (λ source. (i : Instance) → IsPartGroup i of.now →
        IsSeenBy i of.now.active.now [] (Done group) source) }
{
    let number = of.part.numbers.node(PortRef::Done(group))?;
    leaf(of, number as usize)
}

/// What the turns of a group look at, where all of it has a source.
fn closed_group(
    alloc: Global,
    component: &Component,
    of: &PartGroup<'_>,
    group: &Group,
    lists: &GroupPorts,
) -> Result<Option<ClosedGroup>, Memory>
    requires lists { AreGroupPorts of.now.part.now.ports.items of.now.plans.now.ports.items
        of.now.active.now lists.now }
    ensures value { IfOk result (λ found. IfSome found (λ closed. (i : Instance) → IsPartGroup i of.now →
        IsClosed i of.now.active.now closed)) }
{
    let mut operators = Vec::new(alloc);
    let known = known_ports(alloc, of, &lists.others, &mut operators)?;
    let driven = driven_cells(alloc, &group.assigns)?;
    let tested = tested_cells(group.kind, &driven);
    add_tests(alloc, component, of, &known, &mut operators, tested)?;
    match all_cells(alloc, component, of, &known, &driven)? {
        Some(cells) => Ok(Some(ClosedGroup { operators, cells })),
        None => Ok(None),
    }
}

/// The cells of which an output may be the port of a test under a group: those that it drives, where it is a comb group.
fn tested_cells(kind: GroupKind, driven: &[u32]) -> &[u32] {
    match kind {
        GroupKind::Comb => driven,
        GroupKind::Plain | GroupKind::Timed(_) => &[],
    }
}

/// Adds the outputs of some cells.
fn add_tests(
    alloc: Global,
    component: &Component,
    of: &PartGroup<'_>,
    known: &KnownPorts,
    operators: &mut Vec<Operator>,
    cells: &[u32],
) -> Result<(), Memory>
    ensures grown { OnOk result (HaveGrown operators.old.items operators.new.items) }
    ensures operators { OnOk result ((i : Instance) → IsPartGroup i of.now →
        AreKnownPorts i of.now.active.now operators.old.items known.now
        → AreOperators i of.now.active.now operators.old.items → AreOperators i of.now.active.now operators.new.items) }
{
    for cell in cells {
        let count = port_count(component, *cell);
        add_outputs(alloc, of, known, operators, *cell, count)?;
    }
    Ok(())
}

/// How many ports a cell has, where it is a primitive.
fn port_count(component: &Component, cell: u32) -> usize {
    match component.cells.get(cell as usize) {
        Some(cell) => match &cell.kind {
            CellKind::Prim(primitive) => primitive.port_count(),
            CellKind::Part(_) => 0,
        },
        None => 0,
    }
}

/// The cells of which assignments drive a port, ascending.
fn driven_cells(alloc: Global, assigns: &[Assign]) -> Result<Vec<u32>, Memory> {
    let mut found = BTreeSet::new(alloc);
    for assign in assigns {
        if let PortRef::Cell(cell, _) = assign.target {
            found.insert(cell)?;
        }
    }
    Ok(found.iter().copied().collect(alloc)?)
}

/// What the ports of some cells are seen as; none where a port that a cycle looks at has no source.
fn all_cells(
    alloc: Global,
    component: &Component,
    of: &PartGroup<'_>,
    known: &KnownPorts,
    driven: &[u32],
) -> Result<Option<Vec<CellSources>>, Memory>
    ensures value { IfOk result (λ found. IfSome found (λ cells. (i : Instance)
        (operators : List operator.Operator) → IsPartGroup i of.now
        → AreKnownPorts i of.now.active.now operators known.now
        → AreCellsSeen i of.now.active.now operators cells.items)) }
{
    let mut cells = Vec::new(alloc);
    for cell in driven {
        match port_sources(alloc, of, known, *cell, looked_at(component, *cell))? {
            Some(ports) => cells.push(CellSources { cell: *cell, ports })?,
            None => return Ok(None),
        }
    }
    Ok(Some(cells))
}

/// How many of the first ports of a cell a cycle may look at: none where it cannot step.
fn looked_at(component: &Component, cell: u32) -> usize {
    match component.cells.get(cell as usize) {
        Some(cell) => match &cell.kind {
            CellKind::Prim(primitive) => input_count(primitive),
            CellKind::Part(_) => 0,
        },
        None => 0,
    }
}

/// How many of its first ports hold all inputs of a primitive, where one of them enables it.
fn input_count(primitive: &Primitive) -> usize {
    let mut enabled = false;
    let mut count = 0;
    for port in 0..primitive.port_count() {
        match primitive.port(port).side {
            Side::Enable => {
                enabled = true;
                count = port + 1;
            }
            Side::Plain => count = port + 1,
            Side::Output | Side::Registered => {}
        }
    }
    if enabled { count } else { 0 }
}
