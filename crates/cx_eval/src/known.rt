//! What is found before the cells of a cycle are looked at.

ghost use Rattle.std.specs.Prelude.{◌≡◌, ℕ, IfSome, Some, slice_get};
ghost use Rattle.cx_meaning.specs.Instances.{Instance};
ghost use Rattle.cx_design.specs.declared.actives.Active.TheVariants.{Group};
ghost use Rattle.cx_eval_network.specs.Askings.{IsAsking, asked_of};
ghost use Rattle.cx_eval_network.specs.Networks.{Asked};
ghost use Rattle.cx_eval.specs.declared.sources.CellSources as known;
ghost use Rattle.cx_eval.specs.declared.sources.Source as sources;
ghost use Rattle.cx_eval.specs.Looked.{CanDemand};
ghost use Rattle.cx_eval.specs.Shown.{AreKnownCells, Serves, ServesAs, ShowPorts, own_component};
ghost use Rattle.cx_eval.specs.Sources.{AreSourcesOf};

use crate::demanding::PortSources;
use crate::operators::find_operators;
use crate::sources::{CellSources, ClosedGroup, GroupSources, Source};
use cx_design::Seen;
use cx_eval_network::{Asking, GroupList, Marks};

/// What serves the cells of a cycle: nothing, the ports of a list of what is active, or what is known of a closed group.
#[derive(Clone, Copy)]
pub(crate) enum Ahead<'a> {
    Nothing,
    List(GroupList),
    Closed(&'a ClosedGroup),
}

/// Cells of the asked instance of whose ports sources are known, and what the operators of these are seen as.
#[derive(Clone, Copy)]
pub struct KnownCells<'a> {
    /// The component of the asked instance.
    pub component: u32,
    pub slots: &'a [Seen],
    pub cells: &'a [CellSources],
}

impl<'a> KnownCells<'a> {
    /// The sources of the ports of a cell, where it stands at this place; else none.
    pub fn ports(&self, place: usize, cell: usize) -> PortSources<'a>
        ensures value { (a : Asked) → AreKnownCells a self.now → ShowPorts a cell result }
    {
        PortSources {
            component: self.component,
            slots: self.slots,
            ports: ports_at(self.cells, place, cell),
        }
    }
}

/// The sources of the ports of a cell, where it stands at a place.
fn ports_at(cells: &[CellSources], place: usize, cell: usize) -> &[Source]
    ensures value { (p : ℕ) (source : sources.Source) → slice_get result.now p ≡ Some source →
        (c : known.CellSources) × (slice_get cells.now place ≡ Some c) × (c.cell ≡ cell)
        × (slice_get c.ports.items p ≡ Some source) }
{
    match cells.get(place) {
        Some(known) if known.cell as usize == cell => &known.ports,
        Some(_) | None => &[],
    }
}

/// What serves the cells of a group that is active.
pub(crate) fn ahead_of(known: Option<&GroupSources>) -> Ahead<'_>
    ensures value { (i : Instance) (group : ℕ) →
        IfSome known.entry (λ own. AreSourcesOf i group own.now) → ServesAs i (Group group) result }
{
    match known {
        Some(
            GroupSources {
                closed: Some(closed),
                ..
            },
        ) => Ahead::Closed(closed),
        Some(_) | None => Ahead::List(GroupList::Others),
    }
}

/// Finds what serves the cells of a cycle. It takes no memory.
pub(crate) fn find_ahead<'b>(
    asking: &Asking<'_>,
    component: u32,
    marks: &mut Marks,
    slots: &'b mut [Seen],
    ahead: Ahead<'b>,
) -> KnownCells<'b>
    requires can { IsAsking asking.now }
    requires component { component ≡ own_component (asked_of asking.now) }
    requires ready { CanDemand asking.now marks.old }
    requires ahead { Serves asking.now ahead }
    ensures known { AreKnownCells (asked_of asking.now) result }
    ensures ready { CanDemand asking.now marks.new }
{
    match ahead {
        Ahead::Closed(closed) if closed.operators.len() <= slots.len() => {
            find_operators(asking, component, &closed.operators, slots);
            KnownCells {
                component,
                slots,
                cells: &closed.cells,
            }
        }
        Ahead::List(list) => {
            marks.fill(asking, list);
            no_cells(component)
        }
        Ahead::Nothing | Ahead::Closed(_) => no_cells(component),
    }
}

/// No cell of which sources are known.
fn no_cells(component: u32) -> KnownCells<'static>
    ensures value { (a : Asked) → component ≡ own_component a → AreKnownCells a result }
{
    KnownCells {
        component,
        slots: &[],
        cells: &[],
    }
}
