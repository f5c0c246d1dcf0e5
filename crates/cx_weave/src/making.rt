//! Spare parts as they are made.

ghost use Rattle.std.specs.Prelude.{◌≡◌, ◌≤◌, ◌<◌, ℕ, All, IfOk, length, vec_capacity, vec_len};
ghost use Rattle.cx_meaning.specs.Designs.{component_at};
ghost use Rattle.cx_turns.specs.Machines.{design_of, IsPlan};
ghost use Rattle.cx_turns.specs.Rooms.{HasRoom};
ghost use Rattle.cx_weave.specs.Supplied.{Supplied};
ghost use Rattle.cx_weave.specs.Takes.{control_need};

use crate::needs::{Piece, main_need};
use crate::spares::{IslandLists, Spares};
use crate::strands::{Arms, Strand};
use cx_meaning::Seen;
use cx_text::Memory;
use cx_turns::plan::Plan;
use cx_turns::rooms::{Room, make_unset, most_cells};
use std::alloc::Global;

fn make_boxes<'a>(alloc: Global, count: usize) -> Result<Vec<Box<Strand<'a>>>, Memory>
    ensures { IfOk result (λ boxes. vec_len boxes ≡ count) }
{
    let mut boxes = Vec::with_capacity(alloc, count)?;
    for _box in 0..count {
        boxes.push(Box::new(alloc, Strand::Waiting)?)?;
    }
    Ok(boxes)
}

fn make_arms<'a>(alloc: Global, count: usize) -> Result<Vec<Box<Arms<'a>>>, Memory>
    ensures { IfOk result (λ arms. vec_len arms ≡ count) }
{
    let mut arms = Vec::with_capacity(alloc, count)?;
    for _box in 0..count {
        arms.push(Box::new(alloc, Arms::One(Strand::Waiting))?)?;
    }
    Ok(arms)
}

fn make_inputs(alloc: Global, count: usize, most: usize) -> Result<Vec<Vec<Seen>>, Memory>
    ensures count { IfOk result (λ inputs. vec_len inputs ≡ count) }
    ensures room { IfOk result (λ inputs. All (λ list. most ≤ vec_capacity list) inputs.items) }
{
    let mut inputs = Vec::with_capacity(alloc, count)?;
    for _list in 0..count {
        inputs.push(Vec::with_capacity(alloc, most)?)?;
    }
    Ok(inputs)
}

fn make_islands(
    alloc: Global,
    count: usize,
    ifs: usize,
    most: usize,
) -> Result<Vec<IslandLists>, Memory>
    ensures count { IfOk result (λ islands. vec_len islands ≡ count) }
    ensures cells { IfOk result (λ islands. All (λ lists. most ≤ vec_capacity lists.cells) islands.items) }
    ensures samples { IfOk result (λ islands. All (λ lists. ifs ≤ vec_len lists.samples) islands.items) }
{
    let mut islands = Vec::with_capacity(alloc, count)?;
    for _island in 0..count {
        let samples = make_unset(alloc, ifs)?;
        let cells = Vec::with_capacity(alloc, most)?;
        islands.push(IslandLists { samples, cells })?;
    }
    Ok(islands)
}

/// The most inputs that a component has.
fn most_inputs(plan: &Plan<'_>) -> usize
    ensures { (k : ℕ) → k < length (design_of plan.now).components →
        length (component_at (design_of plan.now) k).inputs ≤ result }
{
    let mut most = 0usize;
    for component in &plan.design.components {
        most = most.max(component.inputs.len());
    }
    most
}

/// Spare parts for all that the control of main takes, where there is room for the samples of each island.
pub(crate) fn make_spares<'a>(
    alloc: Global,
    plan: &Plan<'_>,
    room: &Room,
) -> Result<Spares<'a>, Memory>
    requires plan { IsPlan plan.now }
    requires room { HasRoom (design_of plan.now) room.now }
    ensures { IfOk result (λ spares. Supplied (design_of plan.now) 0 spares (λ k i. control_need k i) (λ x. 0)) }
{
    let ifs = room.samples.len();
    let cells = most_cells(plan.design);
    let seen = most_inputs(plan);
    let count = main_need(alloc, Piece::Boxes, plan)?;
    let boxes = make_boxes(alloc, count)?;
    let count = main_need(alloc, Piece::Arms, plan)?;
    let arms = make_arms(alloc, count)?;
    let count = main_need(alloc, Piece::Islands, plan)?;
    let islands = make_islands(alloc, count, ifs, cells)?;
    let count = main_need(alloc, Piece::Inputs, plan)?;
    let inputs = make_inputs(alloc, count, seen)?;
    let marks = make_unset(alloc, cells)?;
    Ok(Spares {
        boxes,
        arms,
        islands,
        inputs,
        marks,
    })
}
