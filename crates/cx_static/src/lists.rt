//! From static control to the lists of an island.

ghost use Rattle.std.specs.Prelude.{◌≡◌, OnOk, IfOk, map};
ghost use Rattle.cx_design.specs.PlainForms.{plain_cell, plain_component, plain_form, plain_statement, plain_statements};
ghost use Rattle.cx_meaning.specs.Islands as plain;
ghost use Rattle.cx_static.specs.Lowering.{if_sampled, with_timer, with_point, with_occurrence, form_gathered, gathered, rounds_gathered, parts_gathered, arms_gathered, island_gathered};
ghost use Rattle.cx_static.specs.PlainLowered.{plain_gathering, plain_start};

use crate::gathering::{Gathering, Start};
use crate::islands::{IslandTimer, Occurrence, Sample, SamplePoint};
use crate::numbers::{number, product, static_length, sum, timer};
use cx_design::{Cell, CellKind, Component, Form, Statement};
use cx_design_sizes::group_length;
use cx_meaning::PortRef;
use cx_text::{Memory, Name, Place};
use std::alloc::Global;

/// Gathers the lists of an island, where the component has these cells already.
pub(crate) fn gather_island(
    alloc: Global,
    part: &Component,
    form: &Form,
    length: u64,
    cells: Vec<Cell>,
) -> Result<Gathering, Memory>
    requires { length ≡ plain.form_length (plain_component part.now) (plain_form form.now) }
    ensures { IfOk result (λ lists. plain_gathering lists ≡
        island_gathered (plain_component part.now) (plain_form form.now) (map plain_cell cells.items)) }
{
    let mut lists = Gathering {
        cells,
        timers: Vec::new(alloc),
        points: Vec::new(alloc),
        occurrences: Vec::new(alloc),
    };
    add_timer(alloc, part.place, length, None, 0, length, &mut lists)?;
    let start = Start {
        timer: 0,
        at: 0,
        samples: &[],
    };
    gather_form(alloc, part, form, &start, &mut lists)?;
    Ok(lists)
}

/// Adds a timer and its cell. The last two numbers are counts of the timer around it.
fn add_timer(
    alloc: Global,
    place: Place,
    length: u64,
    outer: Option<u32>,
    from: u64,
    to: u64,
    lists: &mut Gathering,
) -> Result<(), Memory>
    ensures { OnOk result
        (plain_gathering lists.new ≡ with_timer place length outer from to (plain_gathering lists.old)) }
{
    let cell = number(lists.cells.len())?;
    lists.cells.push(Cell {
        name: Name::from_bytes(alloc, &[])?,
        kind: CellKind::Prim(timer(length)?),
        external: false,
        place,
    })?;
    lists.timers.push(IslandTimer {
        cell,
        outer,
        from,
        to,
    })?;
    Ok(())
}

/// Adds what a form has.
#[cycle(gather)]
fn gather_form(
    alloc: Global,
    part: &Component,
    form: &Form,
    start: &Start,
    lists: &mut Gathering,
) -> Result<(), Memory>
    ensures { OnOk result (plain_gathering lists.new ≡
        form_gathered (plain_component part.now) (plain_form form.now) (plain_start start.now)
        (plain_gathering lists.old)) }
{
    match form {
        Form::Enable(group) => add_occurrence(alloc, part, *group, start, lists),
        Form::StaticSeq { parts, .. } => gather_parts(alloc, part, parts, start, lists),
        Form::StaticPar { parts, .. } => gather_arms(alloc, part, parts, start, lists),
        Form::StaticIf { test, yes, no, .. } => {
            let point = number(lists.points.len())?;
            add_point(alloc, test.port, start, lists)?;
            gather_branch(alloc, part, yes, start, point, true, lists)?;
            gather_branch(alloc, part, no, start, point, false, lists)
        }
        Form::StaticRepeat { count, body, .. } => {
            gather_rounds(alloc, part, *count, body, start, lists)
        }
        Form::Empty
        | Form::Seq(_)
        | Form::Par(_)
        | Form::If { .. }
        | Form::While { .. }
        | Form::Repeat { .. }
        | Form::StaticInvoke(_)
        | Form::Timed(_) => Ok(()),
    }
}

/// Adds the enable of a group, where the group is static.
fn add_occurrence(
    alloc: Global,
    part: &Component,
    group: u32,
    start: &Start,
    lists: &mut Gathering,
) -> Result<(), Memory>
    ensures { OnOk result (plain_gathering lists.new ≡
        with_occurrence group (plain_start start.now) (plain.group_length (plain_component part.now) group)
        (plain_gathering lists.old)) }
{
    let Some(length) = group_length(part, group) else {
        return Ok(());
    };
    lists.occurrences.push(Occurrence {
        group,
        timer: start.timer,
        from: start.at,
        to: sum(start.at, length)?,
        samples: Vec::from_slice(alloc, start.samples)?,
    })?;
    Ok(())
}

/// Adds the point of a `static if`.
fn add_point(
    alloc: Global,
    port: PortRef,
    start: &Start,
    lists: &mut Gathering,
) -> Result<(), Memory>
    ensures { OnOk result
        (plain_gathering lists.new ≡ with_point port (plain_start start.now) (plain_gathering lists.old)) }
{
    lists.points.push(SamplePoint {
        port,
        timer: start.timer,
        at: start.at,
        samples: Vec::from_slice(alloc, start.samples)?,
    })?;
    Ok(())
}

/// Adds what a statement has.
#[cycle(gather)]
fn gather(
    alloc: Global,
    part: &Component,
    statement: &Statement,
    start: &Start,
    lists: &mut Gathering,
) -> Result<(), Memory>
    ensures { OnOk result (plain_gathering lists.new ≡
        gathered (plain_component part.now) (plain_statement statement.now) (plain_start start.now)
        (plain_gathering lists.old)) }
{
    gather_form(alloc, part, &statement.form, start, lists)
}

/// Adds what a branch of the `static if` at a point has.
#[cycle(gather)]
fn gather_branch(
    alloc: Global,
    part: &Component,
    branch: &Statement,
    start: &Start,
    point: u32,
    wanted: bool,
    lists: &mut Gathering,
) -> Result<(), Memory>
    ensures { OnOk result (plain_gathering lists.new ≡
        gathered (plain_component part.now) (plain_statement branch.now)
        (if_sampled point wanted (plain_start start.now)) (plain_gathering lists.old)) }
{
    let mut samples = Vec::from_slice(alloc, start.samples)?;
    samples.push(Sample { point, wanted })?;
    let start = Start {
        timer: start.timer,
        at: start.at,
        samples: &samples,
    };
    gather(alloc, part, branch, &start, lists)
}

/// Adds what a body has that is repeated, behind the timer of its rounds.
#[cycle(gather)]
fn gather_rounds(
    alloc: Global,
    part: &Component,
    count: u64,
    body: &Statement,
    start: &Start,
    lists: &mut Gathering,
) -> Result<(), Memory>
    ensures { OnOk result (plain_gathering lists.new ≡
        rounds_gathered (plain_component part.now) count (plain_statement body.now) (plain_start start.now)
        (plain_gathering lists.old)) }
{
    let timer = number(lists.timers.len())?;
    let length = static_length(part, &body.form)?;
    let to = sum(start.at, product(count, length)?)?;
    add_timer(
        alloc,
        part.place,
        length,
        Some(start.timer),
        start.at,
        to,
        lists,
    )?;
    let start = Start {
        timer,
        at: 0,
        samples: start.samples,
    };
    gather(alloc, part, body, &start, lists)
}

/// Adds what statements have that follow each other.
#[cycle(gather)]
fn gather_parts(
    alloc: Global,
    part: &Component,
    parts: &[Statement],
    start: &Start,
    lists: &mut Gathering,
) -> Result<(), Memory>
    ensures { OnOk result (plain_gathering lists.new ≡
        parts_gathered (plain_component part.now) (plain_statements parts.now) (plain_start start.now)
        (plain_gathering lists.old)) }
{
    let mut at = start.at;
    for statement in parts {
        let begin = Start {
            timer: start.timer,
            at,
            samples: start.samples,
        };
        gather(alloc, part, statement, &begin, lists)?;
        at = sum(at, static_length(part, &statement.form)?)?;
    }
    Ok(())
}

/// Adds what statements have that begin together.
#[cycle(gather)]
fn gather_arms(
    alloc: Global,
    part: &Component,
    arms: &[Statement],
    start: &Start,
    lists: &mut Gathering,
) -> Result<(), Memory>
    ensures { OnOk result (plain_gathering lists.new ≡
        arms_gathered (plain_component part.now) (plain_statements arms.now) (plain_start start.now)
        (plain_gathering lists.old)) }
{
    for statement in arms {
        gather(alloc, part, statement, start, lists)?;
    }
    Ok(())
}
