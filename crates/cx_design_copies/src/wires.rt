//! Guards, assignments and groups once more, with other ports.

ghost use Rattle.std.specs.Prelude.{◌≡◌, ◌++◌, IfOk, map};
ghost use Rattle.cx_meaning.specs.Designs.{guards_of};
ghost use Rattle.cx_design.specs.PlainForms.{plain_assign, plain_assigns, plain_group, plain_guard};
ghost use Rattle.cx_rewrites.specs.Moving.{moved_assign, moved_group as group_moved, moved_guard as guard_moved, moved_guards as guards_moved};

use crate::moves::{PortMoves, moved_placed};
use crate::parts::copied_name;
use cx_design::{Assign, Group, Guard};
use cx_text::Memory;
use std::alloc::Global;

/// The guard with other ports.
#[cycle(guard)]
fn moved_guard<M: PortMoves>(alloc: Global, moves: &M, guard: &Guard) -> Result<Guard, Memory>
    ensures value { IfOk result (λ copy. plain_guard copy ≡ guard_moved (M.moving moves.now) (plain_guard guard.now)) }
{
    match guard {
        Guard::True => Ok(Guard::True),
        Guard::Port(port) => Ok(Guard::Port(moved_placed(moves, *port)?)),
        Guard::Not(part) => {
            let part = moved_guard(alloc, moves, part)?;
            Ok(Guard::Not(Box::new(alloc, part)?))
        }
        Guard::And(parts) => Ok(Guard::And(moved_guards(alloc, moves, parts)?)),
        Guard::Or(parts) => Ok(Guard::Or(moved_guards(alloc, moves, parts)?)),
        Guard::Compare(comparison, left, right) => Ok(Guard::Compare(
            *comparison,
            moved_placed(moves, *left)?,
            moved_placed(moves, *right)?,
        )),
        Guard::During(from, to) => Ok(Guard::During(*from, *to)),
    }
}

/// The guards with other ports.
#[cycle(guard)]
fn moved_guards<M: PortMoves>(
    alloc: Global,
    moves: &M,
    guards: &[Guard],
) -> Result<Vec<Guard>, Memory>
    ensures value { IfOk result (λ copies. guards_of (map plain_guard copies.items) ≡
        guards_moved (M.moving moves.now) (guards_of (map plain_guard guards.now))) }
{
    let mut copies = Vec::with_capacity(alloc, guards.len())?;
    for guard in guards {
        copies.push(moved_guard(alloc, moves, guard)?)?;
    }
    Ok(copies)
}

/// The assignment with other ports.
fn moved_again<M: PortMoves>(alloc: Global, moves: &M, assign: &Assign) -> Result<Assign, Memory>
    ensures value { IfOk result
        (λ copy. plain_assign copy ≡ moved_assign (M.moving moves.now) (plain_assign assign.now)) }
{
    Ok(Assign {
        target: moves.port(assign.target)?,
        guard: moved_guard(alloc, moves, &assign.guard)?,
        source: moved_placed(moves, assign.source)?,
        place: assign.place,
    })
}

/// The assignments with other ports.
pub fn moved_assigns<M: PortMoves>(
    alloc: Global,
    moves: &M,
    assigns: &[Assign],
) -> Result<Vec<Assign>, Memory>
    ensures value { IfOk result (λ copies.
        plain_assigns copies.items ≡ map (moved_assign (M.moving moves.now)) (plain_assigns assigns.now)) }
{
    with_moved_assigns(
        alloc,
        Vec::with_capacity(alloc, assigns.len())?,
        moves,
        assigns,
    )
}

/// Appends the assignments with other ports.
pub fn with_moved_assigns<M: PortMoves>(
    alloc: Global,
    front: Vec<Assign>,
    moves: &M,
    assigns: &[Assign],
) -> Result<Vec<Assign>, Memory>
    ensures value { IfOk result (λ all. plain_assigns all.items ≡
        plain_assigns front.items ++ map (moved_assign (M.moving moves.now)) (plain_assigns assigns.now)) }
{
    let mut all = front;
    for assign in assigns {
        all.push(moved_again(alloc, moves, assign)?)?;
    }
    Ok(all)
}

/// The group with other ports.
pub fn moved_group<M: PortMoves>(alloc: Global, moves: &M, group: &Group) -> Result<Group, Memory>
    ensures value { IfOk result (λ copy. plain_group copy ≡ group_moved (M.moving moves.now) (plain_group group.now)) }
{
    Ok(Group {
        name: copied_name(alloc, &group.name)?,
        kind: group.kind,
        assigns: moved_assigns(alloc, moves, &group.assigns)?,
        place: group.place,
    })
}

/// The groups with other ports.
pub fn moved_groups<M: PortMoves>(
    alloc: Global,
    moves: &M,
    groups: &[Group],
) -> Result<Vec<Group>, Memory>
    ensures value { IfOk result (λ copies.
        map plain_group copies.items ≡ map (group_moved (M.moving moves.now)) (map plain_group groups.now)) }
{
    let mut copies = Vec::with_capacity(alloc, groups.len())?;
    for group in groups {
        copies.push(moved_group(alloc, moves, group)?)?;
    }
    Ok(copies)
}
