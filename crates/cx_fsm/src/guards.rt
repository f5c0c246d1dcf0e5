//! Guards as expressions of one level. A part of a guard that is no port is a wire of its own, however deep it stands.

ghost use Rattle.std.specs.Prelude.{◌≡◌, ◌+◌, map};
ghost use Rattle.cx_design.specs.PlainForms.{plain_guard};
ghost use Rattle.cx_meaning.specs.Designs.{Within, guards_of};
ghost use Rattle.cx_net.specs.Nets.{exprs_of};
ghost use Rattle.cx_net.specs.PlainNets.{plain_net_expr};
ghost use Rattle.cx_wiring.specs.Guards as wired;
ghost use Rattle.cx_fsm.specs.Drafts.{Adds, IfWhole, Keeps};
ghost use Rattle.cx_fsm.specs.Offsets.{offset_of};

use crate::drafts::Draft;
use crate::exprs::{bit, both, compare, inverse, word};
use cx_design::{Comparison, Guard};
use cx_net::NetExpr;

/// The wire of the offset that guards of a group look at; none for continuous assignments, whose offset is 0.
pub(crate) type Offset = Option<u32>;

/// A guard, or a part of one, as an expression, and the first wire behind those of its parts.
#[derive(Drop)]
pub(crate) struct Guarded {
    pub expr: NetExpr,
    pub behind: u32,
}

/// A guard over its parts, which have wires from this one on.
#[cycle(guard)]
pub(crate) fn guard_expr(draft: &mut Draft, offset: Offset, wire: u32, guard: &Guard) -> Guarded
    ensures expr { IfWhole draft.new
        (plain_net_expr result.expr ≡ wired.guard_expr (offset_of offset) wire (plain_guard guard.now)) }
    ensures behind { IfWhole draft.new (result.behind ≡ wire + wired.guard_wires (plain_guard guard.now)) }
    ensures driven { Adds draft.old draft.new (wired.guard_drivers (offset_of offset) wire (plain_guard guard.now)) }
{
    match guard {
        Guard::True => alone(bit(true), wire),
        Guard::Port(port) => alone(NetExpr::Port(port.port), wire),
        Guard::Not(inner) => {
            let part = part(draft, offset, wire, inner);
            let expr = inverse(draft, part.expr);
            let behind = part.behind;
            Guarded { expr, behind }
        }
        Guard::And(guards) => {
            let (exprs, behind) = parts(draft, offset, wire, guards);
            let expr = NetExpr::And(exprs);
            Guarded { expr, behind }
        }
        Guard::Or(guards) => {
            let (exprs, behind) = parts(draft, offset, wire, guards);
            let expr = NetExpr::Or(exprs);
            Guarded { expr, behind }
        }
        Guard::Compare(comparison, one, other) => {
            let one = NetExpr::Port(one.port);
            let expr = compare(draft, *comparison, one, NetExpr::Port(other.port));
            alone(expr, wire)
        }
        Guard::During(from, to) => alone(during(draft, offset, *from, *to), wire),
    }
}

/// A guard without wires.
fn alone(expr: NetExpr, wire: u32) -> Guarded
    ensures expr { plain_net_expr result.expr ≡ plain_net_expr expr }
    ensures behind { result.behind ≡ wire }
{
    let behind = wire;
    Guarded { expr, behind }
}

/// The parts of a guard, with the first of their wires; and the first wire behind these.
#[cycle(guard)]
fn parts(draft: &mut Draft, offset: Offset, first: u32, guards: &[Guard]) -> (Vec<NetExpr>, u32)
    ensures exprs { IfWhole draft.new (exprs_of (map plain_net_expr result.0.items) ≡
        wired.parts_exprs first (guards_of (map plain_guard guards.now))) }
    ensures behind { IfWhole draft.new (result.1 ≡ first + wired.parts_wires (guards_of (map plain_guard guards.now))) }
    ensures driven { Adds draft.old draft.new
        (wired.parts_drivers (offset_of offset) first (guards_of (map plain_guard guards.now))) }
{
    let mut exprs = Vec::new(draft.alloc);
    let mut wire = first;
    for guard in guards {
        let part = part(draft, offset, wire, guard);
        draft.push(&mut exprs, part.expr);
        wire = part.behind;
    }
    (exprs, wire)
}

/// A part of a guard: a port, or a wire before those of its own parts.
#[cycle(guard)]
fn part(draft: &mut Draft, offset: Offset, wire: u32, guard: &Guard) -> Guarded
    ensures expr { IfWhole draft.new (plain_net_expr result.expr ≡ wired.part_expr wire (plain_guard guard.now)) }
    ensures behind { IfWhole draft.new (result.behind ≡ wire + wired.part_wires (plain_guard guard.now)) }
    ensures driven { Adds draft.old draft.new (wired.part_drivers (offset_of offset) wire (plain_guard guard.now)) }
{
    match guard {
        Guard::Port(port) => alone(NetExpr::Port(port.port), wire),
        Guard::True
        | Guard::Not(_)
        | Guard::And(_)
        | Guard::Or(_)
        | Guard::Compare(_, _, _)
        | Guard::During(_, _) => {
            let inside = draft.beyond(wire, 1);
            let inner = guard_expr(draft, offset, inside, guard);
            draft.connect(wire, inner.expr);
            alone(NetExpr::Wire(wire), inner.behind)
        }
    }
}

/// Whether an offset is from the first to before the second.
fn during(draft: &mut Draft, offset: Offset, from: u64, to: u64) -> NetExpr
    ensures kept { Keeps draft.old draft.new }
    ensures value { IfWhole draft.new (plain_net_expr result ≡ wired.guard_expr (offset_of offset) 0 (Within from to)) }
{
    let first = word(draft.cycles(from));
    let begun = compare(draft, Comparison::AtLeast, offset_expr(offset), first);
    let behind = word(draft.cycles(to));
    let goes_on = compare(draft, Comparison::Less, offset_expr(offset), behind);
    both(draft, begun, goes_on)
}

/// The offset that guards look at.
fn offset_expr(offset: Offset) -> NetExpr
    ensures value { plain_net_expr result ≡ offset_of offset }
{
    match offset {
        Some(wire) => NetExpr::Wire(wire),
        None => word(0),
    }
}
