//! The forms of an assignment of a go, an enable or a done.

ghost use Rattle.std.specs.Prelude.{◌≡◌, ◌∷◌, [], IfOk, map};
ghost use Rattle.std.specs.Option.{option_map};
ghost use Rattle.cx_meaning.specs.Active.{same_port};
ghost use Rattle.cx_rules.specs.CallShape as shape;
ghost use Rattle.cx_design.specs.PlainForms.{plain_assign, plain_guard};
ghost use Rattle.cx_callees.specs.Callees.{plain_callee, done_of};
ghost use Rattle.cx_shape_calls.specs.Forms as forms;

use cx_callees::Callee;
use cx_design::{Assign, Guard, PlacedPort, PortRef};
use cx_design_parts::atoms;
use cx_text::Memory;
use std::alloc::Global;

/// Whether a port is the literal `1'd1`.
pub fn is_one(port: PortRef) -> bool
    ensures value { result ≡ same_port port shape.one }
{
    match port {
        PortRef::Literal(width, value) => width == 1 && value == 1,
        PortRef::Cell(_, _) | PortRef::Input(_) | PortRef::Output(_) | PortRef::Done(_) => false,
    }
}

/// Whether there is no guard.
pub fn is_always(guard: &Guard) -> bool
    ensures value { result ≡ shape.is_always (plain_guard guard.now) }
{
    matches!(guard, Guard::True)
}

/// Whether a guard is the done of a cell.
fn is_done(callee: Callee<'_>, guard: &Guard) -> bool
    ensures value { result ≡ shape.is_atom (done_of (plain_callee callee.entry)) (plain_guard guard.now) }
{
    match guard {
        Guard::Port(port) => callee.is_done(port.port),
        Guard::True
        | Guard::Not(_)
        | Guard::And(_)
        | Guard::Or(_)
        | Guard::Compare(_, _, _)
        | Guard::During(_, _) => false,
    }
}

/// Whether a guard is the negated done of a cell.
fn is_not_done(callee: Callee<'_>, guard: &Guard) -> bool
    ensures value { result ≡ shape.is_negated (done_of (plain_callee callee.entry)) (plain_guard guard.now) }
{
    match guard {
        Guard::Not(guard) => is_done(callee, guard),
        Guard::True
        | Guard::Port(_)
        | Guard::And(_)
        | Guard::Or(_)
        | Guard::Compare(_, _, _)
        | Guard::During(_, _) => false,
    }
}

/// Whether an assignment, as the only one, drives the go of a cell as it has to be.
pub fn is_right_go(callee: Callee<'_>, assign: &Assign) -> bool
    ensures value { result ≡ shape.is_right_go (done_of (plain_callee callee.entry)) (plain_assign assign.now ∷ []) }
{
    is_one(assign.source.port) && (is_always(&assign.guard) || is_not_done(callee, &assign.guard))
}

/// Whether an assignment, as the only one, drives the enable of a captured register as it has to be.
pub fn is_right_enable(callee: Callee<'_>, assign: &Assign) -> bool
    ensures value { result ≡
        shape.is_right_enable (done_of (plain_callee callee.entry)) (plain_assign assign.now ∷ []) }
{
    callee.is_done(assign.source.port) && is_always(&assign.guard)
        || is_one(assign.source.port) && is_done(callee, &assign.guard)
}

/// Whether a guard is a port or a conjunction of such, in any nesting.
fn is_conjunction(guard: &Guard) -> bool
    ensures value { result ≡ forms.is_conjunction (plain_guard guard.now) }
{
    match guard {
        Guard::Port(_) => true,
        Guard::And(parts) => {
            for part in parts {
                if !is_conjunction(part) {
                    return false;
                }
            }
            true
        }
        Guard::True
        | Guard::Not(_)
        | Guard::Or(_)
        | Guard::Compare(_, _, _)
        | Guard::During(_, _) => false,
    }
}

/// The ports of which a guard is the conjunction, where it is one.
pub fn conjuncts(alloc: Global, guard: &Guard) -> Result<Option<Vec<PortRef>>, Memory>
    ensures value { IfOk result
        (λ found. option_map (λ list. list.items) found ≡ shape.conjuncts (plain_guard guard.now)) }
{
    if !is_conjunction(guard) {
        return Ok(None);
    }
    let atoms = atoms(alloc, guard)?;
    let ports = ports_of(alloc, atoms.as_slice())?;
    Ok(Some(ports))
}

/// The ports that stand at places.
fn ports_of(alloc: Global, placed: &[PlacedPort]) -> Result<Vec<PortRef>, Memory>
    ensures value { IfOk result (λ list. list.items ≡ map (λ p. p.port) placed.now) }
{
    Ok(placed.iter().map(|placed| placed.port).collect(alloc)?)
}
