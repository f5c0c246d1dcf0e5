//! What looks at the done of a cell.

ghost use Rattle.std.specs.Prelude.{◌≡◌, ◌<◌, length, map};
ghost use Rattle.std.specs.List.{list_any};
ghost use Rattle.cx_meaning.specs.Instances.{part_of};
ghost use Rattle.cx_rules.specs.Ports.{component_of};
ghost use Rattle.cx_design.specs.PlainDesigns.{plain_design};
ghost use Rattle.cx_design.specs.PlainForms.{plain_assign, plain_guard};
ghost use Rattle.cx_promotion.specs.Promotable as promotable;
ghost use Rattle.cx_promote.specs.Looking as looking;

use crate::primitives::is_done_port;
use cx_design::{Assign, Design, Guard, PortRef};
use cx_design_parts::{At, PartPort, component, part_port, stands_at};

/// Whether a port is the done of a cell, of a primitive or of a component.
pub(crate) fn is_done(design: &Design, number: usize, port: PortRef) -> bool
    requires within { number < length design.now.components.items }
    ensures value { result ≡ promotable.is_done (component_of (plain_design design.now) number) port }
{
    let PortRef::Cell(cell, port) = port else {
        return false;
    };
    match stands_at(design, number, cell) {
        At::Nothing => false,
        At::Primitive(primitive) => is_done_port(primitive, port),
        At::Part(part) => part_port(part, port) == PartPort::Done,
    }
}

/// Whether an assignment looks at a done, as its source or anywhere in its guard.
pub(crate) fn looks_at_done(design: &Design, number: usize, assign: &Assign) -> bool
    requires within { number < length design.now.components.items }
    ensures value { result ≡
        promotable.looks_at_done (component_of (plain_design design.now) number) (plain_assign assign.now) }
{
    if is_done(design, number, assign.source.port) {
        return true;
    }
    guard_looks(design, number, &assign.guard)
}

/// Whether a guard has a done as an operand.
fn guard_looks(design: &Design, number: usize, guard: &Guard) -> bool
    requires within { number < length design.now.components.items }
    ensures value { result ≡
        looking.guard_looks (component_of (plain_design design.now) number) (plain_guard guard.now) }
{
    match guard {
        Guard::True | Guard::During(_, _) => false,
        Guard::Port(port) => is_done(design, number, port.port),
        Guard::Not(guard) => guard_looks(design, number, guard),
        Guard::And(parts) | Guard::Or(parts) => {
            for part in parts {
                if guard_looks(design, number, part) {
                    return true;
                }
            }
            false
        }
        Guard::Compare(_, left, right) => {
            is_done(design, number, left.port) || is_done(design, number, right.port)
        }
    }
}

/// Whether a continuous assignment of a component looks at a done.
pub(crate) fn always_looks(design: &Design, number: usize) -> bool
    requires within { number < length design.now.components.items }
    ensures value { result ≡ list_any
        (promotable.looks_at_done (component_of (plain_design design.now) number))
        (part_of (component_of (plain_design design.now) number)).always }
{
    for assign in &component(design, number).always {
        if looks_at_done(design, number, assign) {
            return true;
        }
    }
    false
}
