//! The lines of instances.

ghost use Rattle.std.specs.Prelude.{◌≡◌, [], ◌∷◌, codes, map};
ghost use Rattle.cx_vtree.specs.PlainParts.{plain_conn, plain_instance};
ghost use Rattle.cx_vread_exprs.specs.Answers.{Gives, place_of};
ghost use Rattle.cx_vread_exprs.specs.Places.{begins, many, with_front};
ghost use Rattle.cx_vread.specs.Parts as parts;

use cx_text::Name;
use cx_vread_exprs::{Fault, ReadPoint, begins, expect, name};
use cx_vtree::{Conn, Instance};
use std::alloc::Global;

/// A connection.
fn conn<'a>(alloc: Global, at: ReadPoint<'a>) -> Result<(Conn, ReadPoint<'a>), Fault>
    ensures { Gives (λ x. (plain_conn x.0, place_of x.1)) result (parts.conn_at (place_of at.entry)) }
{
    let at = expect(at, b".")?;
    let (port, at) = name(alloc, at)?;
    let at = expect(at, b"(")?;
    let (net, at) = name(alloc, at)?;
    let at = expect(at, b")")?;
    Ok((Conn { port, net }, at))
}

/// A connection after the first, from the comma before it on.
fn next_conn<'a>(alloc: Global, at: ReadPoint<'a>) -> Result<(Conn, ReadPoint<'a>), Fault>
    ensures { Gives (λ x. (plain_conn x.0, place_of x.1)) result (parts.next_conn_at (place_of at.entry)) }
{
    let at = expect(at, b", ")?;
    conn(alloc, at)
}

/// The connections after the first, behind it.
fn more_conns<'a>(
    alloc: Global,
    first: Conn,
    at: ReadPoint<'a>,
) -> Result<(Vec<Conn>, ReadPoint<'a>), Fault>
    ensures { Gives (λ x. (map plain_conn x.0.items, place_of x.1)) result
        (with_front (plain_conn first ∷ []) (parts.more_conns_at (place_of at.entry))) }
{
    let mut list = Vec::new(alloc);
    list.push(first)?;
    let mut here = at;
    let mut left = at.rest.len();
    while left > 0 {
        if !begins(here, b",") {
            return Ok((list, here));
        }
        let (item, after) = next_conn(alloc, here)?;
        list.push(item)?;
        here = after;
        left -= 1;
    }
    Ok((list, here))
}

/// The connections of an instance.
fn conns<'a>(alloc: Global, at: ReadPoint<'a>) -> Result<(Vec<Conn>, ReadPoint<'a>), Fault>
    ensures { Gives (λ x. (map plain_conn x.0.items, place_of x.1)) result (parts.conns_at (place_of at.entry)) }
{
    let (first, at) = conn(alloc, at)?;
    more_conns(alloc, first, at)
}

/// The line of an instance, from its connections on.
fn instance_of<'a>(
    alloc: Global,
    kind: Name,
    name: Name,
    at: ReadPoint<'a>,
) -> Result<(Instance, ReadPoint<'a>), Fault>
    ensures { Gives (λ x. (plain_instance x.0, place_of x.1)) result (parts.instance_by kind name (place_of at.entry)) }
{
    let at = expect(at, b"(")?;
    let (conns, at) = conns(alloc, at)?;
    let at = expect(at, b");\n")?;
    let instance = Instance {
        module: kind,
        name,
        conns,
    };
    Ok((instance, at))
}

/// The line of an instance.
pub fn instance<'a>(alloc: Global, at: ReadPoint<'a>) -> Result<(Instance, ReadPoint<'a>), Fault>
    ensures { Gives (λ x. (plain_instance x.0, place_of x.1)) result (parts.instance_at (place_of at.entry)) }
{
    let at = expect(at, b"  ")?;
    let (kind, at) = name(alloc, at)?;
    let at = expect(at, b" ")?;
    let (own, at) = name(alloc, at)?;
    instance_of(alloc, kind, own, at)
}

/// Whether the line of an instance begins here.
pub fn is_instance(at: ReadPoint) -> bool
    ensures { result ≡ parts.is_instance (place_of at.entry) }
{
    begins(at, b"  ") && !begins(at, b"  always ")
}

/// The lines of instances.
pub fn instances<'a>(
    alloc: Global,
    at: ReadPoint<'a>,
) -> Result<(Vec<Instance>, ReadPoint<'a>), Fault>
    ensures { Gives (λ x. (map plain_instance x.0.items, place_of x.1)) result
        (parts.instances_at (place_of at.entry)) }
{
    let mut list = Vec::new(alloc);
    let mut here = at;
    let mut left = at.rest.len();
    while left > 0 {
        if !is_instance(here) {
            return Ok((list, here));
        }
        let (item, after) = instance(alloc, here)?;
        list.push(item)?;
        here = after;
        left -= 1;
    }
    Ok((list, here))
}
