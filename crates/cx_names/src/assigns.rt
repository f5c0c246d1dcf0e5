//! Assignments by number.

ghost use Rattle.std.specs.Prelude.{◌≡◌, IfOk, map};
ghost use Rattle.cx_ast.specs.PlainTree as written;
ghost use Rattle.cx_design.specs.PlainForms.{plain_assign, plain_assigns};
ghost use Rattle.cx_numbering.specs.Names.{always_in};
ghost use Rattle.cx_numbering.specs.DesignOf as design;
ghost use Rattle.cx_names.specs.Sites.{IsSite, tree_at, part_at};

use crate::guards::guard_or_true;
use crate::operands::{placed, port};
use crate::sites::Site;
use cx_ast::{AssignItem, WireItem};
use cx_design::Assign;
use cx_text::Memory;
use std::alloc::Global;

// An assignment.
fn assign(alloc: Global, site: &Site, item: &AssignItem) -> Result<Assign, Memory>
    requires { IsSite site.now }
    ensures { IfOk result (λ a. plain_assign a ≡
        design.assign_of (tree_at site.now) (part_at site.now) (written.plain_assign item.now)) }
{
    let target = port(site, &item.target.form)?;
    let guard = guard_or_true(alloc, site, &item.guard)?;
    let source = placed(site, &item.source)?;
    Ok(Assign {
        target,
        guard,
        source,
        place: item.place,
    })
}

/// Assignments, in order.
pub(crate) fn assigns(
    alloc: Global,
    site: &Site,
    items: &[AssignItem],
) -> Result<Vec<Assign>, Memory>
    requires { IsSite site.now }
    ensures { IfOk result (λ all. plain_assigns all.items ≡
        map (design.assign_of (tree_at site.now) (part_at site.now)) (map written.plain_assign items.now)) }
{
    let mut all = Vec::with_capacity(alloc, items.len())?;
    for item in items {
        all.push(assign(alloc, site, item)?)?;
    }
    Ok(all)
}

/// The continuous assignments, in order.
pub(crate) fn always(alloc: Global, site: &Site, wires: &[WireItem]) -> Result<Vec<Assign>, Memory>
    requires { IsSite site.now }
    ensures { IfOk result (λ all. plain_assigns all.items ≡
        map (design.assign_of (tree_at site.now) (part_at site.now))
        (always_in (map written.plain_wire wires.now))) }
{
    let mut all = Vec::new(alloc);
    for wire in wires {
        let WireItem::Assign(item) = wire else {
            continue;
        };
        all.push(assign(alloc, site, item)?)?;
    }
    Ok(all)
}
