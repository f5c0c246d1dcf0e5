//! Guards by number.

ghost use Rattle.std.specs.Prelude.{◌≡◌, ◌+◌, ◌-◌, ◌^◌, IfOk, map, option_map, nat_lt, if◌then◌else◌};
ghost use Rattle.cx_ast.specs.PlainGuards as written;
ghost use Rattle.cx_meaning.specs.Designs.{guards_of};
ghost use Rattle.cx_design.specs.PlainForms.{plain_guard};
ghost use Rattle.cx_numbering.specs.DesignOf as design;
ghost use Rattle.cx_names.specs.Sites.{IsSite, tree_at, part_at};

use crate::operands::placed;
use crate::sites::Site;
use cx_ast::{Comparison, GuardItem};
use cx_design::Guard;
use cx_meaning::Comparison as Order;
use cx_text::Memory;
use std::alloc::Global;

// A comparison.
fn order(site: &Site, comparison: Comparison) -> Order
    ensures { result ≡ design.comparison_of (tree_at site.now) (part_at site.now) comparison }
{
    match comparison {
        Comparison::Equal => Order::Equal,
        Comparison::NotEqual => Order::NotEqual,
        Comparison::Less => Order::Less,
        Comparison::Greater => Order::Greater,
        Comparison::LessEqual => Order::AtMost,
        Comparison::GreaterEqual => Order::AtLeast,
    }
}

// The offset behind an offset; behind the greatest there is none.
fn behind(offset: u64) -> u64
    ensures { result ≡ (if nat_lt offset (2 ^ 64 - 1) then offset + 1 else offset) }
{
    if offset < u64::MAX {
        offset + 1
    } else {
        offset
    }
}

/// A guard.
#[cycle(guard)]
pub(crate) fn guard(alloc: Global, site: &Site, item: &GuardItem) -> Result<Guard, Memory>
    requires { IsSite site.now }
    ensures { IfOk result (λ g.
        plain_guard g ≡ design.guard_of (tree_at site.now) (part_at site.now) (written.plain_guard item.now)) }
{
    match item {
        GuardItem::Or(parts) => Ok(Guard::Or(guards(alloc, site, parts)?)),
        GuardItem::And(parts) => Ok(Guard::And(guards(alloc, site, parts)?)),
        GuardItem::Compare(comparison, left, right) => {
            let left = placed(site, left)?;
            let right = placed(site, right)?;
            Ok(Guard::Compare(order(site, *comparison), left, right))
        }
        GuardItem::Not(part) => {
            let part = guard(alloc, site, part)?;
            Ok(Guard::Not(Box::new(alloc, part)?))
        }
        GuardItem::Operand(operand) => Ok(Guard::Port(placed(site, operand)?)),
        GuardItem::At(offset) => Ok(Guard::During(*offset, behind(*offset))),
        GuardItem::During(from, to) => Ok(Guard::During(*from, *to)),
    }
}

// Guards, in order.
#[cycle(guard)]
fn guards(alloc: Global, site: &Site, items: &[GuardItem]) -> Result<Vec<Guard>, Memory>
    requires { IsSite site.now }
    ensures { IfOk result (λ gs. guards_of (map plain_guard gs.items) ≡
        design.guards_in (tree_at site.now) (part_at site.now)
        (written.guards_of (written.plain_guards items.now))) }
{
    let mut all = Vec::with_capacity(alloc, items.len())?;
    for item in items {
        all.push(guard(alloc, site, item)?)?;
    }
    Ok(all)
}

/// The guard of an assignment; one without a guard has the one that always holds.
pub(crate) fn guard_or_true(
    alloc: Global,
    site: &Site,
    item: &Option<GuardItem>,
) -> Result<Guard, Memory>
    requires { IsSite site.now }
    ensures { IfOk result (λ g. plain_guard g ≡
        design.guard_or_always (tree_at site.now) (part_at site.now)
        (option_map written.plain_guard item.now)) }
{
    match item {
        None => Ok(Guard::True),
        Some(item) => guard(alloc, site, item),
    }
}
