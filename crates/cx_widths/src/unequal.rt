//! The first ports of unequal widths, and the first that is too wide for a guard.

ghost use Rattle.std.specs.Prelude.{◌≡◌, ◌<◌, IfOk, length, map};
ghost use Rattle.cx_rules.specs.Ports.{component_of, width_of};
ghost use Rattle.cx_rules.specs.WidthRules as rules;
ghost use Rattle.cx_rules.specs.WidthRules.{pairs_of};
ghost use Rattle.cx_design.specs.PlainForms.{plain_assign};
ghost use Rattle.cx_design.specs.PlainDesigns.{plain_design};
ghost use Rattle.cx_design_parts.specs.Items.{plain_pair};

use cx_design::{Assign, Design, PlacedPort, PortRef};
use cx_design_parts::{Pair, comparisons, width, written_width};
use cx_text::Memory;
use std::alloc::Global;

/// Whether two widths are there and are not equal.
fn differ(one: Option<u32>, other: Option<u32>) -> bool
    ensures value { result ≡ rules.differ one other }
{
    match (one, other) {
        (Some(one), Some(other)) => one != other,
        _ => false,
    }
}

/// The first operand of the first pair of unequal widths: the target with the source, then the comparisons of the guard.
pub fn first_unequal(
    alloc: Global,
    design: &Design,
    number: usize,
    assign: &Assign,
) -> Result<Option<PortRef>, Memory>
    requires within { number < length design.now.components.items }
    ensures value { IfOk result (λ port. port ≡
        rules.first_unequal (component_of (plain_design design.now) number)
        (pairs_of (plain_assign assign.now))) }
{
    let pairs = comparisons(alloc, &assign.guard)?;
    if is_unequal(design, number, assign.target, assign.source.port) {
        return Ok(Some(assign.target));
    }
    Ok(first_unequal_pair(design, number, pairs.as_slice()))
}

fn is_unequal(design: &Design, number: usize, one: PortRef, other: PortRef) -> bool
    requires within { number < length design.now.components.items }
    ensures value { let i = component_of (plain_design design.now) number in
        result ≡ rules.differ (width_of i one) (width_of i other) }
{
    differ(width(design, number, one), width(design, number, other))
}

fn first_unequal_pair(design: &Design, number: usize, pairs: &[Pair]) -> Option<PortRef>
    requires within { number < length design.now.components.items }
    ensures value { result ≡
        rules.first_unequal (component_of (plain_design design.now) number) (map plain_pair pairs.now) }
{
    for pair in pairs {
        if is_unequal(design, number, pair.first, pair.second) {
            return Some(pair.first);
        }
    }
    None
}

/// Whether a port is of another width than one bit. A literal counts by its written width.
pub fn is_wide(design: &Design, number: usize, port: PortRef) -> bool
    requires within { number < length design.now.components.items }
    ensures value { result ≡ rules.is_wide (component_of (plain_design design.now) number) port }
{
    differ(written_width(design, number, port), Some(1))
}

/// The first port of a list that is of another width than one bit.
pub fn first_wide(design: &Design, number: usize, ports: &[PlacedPort]) -> Option<PortRef>
    requires within { number < length design.now.components.items }
    ensures value { result ≡ rules.first_wide (component_of (plain_design design.now) number) ports.now }
{
    for port in ports {
        if is_wide(design, number, port.port) {
            return Some(port.port);
        }
    }
    None
}
