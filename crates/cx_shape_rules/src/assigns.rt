//! The rules on assignments.

ghost use Rattle.std.specs.Prelude.{◌≡◌, ◌<◌, IfOk, length, map};
ghost use Rattle.cx_rules.specs.Ports.{component_of};
ghost use Rattle.cx_rules.specs.ShapeRules as rules;
ghost use Rattle.cx_design.specs.PlainDesigns.{plain_design};
ghost use Rattle.cx_design_parts.specs.Plain.{plain_owned};
ghost use Rattle.cx_design_parts.specs.Items.{plain_range};
ghost use Rattle.cx_design_parts.specs.Breaks.{first_of, plain_spot};
ghost use Rattle.cx_shape_rules.specs.ShapeBreaks as breaks;
ghost use Rattle.cx_shape_rules.specs.ShapeBreaks.{assign_breaks};

use crate::groups::is_hole;
use crate::owners::{is_owned_by_comb, owner_length};
use crate::telling::add_target;
use cx_design::Design;
use cx_design_parts::{
    FirstBreak, OwnedAssign, Range, Spot, component, is_part_port, is_primitive_enable, ranges,
};
use cx_text::{Memory, Rule};
use std::alloc::Global;

/// Looks at one assignment.
#[tactic(auto, using(cx_design_parts::proofs::Lists::first_append))]
pub fn add_assign(
    alloc: Global,
    first: &mut FirstBreak,
    design: &Design,
    spot: Spot,
    owned: OwnedAssign<'_>,
) -> Result<(), Memory>
    requires within { spot.component < length design.now.components.items }
    ensures value { IfOk result (λ _. first.new ≡
        first_of first.old (assign_breaks (component_of (plain_design design.now) spot.component)
        (plain_spot spot) (plain_owned owned.entry))) }
{
    let assign = owned.assign;
    let always = is_always_enable(design, spot.component, owned);
    add_target(
        alloc,
        first,
        design,
        always,
        Rule::AlwaysEnable,
        spot,
        assign,
    )?;
    let comb = is_comb_enable(design, spot.component, owned);
    add_target(alloc, first, design, comb, Rule::CombEnable, spot, assign)?;
    let bad = is_bad_guard(alloc, design, spot.component, owned)?;
    add_target(alloc, first, design, bad, Rule::StaticGuard, spot, assign)
}

/// Whether a continuous assignment drives an enabling port of a primitive cell.
fn is_always_enable(design: &Design, number: usize, owned: OwnedAssign<'_>) -> bool
    requires within { number < length design.now.components.items }
    ensures value { result ≡
        breaks.is_always_enable (component_of (plain_design design.now) number) (plain_owned owned.entry) }
{
    owned.owner.is_none() && is_primitive_enable(design, number, owned.assign.target)
}

/// Whether an assignment of a comb group drives an enabling port, a port of a component's cell or a done.
#[tactic(auto, using(cx_meaning::proofs::DesignsLemmas::same_part))]
fn is_comb_enable(design: &Design, number: usize, owned: OwnedAssign<'_>) -> bool
    requires within { number < length design.now.components.items }
    ensures value { result ≡
        breaks.is_comb_enable (component_of (plain_design design.now) number) (plain_owned owned.entry) }
{
    let target = owned.assign.target;
    is_owned_by_comb(component(design, number), owned.owner)
        && (is_primitive_enable(design, number, target)
            || is_part_port(design, number, target)
            || is_hole(target))
}

/// Whether a guard has a range of offsets that is empty, or goes past the static group around it.
#[tactic(auto, using(cx_meaning::proofs::DesignsLemmas::same_part))]
fn is_bad_guard(
    alloc: Global,
    design: &Design,
    number: usize,
    owned: OwnedAssign<'_>,
) -> Result<bool, Memory>
    requires within { number < length design.now.components.items }
    ensures value { IfOk result (λ bad.
        bad ≡ breaks.is_bad_guard (component_of (plain_design design.now) number) (plain_owned owned.entry)) }
{
    let length = owner_length(component(design, number), owned.owner);
    let ranges = ranges(alloc, &owned.assign.guard)?;
    Ok(has_bad_range(length, ranges.as_slice()))
}

fn has_bad_range(length: Option<u64>, ranges: &[Range]) -> bool
    ensures value { result ≡ breaks.some_bad length (map plain_range ranges.now) }
{
    for range in ranges {
        if is_bad_range(length, *range) {
            return true;
        }
    }
    false
}

/// Whether a range is empty, goes past a length, or there is no length.
fn is_bad_range(length: Option<u64>, range: Range) -> bool
    ensures value { result ≡ rules.is_bad_range length (plain_range range) }
{
    match length {
        Some(length) => range.to <= range.from || length < range.to,
        None => true,
    }
}
