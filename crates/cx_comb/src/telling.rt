//! Breaks that are told of circles.

ghost use Rattle.std.specs.Prelude.{◌≡◌, ◌<◌, IfOk, length};
ghost use Rattle.cx_meaning.specs.Designs.{component_at};
ghost use Rattle.cx_design.specs.PlainDesigns.{plain_design};
ghost use Rattle.cx_text.specs.declared.rules.Rule.TheVariants.{CombCycle};
ghost use Rattle.cx_design_parts.specs.Breaks.{earlier, first_of, plain_spot};
ghost use Rattle.cx_design_parts.specs.Numbered.{numbered};
ghost use Rattle.cx_comb.specs.CombBreaks.{component_breaks, group_breaks, told_if, whole_break};

use crate::circles::Circles;
use cx_design::Design;
use cx_design_parts::{Break, FirstBreak, Part, Spot, component};
use cx_text::{Memory, Name, Place, Rule};
use std::alloc::Global;

/// Keeps the first break of a component with these circles.
#[tactic(auto, using(cx_design_parts::proofs::Lists::first_append))]
pub fn add_circles(
    alloc: Global,
    first: &mut FirstBreak,
    design: &Design,
    number: usize,
    circles: &Circles,
) -> Result<(), Memory>
    requires within { number < length design.now.components.items }
    requires count { length circles.now.groups.items ≡ length (component_at (plain_design design.now) number).groups }
    ensures value { IfOk result (λ _. first.new ≡
        first_of first.old
        (component_breaks (plain_design design.now) number circles.now.whole circles.now.groups.items)) }
{
    add_whole(alloc, first, design, number, circles.whole)?;
    add_groups(alloc, first, design, number, circles.groups.as_slice())?;
    Ok(())
}

/// Keeps the break of a component, where its continuous assignments have a circle.
fn add_whole(
    alloc: Global,
    first: &mut FirstBreak,
    design: &Design,
    number: usize,
    found: bool,
) -> Result<(), Memory>
    requires within { number < length design.now.components.items }
    ensures value { IfOk result
        (λ _. first.new ≡ first_of first.old (told_if found (whole_break (plain_design design.now) number))) }
{
    if !found {
        return Ok(());
    }
    let part = component(design, number);
    let spot = Spot {
        component: number,
        part: Part::Itself(0),
    };
    add_break(alloc, first, spot, part.place, &part.name)?;
    Ok(())
}

/// Keeps the first break of the groups that have a circle.
fn add_groups(
    alloc: Global,
    first: &mut FirstBreak,
    design: &Design,
    number: usize,
    groups: &[bool],
) -> Result<(), Memory>
    requires within { number < length design.now.components.items }
    requires count { length groups.now ≡ length (component_at (plain_design design.now) number).groups }
    ensures value { IfOk result (λ _. first.new ≡
        first_of first.old (numbered (group_breaks (plain_design design.now) number) 0 groups.now)) }
{
    for group in 0..groups.len() {
        add_group(alloc, first, design, number, group, groups[group])?;
    }
    Ok(())
}

/// Keeps the break of a group, where it has a circle.
fn add_group(
    alloc: Global,
    first: &mut FirstBreak,
    design: &Design,
    number: usize,
    group: usize,
    found: bool,
) -> Result<(), Memory>
    requires within { number < length design.now.components.items }
    requires group { group < length (component_at (plain_design design.now) number).groups }
    ensures value { IfOk result
        (λ _. first.new ≡ first_of first.old (group_breaks (plain_design design.now) number group found)) }
{
    if !found {
        return Ok(());
    }
    let groups = component(design, number).groups.as_slice();
    let part = &groups[group];
    let spot = Spot {
        component: number,
        part: Part::Group(group),
    };
    add_break(alloc, first, spot, part.place, &part.name)?;
    Ok(())
}

/// Keeps a break of the rule.
fn add_break(
    alloc: Global,
    first: &mut FirstBreak,
    spot: Spot,
    place: Place,
    name: &Name,
) -> Result<(), Memory>
    ensures value { IfOk result (λ _. first.new ≡
        earlier first.old
        (record { rule = CombCycle; spot = plain_spot spot; place = place; name = name.now })) }
{
    if first.is_first(Rule::CombCycle, spot, place) {
        let name = Name::from_bytes(alloc, name.bytes())?;
        first.keep(Break {
            rule: Rule::CombCycle,
            spot,
            place,
            name,
        });
    }
    Ok(())
}
