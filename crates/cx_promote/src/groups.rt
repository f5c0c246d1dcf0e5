//! Groups and their assignments in a promoted tree.

ghost use Rattle.std.specs.Prelude.{◌≡◌, IfOk, None, Some, map, if◌then◌else◌};
ghost use Rattle.cx_ast.specs.declared.wiring.GroupWord.TheVariants as words;
ghost use Rattle.cx_ast.specs.PlainTree as written;
ghost use Rattle.cx_numbering.specs.DesignOf.{assign_of, group_of};
ghost use Rattle.cx_numbering.specs.Names.{groups_in};
ghost use Rattle.cx_design.specs.PlainForms.{plain_assigns, plain_group};
ghost use Rattle.cx_promotion.specs.Rewriting as promotion;
ghost use Rattle.cx_promote.specs.Lengths.{Begins};
ghost use Rattle.cx_promote.specs.Sites.{IsSite, instance_at, part_at, tree_at};

use crate::sites::Site;
use cx_ast::{AssignItem, GroupItem, GroupWord, OperandForm, WireItem};
use cx_copies::{
    SameNames, copied_assign, copied_attributes, copied_group, copied_marks, copied_name,
    named_operand,
};
use cx_design::{Assign, Group};
use cx_design_parts::{component, is_primitive_enable};
use cx_text::Memory;
use std::alloc::Global;

/// What stands in `wires`: a group with a length is a static group of it, and all else stays.
#[tactic(auto, using(crate::proofs::ListLemmas::begins_item, crate::proofs::ListLemmas::begins_within, crate::proofs::SiteLemmas::site_groups, crate::proofs::SiteLemmas::site_within))]
pub(crate) fn promoted_wires(
    alloc: Global,
    site: Site,
    lengths: &[Option<u64>],
) -> Result<Vec<WireItem>, Memory>
    requires site { IsSite site }
    requires lengths { Begins
        (promotion.length_of (tree_at site) (part_at site) (instance_at site)) lengths.now
        (groups_in (part_at site).wires) }
    ensures value { IfOk result (λ list. map written.plain_wire list.items ≡
        map (promotion.promote_wire (tree_at site.entry) (part_at site.entry) (instance_at site.entry))
        (part_at site.entry).wires) }
{
    let groups = component(site.design, site.number).groups.as_slice();
    let mut promoted = Vec::with_capacity(alloc, site.part.wires.len())?;
    let mut place = 0;
    for wire in &site.part.wires {
        match wire {
            WireItem::Group(item) => {
                let group = by_length(alloc, site, lengths[place], &groups[place], item)?;
                promoted.push(WireItem::Group(group))?;
                place += 1;
            }
            WireItem::Assign(item) => {
                promoted.push(WireItem::Assign(copied_assign(alloc, item)?))?;
            }
        }
    }
    Ok(promoted)
}

/// A group by its length, where it has one.
fn by_length(
    alloc: Global,
    site: Site,
    length: Option<u64>,
    group: &Group,
    item: &GroupItem,
) -> Result<GroupItem, Memory>
    requires site { IsSite site }
    requires its { plain_group group.now ≡ group_of (tree_at site) (part_at site) (written.plain_group item.now) }
    ensures value { IfOk result (λ g. written.plain_group g ≡
        promotion.promote_group
        (promotion.enables (tree_at site.entry) (part_at site.entry) (instance_at site.entry)) length
        (written.plain_group item.now)) }
{
    match length {
        None => copied_group(alloc, item),
        Some(cycles) => static_group(alloc, site, cycles, group, item),
    }
}

/// A group as a static group.
fn static_group(
    alloc: Global,
    site: Site,
    cycles: u64,
    group: &Group,
    item: &GroupItem,
) -> Result<GroupItem, Memory>
    requires site { IsSite site }
    requires its { plain_group group.now ≡ group_of (tree_at site) (part_at site) (written.plain_group item.now) }
    ensures value { IfOk result (λ g. written.plain_group g ≡
        promotion.promote_group
        (promotion.enables (tree_at site.entry) (part_at site.entry) (instance_at site.entry)) (Some cycles)
        (written.plain_group item.now)) }
{
    let attributes = copied_attributes(alloc, item.attributes.as_slice())?;
    let name = copied_name(alloc, &item.name)?;
    let marks = copied_marks(alloc, item.marks.as_slice())?;
    let assigns = static_assigns(
        alloc,
        site,
        group.assigns.as_slice(),
        item.assigns.as_slice(),
    )?;
    Ok(GroupItem {
        attributes,
        kind: GroupWord::Timed(cycles),
        name,
        marks,
        assigns,
        place: item.place,
    })
}

/// The assignments but that of the done, and those of enabling ports without their guards.
#[tactic(auto, using(crate::proofs::SiteLemmas::site_within))]
fn static_assigns(
    alloc: Global,
    site: Site,
    assigns: &[Assign],
    items: &[AssignItem],
) -> Result<Vec<AssignItem>, Memory>
    requires site { IsSite site }
    requires its { plain_assigns assigns.now ≡
        map (assign_of (tree_at site) (part_at site)) (map written.plain_assign items.now) }
    ensures value { IfOk result (λ list. map written.plain_assign list.items ≡
        promotion.promote_assigns
        (promotion.enables (tree_at site.entry) (part_at site.entry) (instance_at site.entry))
        (map written.plain_assign items.now)) }
{
    let mut kept = Vec::new(alloc);
    for place in 0..items.len() {
        let item = &items[place];
        if is_hole_item(&item.target.form) {
            continue;
        }
        let enables = is_primitive_enable(site.design, site.number, assigns[place].target);
        kept.push(kept_assign(alloc, enables, item)?)?;
    }
    Ok(kept)
}

/// Whether an operand is a hole.
fn is_hole_item(form: &OperandForm) -> bool
    ensures value { result ≡ promotion.is_hole_item form.now }
{
    match form {
        OperandForm::Hole(_, _) => true,
        OperandForm::Own(_) | OperandForm::Port(_, _) | OperandForm::Literal(_, _) => false,
    }
}

/// An assignment, without its guard where it drives an enabling port.
fn kept_assign(alloc: Global, enables: bool, item: &AssignItem) -> Result<AssignItem, Memory>
    ensures value { IfOk result (λ a. written.plain_assign a ≡
        (if enables then record (written.plain_assign item.now) { guard = None }
        else written.plain_assign item.now)) }
{
    if enables {
        bare_assign(alloc, item)
    } else {
        copied_assign(alloc, item)
    }
}

/// An assignment without its guard.
#[tactic(auto, using(crate::proofs::OperandLemmas::same_operand))]
fn bare_assign(alloc: Global, item: &AssignItem) -> Result<AssignItem, Memory>
    ensures value { IfOk result
        (λ a. written.plain_assign a ≡ record (written.plain_assign item.now) { guard = None }) }
{
    let attributes = copied_attributes(alloc, item.attributes.as_slice())?;
    let target = named_operand(alloc, &SameNames, &item.target)?;
    let source = named_operand(alloc, &SameNames, &item.source)?;
    Ok(AssignItem {
        attributes,
        target,
        guard: None,
        source,
        place: item.place,
    })
}
