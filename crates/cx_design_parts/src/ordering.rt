//! The assignments of a component in source order.

ghost use Rattle.std.specs.Prelude.{◌≡◌, ◌++◌, IfOk, Option, None, map};
ghost use Rattle.cx_meaning.specs.Active as active;
ghost use Rattle.cx_meaning.specs.Active.{by_place, owned, owned_by_groups};
ghost use Rattle.cx_design.specs.PlainForms.{plain_component, plain_assigns, plain_group};
ghost use Rattle.cx_design_parts.specs.Plain.{plain_owned};

use cx_design::{Assign, Component, Group};
use cx_text::Memory;
use std::alloc::Global;

/// An assignment, and the number of the group that it stands in; none for a continuous one.
#[derive(Clone, Copy)]
pub struct OwnedAssign<'a> {
    pub owner: Option<usize>,
    pub assign: &'a Assign,
}

/// All assignments of a component by place; at one place the continuous ones first, then by the number of the group, then
/// as they stand in their list.
pub fn source_order<'a>(
    alloc: Global,
    component: &'a Component,
) -> Result<Vec<OwnedAssign<'a>>, Memory>
    ensures value { IfOk result
        (λ list. map plain_owned list.items ≡ active.source_order (plain_component component.now)) }
{
    let mut list = all_assigns(alloc, component)?;
    list.sort_by_key(|a| (a.assign.place.line, a.assign.place.column))?;
    Ok(list)
}

/// The continuous assignments, and those of each group in the order of the groups.
fn all_assigns<'a>(alloc: Global, component: &'a Component) -> Result<Vec<OwnedAssign<'a>>, Memory>
    ensures value { IfOk result (λ list. map plain_owned list.items ≡
        owned None (plain_assigns component.now.always.items)
        ++ owned_by_groups 0 (map plain_group component.now.groups.items)) }
{
    let mut list = Vec::new(alloc);
    append(&mut list, None, component.always.as_slice())?;
    for (number, group) in component.groups.as_slice().iter().enumerate() {
        append(&mut list, Some(number), group.assigns.as_slice())?;
    }
    Ok(list)
}

/// Adds the assignments of one owner.
fn append<'a>(
    list: &mut Vec<OwnedAssign<'a>>,
    owner: Option<usize>,
    assigns: &'a [Assign],
) -> Result<(), Memory>
    ensures value { IfOk result (λ _. map plain_owned list.new.items ≡
        map plain_owned list.old.items ++ owned owner (plain_assigns assigns.now)) }
{
    for assign in assigns {
        list.push(OwnedAssign { owner, assign })?;
    }
    Ok(())
}
