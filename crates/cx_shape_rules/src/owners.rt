//! Groups by their numbers.

ghost use Rattle.std.specs.Prelude.{◌≡◌, None, Some, IfNone, IfSome, slice_get};
ghost use Rattle.cx_meaning.specs.Designs.{group_at};
ghost use Rattle.cx_meaning.specs.Islands as islands;
ghost use Rattle.cx_rules.specs.Items as items;
ghost use Rattle.cx_rules.specs.ShapeRules as rules;
ghost use Rattle.cx_design.specs.PlainForms.{plain_component, plain_group};
ghost use Rattle.cx_shape_rules.specs.ShapeBreaks as breaks;

use cx_design::{Component, Group, GroupKind};

/// The group of a number, where the component has it.
fn group_of(part: &Component, number: usize) -> Option<&Group>
    ensures none { IfNone result (slice_get (plain_component part.now).groups number ≡ None) }
    ensures some { IfSome result
        (λ group. slice_get (plain_component part.now).groups number ≡ Some (plain_group group.now)) }
{
    part.groups.as_slice().get(number)
}

/// The kind of a group; plain for a number that names no group.
#[tactic(auto, using(crate::proofs::PartLemmas::group_number))]
fn group_kind(part: &Component, number: usize) -> GroupKind
    ensures value { result ≡ (group_at (plain_component part.now) number).kind }
{
    match group_of(part, number) {
        Some(group) => group.kind,
        None => GroupKind::Plain,
    }
}

/// The cycles of a static group.
pub fn group_length(part: &Component, number: usize) -> Option<u64>
    ensures value { result ≡ islands.group_length (plain_component part.now) number }
{
    kind_length(group_kind(part, number))
}

/// The cycles of a static group's kind.
pub fn kind_length(kind: GroupKind) -> Option<u64>
    ensures value { result ≡ islands.kind_length kind }
{
    match kind {
        GroupKind::Timed(length) => Some(length),
        GroupKind::Plain | GroupKind::Comb => None,
    }
}

fn is_comb(kind: GroupKind) -> bool
    ensures value { result ≡ items.is_comb kind }
{
    match kind {
        GroupKind::Comb => true,
        GroupKind::Plain | GroupKind::Timed(_) => false,
    }
}

/// The cycles of the static group in which an assignment stands.
pub fn owner_length(part: &Component, owner: Option<usize>) -> Option<u64>
    ensures value { result ≡ rules.owner_length (plain_component part.now) owner }
{
    match owner {
        Some(number) => group_length(part, number),
        None => None,
    }
}

/// Whether an assignment stands in a comb group.
pub fn is_owned_by_comb(part: &Component, owner: Option<usize>) -> bool
    ensures value { result ≡ breaks.is_owned_by_comb (plain_component part.now) owner }
{
    match owner {
        Some(number) => is_comb(group_kind(part, number)),
        None => false,
    }
}
