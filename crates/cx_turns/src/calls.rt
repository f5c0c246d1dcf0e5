//! What is known of a group that control enables.

ghost use Rattle.std.specs.Prelude.{◌≡◌};
ghost use Rattle.cx_meaning.specs.Islands as islands;
ghost use Rattle.cx_design.specs.PlainForms.{plain_component};
ghost use Rattle.cx_turns.specs.Groups.{HasLength, IsGroupOf, IsGroupRow};
ghost use Rattle.cx_turns.specs.Islands.{HasPart};
ghost use Rattle.cx_turns.specs.Machines.{design_of, IsPlan, IsInstance};

use crate::plan::Plan;
use crate::tables::GroupRow;
use cx_design::{Component, GroupKind};
use cx_design_parts::component;

/// What is known of a group of an instance.
pub fn group_row<'p>(plan: &'p Plan<'_>, instance: usize, group: u32) -> &'p GroupRow
    requires plan { IsPlan plan.now }
    requires instance { IsInstance (design_of plan.now) instance }
    requires group { IsGroupOf (design_of plan.now) instance group }
    ensures { IsGroupRow (design_of plan.now) instance group result.now }
{
    let component = plan.table.rows[instance].component as usize;
    &plan.groups[component].rows[group as usize]
}

/// The cycles of a static group's kind.
fn kind_length(kind: GroupKind) -> Option<u64>
    ensures { result ≡ islands.kind_length kind }
{
    match kind {
        GroupKind::Timed(length) => Some(length),
        GroupKind::Plain | GroupKind::Comb => None,
    }
}

/// The cycles of a group of an instance, if it is static.
pub fn group_length(plan: &Plan<'_>, instance: usize, group: u32) -> Option<u64>
    requires plan { IsPlan plan.now }
    requires instance { IsInstance (design_of plan.now) instance }
    requires group { IsGroupOf (design_of plan.now) instance group }
    ensures { HasLength (design_of plan.now) instance group result }
{
    let number = plan.table.rows[instance].component as usize;
    let groups = component(plan.design, number).groups.as_slice();
    kind_length(groups[group as usize].kind)
}

/// The component of an instance.
pub fn instance_part<'p>(plan: &'p Plan<'_>, instance: usize) -> &'p Component
    requires plan { IsPlan plan.now }
    requires instance { IsInstance (design_of plan.now) instance }
    ensures { HasPart (design_of plan.now) instance (plain_component result.now) }
{
    let number = plan.table.rows[instance].component as usize;
    component(plan.design, number)
}
