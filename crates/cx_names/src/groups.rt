//! Groups by number.

ghost use Rattle.std.specs.Prelude.{◌≡◌, IfOk, map};
ghost use Rattle.cx_ast.specs.PlainTree as written;
ghost use Rattle.cx_design.specs.PlainForms.{plain_group};
ghost use Rattle.cx_numbering.specs.Names.{groups_in};
ghost use Rattle.cx_numbering.specs.DesignOf as design;
ghost use Rattle.cx_names.specs.Sites.{IsSite, tree_at, part_at};

use crate::assigns::assigns;
use crate::sites::Site;
use cx_ast::{GroupItem, GroupWord, WireItem};
use cx_design::Group;
use cx_meaning::GroupKind;
use cx_text::{Memory, Name};
use std::alloc::Global;

// What a group is for.
fn kind(site: &Site, word: GroupWord) -> GroupKind
    ensures { result ≡ design.kind_of (tree_at site.now) (part_at site.now) word }
{
    match word {
        GroupWord::Plain => GroupKind::Plain,
        GroupWord::Comb => GroupKind::Comb,
        GroupWord::Timed(length) => GroupKind::Timed(length),
    }
}

// A group.
fn group(alloc: Global, site: &Site, item: &GroupItem) -> Result<Group, Memory>
    requires { IsSite site.now }
    ensures { IfOk result (λ g.
        plain_group g ≡ design.group_of (tree_at site.now) (part_at site.now) (written.plain_group item.now)) }
{
    let name = Name::from_bytes(alloc, item.name.bytes())?;
    let kind = kind(site, item.kind);
    let assigns = assigns(alloc, site, &item.assigns)?;
    Ok(Group {
        name,
        kind,
        assigns,
        place: item.place,
    })
}

/// The groups among what stands in wires, in order.
pub(crate) fn groups(alloc: Global, site: &Site, wires: &[WireItem]) -> Result<Vec<Group>, Memory>
    requires { IsSite site.now }
    ensures { IfOk result (λ all. map plain_group all.items ≡
        map (design.group_of (tree_at site.now) (part_at site.now))
        (groups_in (map written.plain_wire wires.now))) }
{
    let mut all = Vec::new(alloc);
    for wire in wires {
        let WireItem::Group(item) = wire else {
            continue;
        };
        all.push(group(alloc, site, item)?)?;
    }
    Ok(all)
}
