//! What is known of the groups of each component.

ghost use Rattle.std.specs.Prelude.{◌<◌, IfOk, IfSome, List, length};
ghost use Rattle.cx_meaning.specs.Designs.{PlainDesign};
ghost use Rattle.cx_meaning.specs.Instances.{Instance};
ghost use Rattle.cx_rules.specs.Ports.{component_of};
ghost use Rattle.cx_design.specs.PlainDesigns.{plain_design};
ghost use Rattle.cx_state.specs.declared.tables.InstanceRow.{InstanceRow};
ghost use Rattle.cx_eval_network.specs.Lists.{ArePartLists};
ghost use Rattle.cx_eval_network.specs.Nodes.{IsNodesOf, IsPartOf};
ghost use Rattle.cx_eval_network.specs.Plans.{ArePlans};
ghost use Rattle.cx_eval.specs.Sources.{ArePartSources, AreSourcesOf, HaveSources};

use crate::closed_groups::sources_of;
use crate::closing::narrow;
use crate::leaves::PartGroup;
use crate::sources::GroupSources;
use cx_design::{Active, Component, Design};
use cx_design_parts::component;
use cx_eval_network::{Nodes, PartLists, PartNodes, PartPlans};
use cx_text::Memory;
use std::alloc::Global;

/// What is known of each group of a component.
#[derive(Debug, Drop)]
pub(crate) struct PartSources {
    pub(crate) groups: Vec<GroupSources>,
}

/// What is known of the groups of each component of a numbered design.
pub(crate) fn all_sources(
    alloc: Global,
    design: &Design,
    nodes: &Nodes,
) -> Result<Vec<PartSources>, Memory>
    requires numbered { (rows : List InstanceRow) × IsNodesOf (plain_design design.now) rows nodes.now }
    ensures value { IfOk result (λ all. HaveSources (plain_design design.now) all.items) }
{
    let mut all = Vec::new(alloc);
    for number in 0..design.components.len() {
        all.push(own_sources(alloc, design, nodes, number)?)?;
    }
    Ok(all)
}

/// The same of a component; none where it has no lists.
fn own_sources(
    alloc: Global,
    design: &Design,
    nodes: &Nodes,
    number: usize,
) -> Result<PartSources, Memory>
    requires numbered { (rows : List InstanceRow) × IsNodesOf (plain_design design.now) rows nodes.now }
    requires within { number < length design.now.components.items }
    ensures value { IfOk result (ArePartSources (component_of (plain_design design.now) number)) }
{
    match nodes.lists.get(number) {
        Some(lists) => part_sources(
            alloc,
            component(design, number),
            &nodes.parts[number],
            &nodes.plans[number],
            lists,
        ),
        None => Ok(PartSources {
            groups: Vec::new(alloc),
        }),
    }
}

/// The same, by its ports, plans and lists.
fn part_sources(
    alloc: Global,
    component: &Component,
    part: &PartNodes,
    plans: &PartPlans,
    lists: &PartLists,
) -> Result<PartSources, Memory>
    requires lists { ArePartLists part.now.ports.items plans.now.ports.items lists.now }
    ensures value { IfOk result (λ sources. (i : Instance) → IsPartOf i part.now →
        ArePlans i plans.now.ports.items → ArePartSources i sources) }
{
    let mut groups = Vec::new(alloc);
    for (number, ports) in lists.groups.iter().enumerate() {
        let group = narrow(number)?;
        let active = Active::Group(group);
        let of = PartGroup {
            part,
            plans,
            active: &active,
        };
        groups.push(sources_of(alloc, component, &of, group, ports)?)?;
    }
    Ok(PartSources { groups })
}

/// What is known of a group of a component, both by their numbers, where it is there.
pub(crate) fn group_sources(
    all: &[PartSources],
    component: u32,
    group: u32,
) -> Option<&GroupSources>
    ensures value { IfSome result (λ known. (d : PlainDesign) → HaveSources d all.now →
        AreSourcesOf (component_of d component) group known.now) }
{
    let part = all.get(component as usize)?;
    part.groups.get(group as usize)
}

/// The most operators that a closed group has. Whoever makes room by it asks again whether that is enough.
pub(crate) fn most_operators(all: &[PartSources]) -> usize {
    let mut most = 0;
    for part in all {
        most = most.max(most_in(&part.groups));
    }
    most
}

/// The most that one of some groups has.
fn most_in(groups: &[GroupSources]) -> usize {
    let mut most = 0;
    for group in groups {
        if let Some(closed) = &group.closed {
            most = most.max(closed.operators.len());
        }
    }
    most
}
