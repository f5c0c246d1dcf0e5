//! Numbers for the ports of all instances.

ghost use Rattle.std.specs.Prelude.{◌≡◌, ◌+◌, ◌<◌, ℕ, List, IfNone, IfOk, IfSome, None, OnOk, Some, length, replicate, slice_get};
ghost use Rattle.cx_meaning.specs.Designs.{PlainDesign};
ghost use Rattle.cx_design.specs.PlainDesigns.{plain_design};
ghost use Rattle.cx_state.specs.declared.tables.InstanceRow.{InstanceRow};
ghost use Rattle.cx_state.specs.Tables.{IsTable, row_at};
ghost use Rattle.cx_meaning.specs.declared.ports.PortRef as refs;
ghost use Rattle.cx_rules.specs.Ports.{component_of};
ghost use Rattle.cx_design_leads.specs.Nodes.{node_of};
ghost use Rattle.cx_eval_network.specs.Nodes.{ArePortsOf, HaveParts, IsListOf, IsNodesOf, IsPortOf, StandBehind, found_at, node_at, node_count};
ghost use Rattle.cx_eval_network.specs.Lists.{AreGroupPorts, AreListed, HaveLists};
ghost use Rattle.cx_eval_network.specs.Plans.{HavePlans, IsPlanOf};
ghost use Rattle.cx_eval_network.specs.declared.parts.PartNodes.{PartNodes};
ghost use Rattle.cx_eval_network.specs.declared.planned.PartPlans.{PartPlans};
ghost use Rattle.cx_eval_network.specs.declared.planned.PortPlan.{PortPlan};
ghost use Rattle.cx_design.specs.declared.actives.Active.{Active};
ghost use Rattle.cx_design.specs.declared.actives.Active.TheVariants.{Group};

use crate::instance_ports::InstancePorts;
use crate::listed::{GroupList, GroupPorts, InstanceList, ListedPort, PartLists};
use crate::listing::all_lists;
use crate::marks::copies;
use crate::outputs::ROOM;
use crate::parts::PartNodes;
use crate::planned::{PartPlans, PortPlan, port_plan};
use crate::plans::all_plans;
use cx_bits::Bits;
use cx_design::{Design, PortRef};
use cx_state::{InstanceRow, InstanceTable};
use cx_text::Memory;
use std::alloc::Global;

/// The component of an instance, and the first of its nodes.
#[derive(Clone, Copy, Debug, PartialEq, Eq)]
pub struct InstanceNodes {
    pub component: u32,
    pub first: usize,
}

/// What stands at a node: the instance, its component, the port, and the number of the port among those of its component.
#[derive(Clone, Copy, Debug, PartialEq, Eq)]
pub struct NodePort {
    pub instance: usize,
    pub component: u32,
    pub port: PortRef,
    pub number: usize,
}

/// A numbering of the ports of all instances of a design: instance by instance, and in each as its component numbers its
/// ports.
#[derive(Debug, Drop)]
pub struct Nodes {
    /// The ports of each component.
    pub parts: Vec<PartNodes>,
    /// What is known of them before any run.
    pub plans: Vec<PartPlans>,
    /// The listed ports of the groups of each component.
    pub lists: Vec<PartLists>,
    pub instances: Vec<InstanceNodes>,
    /// What stands at each node.
    ports: Vec<NodePort>,
    /// Nothing at each port of the longest primitive: what outputs are handed that read no input.
    nothing: Vec<Option<Bits>>,
}

impl Nodes {
    /// The numbering of the ports of the instances of a table.
    pub fn new(alloc: Global, design: &Design, table: &InstanceTable) -> Result<Nodes, Memory>
        requires table { IsTable (plain_design design.now) table.now.rows.items table.now.children.items }
        ensures value { IfOk result (IsNodesOf (plain_design design.now) table.now.rows.items) }
    {
        let mut parts = Vec::new(alloc);
        for number in 0..design.components.len() {
            parts.push(PartNodes::new(alloc, design, number)?)?;
        }
        let plans = all_plans(alloc, design, parts.as_slice())?;
        let lists = all_lists(alloc, design, parts.as_slice(), plans.as_slice())?;
        let nothing = copies(alloc, None, ROOM)?;
        let nodes = placed(alloc, table.rows.as_slice(), parts, plans, lists, nothing)?;
        Ok(nodes)
    }

    /// How many nodes there are.
    pub fn count(&self) -> usize
        ensures value { (d : PlainDesign) (rows : List InstanceRow) → IsNodesOf d rows self.now →
            result ≡ node_count d rows }
    {
        self.ports.len()
    }

    /// The node of a port of an instance. A literal has none, nor has a port that is not there.
    pub fn node(&self, instance: usize, port: PortRef) -> Option<usize>
        ensures value { (d : PlainDesign) (rows : List InstanceRow) → IsNodesOf d rows self.now →
            instance < length rows → result ≡ node_at d rows instance port }
    {
        let place = instance_nodes(self.instances.as_slice(), instance)?;
        let part = part_nodes(self.parts.as_slice(), place.component)?;
        let ports = InstancePorts {
            numbers: &part.numbers,
            first: place.first,
        };
        ports.node(port)
    }

    /// The ports of an instance of the table of a design that is numbered.
    pub fn ports_of<'a>(
        &'a self,
        _design: &Design,
        table: &InstanceTable,
        instance: usize,
    ) -> InstancePorts<'a>
        requires within { instance < length table.now.rows.items }
        requires numbered { IsNodesOf (plain_design _design.now) table.now.rows.items self.now }
        ensures value { ArePortsOf (plain_design _design.now) table.now.rows.items instance result }
    {
        let part = &self.parts[table.rows[instance].component as usize];
        InstancePorts {
            numbers: &part.numbers,
            first: self.instances[instance].first,
        }
    }

    /// What stands at a node, where it is one.
    pub fn port(&self, node: usize) -> Option<NodePort>
        ensures found { result ≡ found_at self.now node }
        ensures value { (d : PlainDesign) (rows : List InstanceRow) → IsNodesOf d rows self.now →
            IsPortOf d rows node result }
    {
        self.ports.get(node).copied()
    }

    /// Listed ports of a group of an instance.
    pub fn listed(&self, instance: usize, group: u32, list: GroupList) -> InstanceList<'_>
        ensures value { (d : PlainDesign) (rows : List InstanceRow) → IsNodesOf d rows self.now →
            instance < length rows → IsListOf d rows instance (Group group) result }
    {
        match instance_nodes(self.instances.as_slice(), instance) {
            Some(place) => InstanceList {
                place,
                ports: group_ports(self.lists.as_slice(), place.component, group, list),
            },
            None => unlisted(),
        }
    }

    /// Nothing at each port of a primitive.
    pub fn nothing(&self) -> &[Option<Bits>]
        ensures value { result.now ≡ self.now.nothing.items }
    {
        self.nothing.as_slice()
    }

    /// What is known of a port of a component before any run, by its number there.
    pub fn plan(&self, component: u32, number: usize) -> Option<&PortPlan>
        ensures none { IfNone result ((d : PlainDesign) (rows : List InstanceRow) (p : refs.PortRef) →
            IsNodesOf d rows self.now → component < length d.components →
            node_of (component_of d component) p ≡ Some number → ⊥) }
        ensures some { IfSome result (λ plan. (d : PlainDesign) (rows : List InstanceRow)
            (p : refs.PortRef) → IsNodesOf d rows self.now
            → node_of (component_of d component) p ≡ Some number
            → IsPlanOf (component_of d component) p plan.now) }
    {
        match part_plans(self.plans.as_slice(), component) {
            Some(part) => match port_plan(part.ports.as_slice(), number) {
                Some(plan) => Some(plan),
                None => None,
            },
            None => None,
        }
    }
}

/// The nodes of an instance, where it is there.
fn instance_nodes(instances: &[InstanceNodes], instance: usize) -> Option<InstanceNodes>
    ensures value { result ≡ slice_get instances.now instance }
{
    instances.get(instance).copied()
}

/// The ports of a component, where it is there.
fn part_nodes(parts: &[PartNodes], component: u32) -> Option<&PartNodes>
    ensures none { IfNone result (slice_get parts.now component ≡ None) }
    ensures some { IfSome result (λ part. slice_get parts.now component ≡ Some part.now) }
{
    parts.get(component as usize)
}

/// The plans of a component, where it is there.
fn part_plans(plans: &[PartPlans], component: u32) -> Option<&PartPlans>
    ensures none { IfNone result (slice_get plans.now component ≡ None) }
    ensures some { IfSome result (λ part. slice_get plans.now component ≡ Some part.now) }
{
    plans.get(component as usize)
}

/// No listed ports.
fn unlisted() -> InstanceList<'static> {
    InstanceList {
        place: InstanceNodes {
            component: 0,
            first: 0,
        },
        ports: &[],
    }
}

/// Listed ports of a group of a component; none where they are not there.
fn group_ports(lists: &[PartLists], component: u32, group: u32, list: GroupList) -> &[ListedPort]
    ensures value { (parts : List PartNodes) (plans : List PartPlans) (part : PartNodes)
        (planned : PartPlans) → HaveLists parts plans lists.now → slice_get parts component ≡ Some part →
        slice_get plans component ≡ Some planned
        → AreListed part.ports.items planned.ports.items (Group group) result.now }
{
    match lists.get(component as usize) {
        Some(own) => match own.groups.get(group as usize) {
            Some(group) => ports_in(group, list),
            None => &[],
        },
        None => &[],
    }
}

/// The ports of one of the lists of a group.
fn ports_in(group: &GroupPorts, list: GroupList) -> &[ListedPort]
    ensures value { (ports : List refs.PortRef) (plans : List PortPlan) (active : Active) →
        AreGroupPorts ports plans active group.now → AreListed ports plans active result.now }
{
    match list {
        GroupList::Hole => group.hole.as_slice(),
        GroupList::Others => group.others.as_slice(),
    }
}

/// The numbering over the ports of the components.
fn placed(
    alloc: Global,
    rows: &[InstanceRow],
    parts: Vec<PartNodes>,
    plans: Vec<PartPlans>,
    lists: Vec<PartLists>,
    nothing: Vec<Option<Bits>>,
) -> Result<Nodes, Memory>
    requires within { (n : ℕ) → n < length rows.now → (row_at rows.now n).component < length parts.items }
    ensures value { IfOk result (λ nodes. (d : PlainDesign) → HaveParts d parts.items
        → HavePlans d plans.items → HaveLists parts.items plans.items lists.items
        → nothing.items ≡ replicate 9 None → IsNodesOf d rows.now nodes) }
{
    let mut instances = Vec::new(alloc);
    let mut ports = Vec::new(alloc);
    for (number, row) in rows.iter().enumerate() {
        let first = ports.len();
        let part = &parts[row.component as usize];
        instances.push(InstanceNodes {
            component: row.component,
            first,
        })?;
        stand(&mut ports, number, row.component, part.ports.as_slice())?;
    }
    Ok(Nodes {
        parts,
        plans,
        lists,
        instances,
        ports,
        nothing,
    })
}

/// Gives the next nodes to the ports of an instance.
fn stand(
    nodes: &mut Vec<NodePort>,
    instance: usize,
    component: u32,
    ports: &[PortRef],
) -> Result<(), Memory>
    ensures value { OnOk result
        (StandBehind instance component ports.now (length ports.now) nodes.old.items nodes.new.items) }
{
    for (number, port) in ports.iter().enumerate() {
        nodes.push(NodePort {
            instance,
            component,
            port: *port,
            number,
        })?;
    }
    Ok(())
}
