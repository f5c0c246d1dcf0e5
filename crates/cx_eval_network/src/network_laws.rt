//! Laws: each function does nothing, and its clause is the law.

ghost use Rattle.std.specs.Prelude.{◌≡◌, ◌↔◌, ℕ, List, Some};
ghost use Rattle.cx_text.specs.Members.{In};
ghost use Rattle.cx_meaning.specs.declared.ports.PortRef.{PortRef};
ghost use Rattle.cx_meaning.specs.Active.{Active};
ghost use Rattle.cx_meaning.specs.Designs.{PlainDesign};
ghost use Rattle.cx_rules.specs.Accepted.{IsAccepted};
ghost use Rattle.cx_rules.specs.Wellformed.{IsDesign};
ghost use Rattle.cx_design.specs.declared.actives.Active as actives;
ghost use Rattle.cx_design.specs.PlainActives.{plain_active};
ghost use Rattle.cx_eval_drives.specs.Actives.{CanBeActive};
ghost use Rattle.cx_state.specs.Tables.{IsTable};
ghost use Rattle.cx_meaning.specs.Instances.{tree_of};
ghost use Rattle.cx_meaning.specs.Sights.{step};
ghost use Rattle.cx_rules.specs.Footprints.{Leads};
ghost use Rattle.cx_rules.specs.Ports.{component_of};
ghost use Rattle.cx_eval_network.specs.Demands.{AreKnown, IsGrounded, StaysWithin};
ghost use Rattle.cx_eval_network.specs.declared.marks.NodeMark.{NodeMark};
ghost use Rattle.cx_state.specs.States.{under_path};
ghost use Rattle.cx_state.specs.ReadStates.{state_in};
ghost use Rattle.cx_eval_network.specs.declared.numbering.NodePort.{NodePort};
ghost use Rattle.cx_eval_network.specs.declared.numbering.Nodes.{Nodes};
ghost use Rattle.cx_eval_network.specs.Nodes.{IsNodesOf, found_at, node_count};
ghost use Rattle.cx_eval_network.specs.LeadPorts.{lead_ports};
ghost use Rattle.cx_eval_network.specs.Networks.{Asked, IsNetwork, active_at, asked_port, below_at, held_at, instance_of, leads_at, look_at, path_at, value_at};

use cx_eval_drives::active_is_acyclic;

/// The ports of the list are those that a port depends on at once, in each component of a design.
pub fn lead_ports_lead()
    ensures { (d : PlainDesign) (k : ℕ) (act : Active) (p q : PortRef) →
        (In (lead_ports (component_of d k) act p) q ↔ Leads (component_of d k) act p q) }
{}

/// The numbered ports of an accepted design are a network under what can be active in the asked instance.
pub fn accepted_designs_are_networks()
    ensures { (a : Asked) (nodes : Nodes) (active : actives.Active) → IsDesign a.design →
        IsAccepted a.design → IsTable a.design a.rows a.children → IsNodesOf a.design a.rows nodes
        → a.active ≡ plain_active (instance_of a a.instance) active
        → CanBeActive (instance_of a a.instance) active → IsNetwork a nodes }
{
    active_is_acyclic();
}

/// Nodes lead to nodes.
pub fn networks_stay_within()
    ensures { (a : Asked) (nodes : Nodes) → IsNetwork a nodes →
        StaysWithin (leads_at a nodes) (node_count a.design a.rows) }
{}

/// No node leads back to itself.
pub fn networks_are_grounded()
    ensures { (a : Asked) (nodes : Nodes) → IsNetwork a nodes → IsGrounded (leads_at a nodes) }
{}

/// The value of a node is what one step gives of what the marks show, where they show what the node leads to.
pub fn known_nodes_decide()
    ensures { (a : Asked) (nodes : Nodes) → IsNetwork a nodes → (marks : List NodeMark) (node : ℕ) (found : NodePort)
        → asked_port a (found_at nodes node) ≡ Some found → AreKnown (value_at a nodes) marks (leads_at a nodes node)
        → step (instance_of a found.instance) (held_at a found.instance) (active_at a found.instance)
        (under_path (path_at a.design found.instance) (state_in (tree_of a.design) a.state))
        (look_at a marks found.instance) (below_at a marks found.instance) found.port
        ≡ value_at a nodes node }
{}
