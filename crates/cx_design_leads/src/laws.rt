//! Laws of the nodes of a component: each function does nothing, and its clause is the law.

ghost use Rattle.std.specs.Prelude.{◌≡◌, ◌≢◌, ◌<◌, ◌⊎◌, ◌↔◌, ℕ, Some, length};
ghost use Rattle.cx_meaning.specs.declared.ports.PortRef.{PortRef};
ghost use Rattle.cx_meaning.specs.declared.ports.PortRef.TheVariants.{Literal};
ghost use Rattle.cx_meaning.specs.Active.{Active, group, nothing};
ghost use Rattle.cx_meaning.specs.Designs.{PlainDesign};
ghost use Rattle.cx_meaning.specs.Instances.{Instance};
ghost use Rattle.cx_rules.specs.Footprints.{Leads};
ghost use Rattle.cx_rules.specs.Ports.{component_of};
ghost use Rattle.cx_rules.specs.Wellformed.{IsDesign, IsThere};
ghost use Rattle.cx_design_leads.specs.Nodes.{node_count, node_of};
ghost use Rattle.cx_design_leads.specs.Edges.{LeadsInGroup};

/// Two ports have two nodes.
pub fn nodes_are_distinct()
    ensures { (i : Instance) (p q : PortRef) (n : ℕ) → node_of i p ≡ Some n → node_of i q ≡ Some n → p ≡ q }
{}

/// Each node is below their count.
pub fn nodes_are_within()
    ensures { (i : Instance) (p : PortRef) (n : ℕ) → node_of i p ≡ Some n → n < node_count i }
{}

/// Each port that is there has a node, but for literals.
pub fn ports_have_nodes()
    ensures { (i : Instance) (p : PortRef) → IsThere i p → ((w v : ℕ) → p ≢ Literal w v) →
        (n : ℕ) × (node_of i p ≡ Some n) }
{}

/// What leads on under a group does so under the continuous assignments, or by an assignment of the group.
pub fn group_leads_on()
    ensures { (i : Instance) (g : ℕ) (p q : PortRef) (m : ℕ) → node_of i p ≡ Some m
        → (Leads i (group g) p q ↔ (Leads i nothing p q ⊎ LeadsInGroup i g p q)) }
{}

/// In a component of a design a port that leads on has a node.
pub fn leads_have_nodes()
    ensures { (d : PlainDesign) (k : ℕ) → IsDesign d → k < length d.components →
        (act : Active) (p q : PortRef) → Leads (component_of d k) act p q
        → (m : ℕ) × (node_of (component_of d k) p ≡ Some m) }
{}
