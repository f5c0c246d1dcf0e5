//! Laws of nodes: each function does nothing, and its clause is the law.

ghost use Rattle.std.specs.Prelude.{◌≡◌, ◌≢◌, ◌<◌, ℕ, List, Some, length};
ghost use Rattle.cx_meaning.specs.declared.ports.PortRef.{PortRef};
ghost use Rattle.cx_meaning.specs.declared.ports.PortRef.TheVariants.{Literal};
ghost use Rattle.cx_meaning.specs.Designs.{PlainDesign};
ghost use Rattle.cx_rules.specs.Wellformed.{IsThere};
ghost use Rattle.cx_state.specs.declared.tables.InstanceRow.{InstanceRow};
ghost use Rattle.cx_eval_network.specs.Nodes.{node_at, node_count, part_at};

/// Each node is below their count.
pub fn nodes_are_within()
    ensures { (d : PlainDesign) (rows : List InstanceRow) (n : ℕ) (p : PortRef) (node : ℕ) →
        n < length rows → node_at d rows n p ≡ Some node → node < node_count d rows }
{}

/// Two ports, or the ports of two instances, have two nodes.
pub fn nodes_are_apart()
    ensures { (d : PlainDesign) (rows : List InstanceRow) (n k : ℕ) (p q : PortRef) (node : ℕ)
        → node_at d rows n p ≡ Some node → node_at d rows k q ≡ Some node → (n ≡ k) × (p ≡ q) }
{}

/// The nodes of later instances are greater.
pub fn later_nodes_are_greater()
    ensures { (d : PlainDesign) (rows : List InstanceRow) (n k : ℕ) (p q : PortRef) (first second : ℕ)
        → n < k → node_at d rows n p ≡ Some first → node_at d rows k q ≡ Some second → first < second }
{}

/// Each port that is there has a node, but for literals.
pub fn ports_have_nodes()
    ensures { (d : PlainDesign) (rows : List InstanceRow) (n : ℕ) (p : PortRef)
        → IsThere (part_at d rows n) p → ((w v : ℕ) → p ≢ Literal w v) → (node : ℕ) × (node_at d rows n p ≡ Some node) }
{}
