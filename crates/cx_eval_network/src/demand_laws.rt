//! A law: the function does nothing, and its clause is the law.

ghost use Rattle.std.specs.Prelude.{ℕ, List};
ghost use Rattle.cx_eval_network.specs.Demands.{IsGrounded};
ghost use Rattle.cx_eval_network.specs.Ports.{PortNodes, AreAcyclic, LeadOn};

/// No node depends on itself where each leads to ports that its own port depends on at once in its instance, or to ports of
/// instances with greater numbers, and where nothing leads in a circle in any instance.
pub fn instances_are_grounded()
    ensures { (nodes : PortNodes) (leads : ℕ → List ℕ) → AreAcyclic nodes → LeadOn nodes leads → IsGrounded leads }
{}
