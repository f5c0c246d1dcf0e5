//! Laws of what rests on state: the function does nothing, and its clauses are the laws.

ghost use Rattle.std.specs.Prelude.{◌≡◌, ℕ, true, false};
ghost use Rattle.cx_meaning.specs.declared.ports.PortRef.{PortRef};
ghost use Rattle.cx_meaning.specs.Designs.{PlainDesign};
ghost use Rattle.cx_rules.specs.Ports.{component_of};
ghost use Rattle.cx_rules.specs.Footprints.{Rests};
ghost use Rattle.cx_rules.specs.ShapeRules.{LeadsToInput};
ghost use Rattle.cx_shape_state.specs.Resting.{rests_at};

/// What is found to rest on state is what rests on state; without the inputs, what moreover leads back to no input.
pub fn found_rests()
    ensures rests { (d : PlainDesign) (k : ℕ) (q : PortRef) → rests_at (component_of d k) true q ≡ true →
        Rests (component_of d k) q }
    ensures all { (d : PlainDesign) (k : ℕ) (q : PortRef) → Rests (component_of d k) q →
        rests_at (component_of d k) true q ≡ true }
    ensures inner_rests { (d : PlainDesign) (k : ℕ) (q : PortRef) →
        rests_at (component_of d k) false q ≡ true → Rests (component_of d k) q }
    ensures inner { (d : PlainDesign) (k : ℕ) (q : PortRef) → rests_at (component_of d k) false q ≡ true →
        LeadsToInput (component_of d k) q → ⊥ }
    ensures leads { (d : PlainDesign) (k : ℕ) (q : PortRef) → Rests (component_of d k) q →
        rests_at (component_of d k) false q ≡ false → LeadsToInput (component_of d k) q }
{}
