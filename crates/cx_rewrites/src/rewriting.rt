//! What a rewriting names, for the laws.

ghost use Rattle.std.specs.Prelude.{ℕ};
ghost use Rattle.cx_meaning.specs.declared.ports.PortRef.{PortRef};
ghost use Rattle.cx_meaning.specs.Designs.{PlainForm};
ghost use Rattle.cx_meaning.specs.Instances.{State};
ghost use Rattle.cx_rewrites.specs.Tallies.{Tally};

/// Gives the old design and the new one something in common. The laws hold for whatever a type names here.
pub trait Rewriting {
    /// Whether a state of the new design stands for a state of the old one, when so much has been counted.
    ghost stands: { Tally → State → State → Type 0 };

    /// The groups whose runs are known to carry.
    ghost groups: { ℕ → Type 0 };

    /// The statements whose runs are known to carry, by their forms.
    ghost forms: { PlainForm → Type 0 };

    /// The ports of the old design that are compared.
    ghost inside: { PortRef → Type 0 };
}
