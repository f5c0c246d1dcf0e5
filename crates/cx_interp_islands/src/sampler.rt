//! What ports say as samples.

ghost use Rattle.std.specs.Prelude.{◌≡◌, [], ◌∷◌, Option};
ghost use Rattle.cx_meaning.specs.declared.ports.PortRef.{PortRef};
ghost use Rattle.cx_meaning.specs.Cycles.{Fault};
ghost use Rattle.cx_meaning.specs.Islands.{first_unclear};
ghost use Rattle.cx_meaning.specs.Sights as sights;
ghost use Rattle.cx_laws.specs.Samples as samples;
ghost use Rattle.cx_interp_islands.specs.Asked.{AreStill, earlier_fault};

use cx_meaning::PortRef;

/// What tells static ifs that begin what their ports are, and keeps the first fault.
pub trait Sampler {
    /// What each port is seen as.
    ghost look: { Self → sights.Look };

    /// What stays of it when it is asked.
    ghost kept: { Self → Self };

    /// The ports that it can be asked.
    ghost answers: { Self → PortRef → Type 0 };

    /// The fault of the first port that was asked and is no value.
    ghost fault: { Self → Option Fault };

    /// Whether a port is 1. It takes no memory.
    fn says(&mut self, port: PortRef) -> bool
        requires port { answers self.old port }
        ensures value { result ≡ samples.says (look self.old) port }
        ensures look { look self.new ≡ look self.old }
        ensures kept { kept self.new ≡ kept self.old }
        ensures answers { AreStill (answers self.old) (answers self.new) }
        ensures fault { fault self.new ≡ earlier_fault (fault self.old) (first_unclear (look self.old) (port ∷ [])) };
}
