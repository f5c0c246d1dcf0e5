//! None, one or several of some numbered owners.

ghost use Rattle.std.specs.Prelude.{◌≡◌, ◌↔◌, IsTrue};
ghost use Rattle.cx_graphs.specs.Owners.{joined};

/// Owners of a node, as far as none, one and several are told apart.
#[derive(Clone, Copy, Debug, PartialEq, Eq)]
pub enum Owners {
    Nobody,
    /// One owner, by its number.
    Only(usize),
    Several,
}

impl Owners {
    /// These owners and others.
    pub fn join(self, other: Owners) -> Owners
        ensures value { result ≡ joined self other }
    {
        match (self, other) {
            (Owners::Nobody, owners) | (owners, Owners::Nobody) => owners,
            (Owners::Only(one), Owners::Only(another)) => {
                if one == another {
                    Owners::Only(one)
                } else {
                    Owners::Several
                }
            }
            (Owners::Several, _) | (_, Owners::Several) => Owners::Several,
        }
    }

    /// Whether these owners are those.
    pub fn is(self, other: Owners) -> bool
        ensures same { IsTrue result ↔ (self ≡ other) }
    {
        self == other
    }

    /// Whether there are several.
    pub fn are_several(self) -> bool
        ensures several { IsTrue result ↔ (self ≡ Owners.Several) }
    {
        match self {
            Owners::Several => true,
            Owners::Nobody | Owners::Only(_) => false,
        }
    }
}
