//! Nodes that depend on one another.

ghost use Rattle.std.specs.Prelude.{ℕ, List};
ghost use Rattle.cx_meaning.specs.declared.sights.Seen.{Seen};
ghost use Rattle.cx_eval_network.specs.Demands.{IsRight, Looked};

use crate::marks::MarkTable;
use cx_meaning::Seen;

/// What a look at a node finds: its value, or a node that it depends on at once and that is not known.
#[derive(Clone, Copy, Debug, PartialEq, Eq)]
pub enum Found {
    Worth(Seen),
    Waits(usize),
}

/// Nodes by their numbers, each with a value that those that it leads to give.
pub trait Network {
    /// The nodes that a node depends on at once.
    ghost leads: { Self → ℕ → List ℕ };

    /// The value of each node.
    ghost value: { Self → ℕ → Seen };

    /// What has to hold where nodes are asked.
    ghost sound: { Self → Type 0 };

    /// The value of a node; or, where not all nodes that it depends on at once are known, one of these that is not. It takes no memory.
    fn look(&self, marks: &MarkTable, node: usize) -> Found
        requires sound { sound self.now }
        requires right { IsRight (value self.now) marks.now }
        ensures found { Looked (leads self.now node) (value self.now node) marks.now result };
}
