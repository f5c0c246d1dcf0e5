//! What is known of the nodes of a network.

ghost use Rattle.std.specs.Prelude.{◌≡◌, ◌<◌, ℕ, IfOk, length};
ghost use Rattle.cx_meaning.specs.declared.sights.Seen.{Seen};
ghost use Rattle.cx_eval_network.specs.Demands.{AllUnseen, Demanded, IsGrounded, Keeps, Ready, StaysWithin};
ghost use Rattle.cx_eval_network.specs.Askings.{IsAsking, asked_of};
ghost use Rattle.cx_eval_network.specs.Networks.{value_at};

use crate::asking::Asking;
use crate::filling::{fill, listed_group};
use crate::finding::find;
use crate::listed::GroupList;
use crate::marks::MarkTable;
use crate::network::Network;
use cx_design::Seen;
use cx_text::Memory;
use std::alloc::Global;
use std::marker::Model;

/// What is known of the nodes of a network, with the room that demands need. Contracts see it as its marks.
#[derive(Debug, Drop)]
pub struct Marks {
    marks: MarkTable,
    /// The nodes that wait for one another during a demand. What it holds between demands is of no account.
    stack: Vec<usize>,
}

impl Model for Marks {
    ghost use Rattle.std.specs.Prelude.{◌≡◌, List, length};
    ghost use Rattle.cx_eval_network.specs.declared.marks.NodeMark.{NodeMark};

    ghost Value = { List NodeMark };

    ghost view = { λ m. m.marks };

    ghost invariant = { λ m. length m.stack.items ≡ length m.marks };
}

impl Marks {
    /// Marks of so many nodes, of which nothing is known.
    pub fn new(alloc: Global, count: usize) -> Result<Marks, Memory>
        ensures unseen { IfOk result AllUnseen }
        ensures ready { IfOk result (λ marks. (value : ℕ → Seen) → Ready value marks) }
        ensures count { IfOk result (λ marks. length marks ≡ count) }
    {
        Ok(Marks {
            marks: MarkTable::new(alloc, count)?,
            stack: vec![in alloc; 0usize; count]?,
        })
    }

    /// Forgets all that is known, whatever that is.
    pub fn forget(&mut self)
        ensures unseen { AllUnseen self.new }
        ensures ready { (value : ℕ → Seen) → Ready value self.new }
        ensures count { length self.new ≡ length self.old }
    {
        self.marks.forget();
    }

    /// The value of a node, which is found with those of all that it depends on. It takes no memory, and does not recurse from
    /// node to node.
    pub fn demand<N: Network>(&mut self, net: &N, root: usize) -> Seen
        requires sound { N.sound net.now }
        requires root { root < length self.old }
        requires within { StaysWithin (N.leads net.now) (length self.old) }
        requires grounded { IsGrounded (N.leads net.now) }
        requires ready { Ready (N.value net.now) self.old }
        ensures seen { result ≡ N.value net.now root }
        ensures value { Demanded (N.value net.now) root self.old self.new }
        ensures count { length self.new ≡ length self.old }
    {
        if let Some(seen) = self.marks.known(root) {
            return *seen;
        }
        find(net, &mut self.marks, &mut self.stack, root);
        match self.marks.known(root) {
            Some(seen) => *seen,
            None => unreachable!(),
        }
    }

    /// Finds the ports of a list of the only group that is active in the asked instance, in their order, each at once. What is
    /// not found so is left to demands. It takes no memory.
    pub fn fill(&mut self, asking: &Asking<'_>, list: GroupList)
        requires can { IsAsking asking.now }
        requires ready { Ready (value_at (asked_of asking.now) asking.now.nodes.now) self.old }
        ensures ready { Ready (value_at (asked_of asking.now) asking.now.nodes.now) self.new }
        ensures kept { Keeps self.old self.new }
        ensures count { length self.new ≡ length self.old }
    {
        if let Some(group) = listed_group(asking.active) {
            let list = asking.nodes.listed(asking.instance, group, list);
            fill(asking, &mut self.marks, list);
        }
    }
}
