//! The value of a node, found over those that it depends on.

ghost use Rattle.std.specs.Prelude.{◌≡◌, ◌<◌, length};
ghost use Rattle.cx_eval_network.specs.Demands.{Demanded, IsGrounded, Ready, StaysWithin};

use crate::marks::MarkTable;
use crate::network::{Found, Network};

/// Finds the value of a node, and those of all that it depends on. `stack` is as long as `marks`, and what it holds is of no
/// account. It takes no memory, and does not recurse from node to node.
pub fn find<N: Network>(net: &N, marks: &mut MarkTable, stack: &mut [usize], root: usize)
    requires sound { N.sound net.now }
    requires root { root < length marks.old }
    requires stack { length stack.old ≡ length marks.old }
    requires within { StaysWithin (N.leads net.now) (length marks.old) }
    requires grounded { IsGrounded (N.leads net.now) }
    requires ready { Ready (N.value net.now) marks.old }
    ensures value { Demanded (N.value net.now) root marks.old marks.new }
    ensures count { length marks.new ≡ length marks.old }
    ensures stack { length stack.new ≡ length marks.new }
{
    if marks.is_known(root) {
        return;
    }
    marks.open(root);
    stack[0] = root;
    let mut depth = 1;
    while depth > 0 {
        let top = stack[depth - 1];
        match net.look(marks, top) {
            Found::Waits(next) => {
                marks.open(next);
                stack[depth] = next;
                depth += 1;
            }
            Found::Worth(value) => {
                marks.know(top, value);
                depth -= 1;
            }
        }
    }
}
