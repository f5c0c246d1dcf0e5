//! What marks show of nodes.

ghost use Rattle.std.specs.Prelude.{◌≡◌, IfNone, IfSome, Some, false, slice_get};
ghost use Rattle.cx_eval_network.specs.Demands.{known_at};
ghost use Rattle.cx_eval_network.specs.Evaluated.{by_mark};
ghost use Rattle.cx_eval_network.specs.Networks.{shown};
ghost use Rattle.cx_eval_network.specs.declared.marks.NodeMark.TheVariants.{Known};

use crate::marks::{MarkTable, StampedMark, seen_with};
use crate::network::Found;
use cx_design::Seen;
use std::marker::Model;

/// The marks of a table from a node on: those of the ports of an instance, by their numbers. Contracts see what is known of each.
#[derive(Drop)]
pub struct OwnMarks<'a> {
    pub(crate) marks: &'a [StampedMark],
    /// The stamp that counts.
    pub(crate) stamp: u64,
}

impl<'a> Model for OwnMarks<'a> {
    ghost use Rattle.std.specs.Prelude.{List};
    ghost use Rattle.cx_eval_network.specs.declared.marks.NodeMark.{NodeMark};
    ghost use Rattle.cx_eval_network.specs.Stamps.{marks_at};

    ghost Value = { List NodeMark };

    ghost view = { λ m. marks_at m.stamp m.marks.now };
}

impl<'a> OwnMarks<'a> {
    /// The value of a node, where it is known.
    pub fn known(&self, number: usize) -> Option<&Seen>
        ensures none { IfNone result (known_at self.now number ≡ false) }
        ensures some { IfSome result (λ seen. slice_get self.now number ≡ Some (Known seen.now)) }
    {
        seen_with(self.marks, self.stamp, number)
    }
}

/// Whether the value of a node is known.
pub fn is_known(own: &OwnMarks<'_>, number: usize) -> bool
    ensures value { result ≡ known_at own.now number }
{
    own.known(number).is_some()
}

/// What a node is seen as, where it is known.
pub fn shown_at(own: &OwnMarks<'_>, number: usize) -> Seen
    ensures value { result ≡ shown (slice_get own.now number) }
{
    match own.known(number) {
        Some(seen) => *seen,
        None => Seen::Undefined,
    }
}

/// What is known of a node, or its number.
pub fn found_at(own: &OwnMarks<'_>, number: usize) -> Found
    ensures value { result ≡ by_mark number (slice_get own.now number) }
{
    match own.known(number) {
        Some(seen) => Found::Worth(*seen),
        None => Found::Waits(number),
    }
}

/// What is known of a node of a table, or the node.
pub fn node_found(marks: &MarkTable, node: usize) -> Found
    ensures value { result ≡ by_mark node (slice_get marks.now node) }
{
    match marks.known(node) {
        Some(seen) => Found::Worth(*seen),
        None => Found::Waits(node),
    }
}
