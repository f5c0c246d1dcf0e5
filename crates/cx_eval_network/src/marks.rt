//! What is known of the nodes of a network, and is forgotten at once.

ghost use Rattle.std.specs.Prelude.{◌≡◌, ℕ, IfNone, IfOk, IfSome, Some, drop, false, length, replicate, slice_get, slice_set};
ghost use Rattle.cx_eval_network.specs.Demands.{AllUnseen, known_at};
ghost use Rattle.cx_eval_network.specs.Stamps.{AreStamped, copied, followed, marks_at};
ghost use Rattle.cx_eval_network.specs.declared.marks.StampedMark as stamped;
ghost use Rattle.cx_eval_network.specs.declared.marks.NodeMark.TheVariants.{Unseen, Open, Known};

use crate::marked::OwnMarks;
use cx_meaning::Seen;
use cx_text::Memory;
use std::alloc::Global;
use std::marker::Model;

/// What is known of a node: nothing yet, that it waits for others, or its value. So contracts see the marks of a table.
#[derive(Clone, Copy, Debug, PartialEq, Eq)]
pub enum NodeMark {
    Unseen,
    Open,
    Known(Seen),
}

/// A mark as a table keeps it: its node is known as `seen` where the stamp is the one that counts, and waits where it is the one
/// before that. Of a node with an earlier stamp nothing is known.
#[derive(Clone, Copy, Debug, PartialEq, Eq)]
pub struct StampedMark {
    pub stamp: u64,
    pub seen: Seen,
}

/// The first stamp that counts: no mark of a new table has it, or the one before.
const FIRST: u64 = 2;

/// The last one.
const LAST: u64 = u64::MAX - 2;

/// Marks of the nodes of a network. Contracts see them as what is known of each node.
#[derive(Debug, Drop)]
pub struct MarkTable {
    marks: Vec<StampedMark>,
    /// The stamp that counts.
    stamp: u64,
}

impl Model for MarkTable {
    ghost use Rattle.std.specs.Prelude.{List};
    ghost use Rattle.cx_eval_network.specs.declared.marks.NodeMark.{NodeMark};
    ghost use Rattle.cx_eval_network.specs.Stamps.{AreStamped, marks_at};

    ghost Value = { List NodeMark };

    ghost view = { λ m. marks_at m.stamp m.marks.items };

    ghost invariant = { λ m. AreStamped m.stamp m.marks.items };
}

impl MarkTable {
    /// Marks of so many nodes, of which nothing is known.
    pub fn new(alloc: Global, count: usize) -> Result<MarkTable, Memory>
        ensures value { IfOk result (λ marks. marks ≡ replicate count Unseen) }
    {
        let mark = StampedMark {
            stamp: 0,
            seen: Seen::Undefined,
        };
        let marks = copies(alloc, mark, count)?;
        Ok(MarkTable {
            marks,
            stamp: FIRST,
        })
    }

    /// The value of a node, where it is known.
    pub fn known(&self, node: usize) -> Option<&Seen>
        ensures none { IfNone result (known_at self.now node ≡ false) }
        ensures some { IfSome result (λ seen. slice_get self.now node ≡ Some (Known seen.now)) }
    {
        seen_with(&self.marks, self.stamp, node)
    }

    /// Whether the value of a node is known.
    pub fn is_known(&self, node: usize) -> bool
        ensures value { result ≡ known_at self.now node }
    {
        self.known(node).is_some()
    }

    /// The marks from a node on.
    pub fn own_from(&self, first: usize) -> OwnMarks<'_>
        ensures value { result ≡ drop first self.now }
    {
        OwnMarks {
            marks: marks_behind(&self.marks, first),
            stamp: self.stamp,
        }
    }

    /// Lets a node wait.
    pub fn open(&mut self, node: usize)
        ensures marks { self.new ≡ slice_set self.old node Open }
    {
        let mark = StampedMark {
            stamp: self.stamp - 1,
            seen: Seen::Undefined,
        };
        put(&mut self.marks, node, mark);
    }

    /// Knows a node.
    #[inline(always)]
    pub fn know(&mut self, node: usize, seen: Seen)
        ensures marks { self.new ≡ slice_set self.old node (Known seen) }
    {
        let stamp = self.stamp;
        put(&mut self.marks, node, StampedMark { stamp, seen });
    }

    /// Knows a node as another one is, where that is known: the one of a number among those from a first one on.
    #[inline(always)]
    pub fn follow(&mut self, node: usize, first: usize, number: usize)
        ensures marks { self.new ≡ followed self.old node (slice_get (drop first self.old) number) }
    {
        copy_known(&mut self.marks, self.stamp, node, first, number);
    }

    /// Forgets all that is known, whatever that is.
    pub fn forget(&mut self)
        ensures unseen { AllUnseen self.new }
        ensures count { length self.new ≡ length self.old }
    {
        let stamp = later_stamp(&mut self.marks, self.stamp);
        self.stamp = stamp;
    }
}

/// Puts a mark at a node, where this is there.
#[inline(always)]
fn put(marks: &mut Vec<StampedMark>, node: usize, mark: StampedMark)
    ensures value { marks.new.items ≡ slice_set marks.old.items node mark }
{
    if node < marks.len() {
        marks[node] = mark;
    }
}

/// Puts the mark of another node at a node, where that has a stamp: the one of a number among those from a first one on.
#[inline(always)]
fn copy_known(marks: &mut Vec<StampedMark>, stamp: u64, node: usize, first: usize, number: usize)
    ensures value { marks.new.items ≡
        copied stamp marks.old.items node (slice_get (drop first marks.old.items) number) }
{
    if let Some(mark) = mark_behind(marks, first, number) {
        if mark.stamp == stamp {
            put(marks, node, mark);
        }
    }
}

/// The mark of a number among those from a node on, where it is there.
fn mark_behind(marks: &[StampedMark], first: usize, number: usize) -> Option<StampedMark>
    ensures value { result ≡ slice_get (drop first marks.now) number }
{
    marks_behind(marks, first).get(number).copied()
}

/// The marks from a node on.
fn marks_behind(marks: &[StampedMark], first: usize) -> &[StampedMark]
    ensures value { result.now ≡ drop first marks.now }
{
    if first < marks.len() {
        &marks[first..]
    } else {
        &[]
    }
}

/// What a node is seen as, where its mark has a stamp.
pub fn seen_with(marks: &[StampedMark], stamp: u64, node: usize) -> Option<&Seen>
    ensures none { IfNone result (known_at (marks_at stamp marks.now) node ≡ false) }
    ensures some { IfSome result (λ seen. slice_get (marks_at stamp marks.now) node ≡ Some (Known seen.now)) }
{
    match marks.get(node) {
        Some(mark) if mark.stamp == stamp => Some(&mark.seen),
        Some(_) | None => None,
    }
}

/// A stamp that counts for no mark. Where there is none behind one that counted, the marks lose theirs.
fn later_stamp(marks: &mut Vec<StampedMark>, stamp: u64) -> u64
    requires stamped { AreStamped stamp marks.old.items }
    ensures stamped { AreStamped result marks.new.items }
    ensures unseen { AllUnseen (marks_at result marks.new.items) }
    ensures count { length marks.new.items ≡ length marks.old.items }
{
    if stamp < LAST {
        stamp + 2
    } else {
        clear(marks);
        FIRST
    }
}

/// Takes the stamps off marks.
fn clear(marks: &mut Vec<StampedMark>)
    ensures count { length marks.new.items ≡ length marks.old.items }
    ensures cleared { (n : ℕ) (m : stamped.StampedMark) → slice_get marks.new.items n ≡ Some m → m.stamp ≡ 0 }
{
    for node in 0..marks.len() {
        marks[node].stamp = 0;
    }
}

/// So many copies of an item.
#[tactic(auto, using(std::proofs::lemmas::List::replicate_more))]
pub fn copies<T: Copy>(alloc: Global, item: T, count: usize) -> Result<Vec<T>, Memory>
    ensures value { IfOk result (λ all. all.items ≡ replicate count item) }
{
    let mut all = Vec::new(alloc);
    'copies: for _copy in 0..count {
        all.push(item)?;
    }
    Ok(all)
}
