//! Trees of drivers. At most 16 drivers of one target stand together. Where there are more, each 16 of them are a bundle, which drives
//! the target by two wires: whether one of its drivers is on, and what the first that is on gives.

ghost use Rattle.std.specs.Prelude.{◌≡◌, ◌++◌, ◌∷◌, ◌↔◌, [], suc, ℕ, List, length, IfOk, IsTrue};
ghost use Rattle.cx_net.specs.Nets.{OfWire, PlainNetDriver, PlainNetTarget, ToWire};
ghost use Rattle.cx_net.specs.PlainNets.{plain_net_driver, plain_net_drivers, plain_net_target};
ghost use Rattle.cx_wiring.specs.Parts as parts;
ghost use Rattle.cx_wiring.specs.Trees as wired;
ghost use Rattle.cx_wiring.specs.Trees.{together};
ghost use Rattle.cx_fsm.specs.Drafts.{Adds, IfWhole, IsWhole};
ghost use Rattle.cx_fsm.specs.KnownWidths.{KnowsWidths, width_in};
ghost use Rattle.cx_fsm.specs.Leaves.{Grows, all_drivers, all_widths, plain_rank};

use crate::drafts::Draft;
use crate::exprs::{bit, copied};
use crate::widths::Widths;
use cx_design::PortRef;
use cx_net::{NetDriver, NetExpr, NetTarget};
use cx_text::Memory;
use std::alloc::Global;

/// How many drivers of a target stand together.
const TOGETHER: usize = 16;

/// Trees as far as they are made: their drivers, the widths of their wires, and the next wire.
#[derive(Drop)]
pub(crate) struct Trees {
    pub draft: Draft,
    pub widths: Vec<u8>,
    pub next: u32,
}

/// The drivers of a target, whose tree is to be made.
#[derive(Drop)]
pub(crate) struct Leaves {
    pub target: NetTarget,
    pub drivers: Vec<NetDriver>,
}

impl Trees {
    /// No tree yet, and the first wire that is free.
    pub fn new(alloc: Global, first: u32) -> Trees
        ensures drivers { result.draft.drivers.items ≡ [] }
        ensures widths { result.widths.items ≡ [] }
        ensures next { result.next ≡ first }
    {
        Trees {
            draft: Draft::new(alloc),
            widths: Vec::new(alloc),
            next: first,
        }
    }

    /// One more wire of this width.
    fn wire(&mut self, width: u8) -> u32
        ensures value { result ≡ self.old.next }
        ensures grows { Grows self.old self.new [] (width ∷ []) (suc self.old.next) }
    {
        let wire = self.next;
        self.next = self.draft.beyond(wire, 1);
        self.draft.push(&mut self.widths, width);
        wire
    }
}

/// Adds drivers, which stand by their targets, those of each target as a tree.
pub(crate) fn add_trees(trees: &mut Trees, widths: &Widths<'_>, drivers: Vec<NetDriver>)
    requires { KnowsWidths widths.now }
    ensures drivers { IfWhole trees.new.draft
        (plain_net_drivers trees.new.draft.drivers.items ≡
        plain_net_drivers trees.old.draft.drivers.items
        ++ wired.trees trees.old.next (wired.driven (plain_net_drivers drivers.items))) }
    ensures widths { IfWhole trees.new.draft
        (trees.new.widths.items ≡ trees.old.widths.items
        ++ wired.tree_widths (width_in widths.now) (wired.driven (plain_net_drivers drivers.items))) }
{
    let mut leaves = Leaves {
        target: NetTarget::Done,
        drivers: Vec::new(trees.draft.alloc),
    };
    for driver in drivers {
        leaves = leaves_of(trees, widths, leaves, driver.target);
        leaves = with_leaf(trees, leaves, driver);
    }
    add_tree(trees, widths, leaves);
}

/// Drivers by their targets, those of one target as they stood.
pub(crate) fn by_target(drivers: Vec<NetDriver>) -> Result<Vec<NetDriver>, Memory>
    ensures value { IfOk result
        (λ list. plain_net_drivers list.items ≡ wired.by_target (plain_net_drivers drivers.items)) }
{
    let mut list = drivers;
    list.sort_by_key(|driver| rank_of(driver.target))?;
    Ok(list)
}

/// The leaves with which a driver of a target stands: those at hand, or, where they are of another target, whose tree is made, new ones.
fn leaves_of(trees: &mut Trees, widths: &Widths<'_>, leaves: Leaves, target: NetTarget) -> Leaves
    requires { KnowsWidths widths.now }
    ensures target { result.target ≡ target }
    ensures whole { IfWhole trees.new.draft (IsWhole trees.old.draft) }
    ensures drivers { IfWhole trees.new.draft
        ((d : PlainNetDriver) (ds : List PlainNetDriver) → d.target ≡ plain_net_target target →
        all_drivers trees.new result (d ∷ ds) ≡ all_drivers trees.old leaves (d ∷ ds)) }
    ensures widths { IfWhole trees.new.draft
        ((d : PlainNetDriver) (ds : List PlainNetDriver) → d.target ≡ plain_net_target target →
        all_widths (width_in widths.now) trees.new result (d ∷ ds) ≡
        all_widths (width_in widths.now) trees.old leaves (d ∷ ds)) }
{
    if is_same(target, leaves.target) {
        return leaves;
    }
    add_tree(trees, widths, leaves);
    Leaves {
        target,
        drivers: Vec::new(trees.draft.alloc),
    }
}

/// Whether two targets are one.
fn is_same(one: NetTarget, other: NetTarget) -> bool
    ensures value { IsTrue result ↔ (one ≡ other) }
{
    one == other
}

/// One more driver of the target.
fn with_leaf(trees: &mut Trees, mut leaves: Leaves, driver: NetDriver) -> Leaves
    requires { driver.target ≡ leaves.target }
    ensures whole { IfWhole trees.new.draft (IsWhole trees.old.draft) }
    ensures drivers { IfWhole trees.new.draft
        ((ds : List PlainNetDriver) →
        all_drivers trees.new result ds ≡ all_drivers trees.old leaves (plain_net_driver driver ∷ ds)) }
    ensures widths { IfWhole trees.new.draft
        ((width : PlainNetTarget → ℕ) (ds : List PlainNetDriver) →
        all_widths width trees.new result ds ≡
        all_widths width trees.old leaves (plain_net_driver driver ∷ ds)) }
{
    trees.draft.push(&mut leaves.drivers, driver);
    leaves
}

/// The tree of a target.
fn add_tree(trees: &mut Trees, widths: &Widths<'_>, leaves: Leaves)
    requires { KnowsWidths widths.now }
    ensures grows { let ds = plain_net_drivers leaves.drivers.items in
        let pairs = wired.pairs (length ds) in let target = plain_net_target leaves.target in
        Grows trees.old trees.new (wired.tree target trees.old.next ds)
        (wired.pair_widths (width_in widths.now target) pairs) (wired.behind trees.old.next pairs) }
{
    let target = leaves.target;
    let width = widths.of(target);
    let mut level = leaves.drivers;
    while level.len() > TOGETHER {
        level = bundled(trees, width, target, level.as_slice());
        if !trees.draft.is_whole {
            return;
        }
    }
    move_all(&mut trees.draft, target, level.as_slice());
}

/// The bundles of some drivers, each as a driver of a target of this width.
fn bundled(trees: &mut Trees, width: u8, target: NetTarget, drivers: &[NetDriver]) -> Vec<NetDriver>
    ensures heads { IfWhole trees.new.draft
        (plain_net_drivers result.items ≡ wired.heads (plain_net_target target) trees.old.next
        (wired.bundles together (plain_net_drivers drivers.now))) }
    ensures grows { let bundles = wired.bundles together (plain_net_drivers drivers.now) in
        Grows trees.old trees.new (wired.bundle_drivers trees.old.next bundles)
        (wired.pair_widths width (length bundles)) (wired.behind trees.old.next (length bundles)) }
{
    let mut heads = Vec::new(trees.draft.alloc);
    for bundle in drivers.chunks(TOGETHER) {
        let head = head_of(trees, width, target, bundle);
        trees.draft.push(&mut heads, head);
    }
    heads
}

/// A bundle as a driver of a target of this width, by two wires more.
fn head_of(trees: &mut Trees, width: u8, target: NetTarget, bundle: &[NetDriver]) -> NetDriver
    ensures head { IfWhole trees.new.draft (plain_net_driver result ≡
        parts.drive (plain_net_target target) (OfWire trees.old.next) (OfWire (suc trees.old.next))) }
    ensures grows { Grows trees.old trees.new
        (wired.switches trees.old.next (plain_net_drivers bundle.now) ++
        wired.moved (ToWire (suc trees.old.next)) (plain_net_drivers bundle.now))
        (1 ∷ width ∷ []) (suc (suc trees.old.next)) }
{
    let on = trees.wire(1);
    let value = trees.wire(width);
    switch_all(&mut trees.draft, on, bundle);
    move_all(&mut trees.draft, NetTarget::Wire(value), bundle);
    NetDriver {
        target,
        guard: NetExpr::Wire(on),
        source: NetExpr::Wire(value),
    }
}

/// A wire that is 1 where one of some drivers is on.
fn switch_all(draft: &mut Draft, wire: u32, bundle: &[NetDriver])
    ensures driven { Adds draft.old draft.new (wired.switches wire (plain_net_drivers bundle.now)) }
{
    for driver in bundle {
        let guard = copied(draft, &driver.guard);
        draft.drive(NetTarget::Wire(wire), guard, bit(true));
    }
}

/// A target that some drivers drive.
fn move_all(draft: &mut Draft, target: NetTarget, bundle: &[NetDriver])
    ensures driven { Adds draft.old draft.new (wired.moved (plain_net_target target) (plain_net_drivers bundle.now)) }
{
    for driver in bundle {
        let guard = copied(draft, &driver.guard);
        let source = copied(draft, &driver.source);
        draft.drive(target, guard, source);
    }
}

/// The rank of a target in the order of targets.
fn rank_of(target: NetTarget) -> (u8, (u32, u32))
    ensures value { result ≡ plain_rank (plain_net_target target) }
{
    match target {
        NetTarget::Port(PortRef::Cell(cell, port)) => (0, (cell, port)),
        NetTarget::Port(PortRef::Output(port)) => (1, (port, 0)),
        NetTarget::Register(register) => (2, (register, 0)),
        NetTarget::Wire(wire) => (3, (wire, 0)),
        NetTarget::Hole(hole) => (4, (hole, 0)),
        NetTarget::Done => (5, (0, 0)),
        NetTarget::Port(_) => (6, (0, 0)),
    }
}
