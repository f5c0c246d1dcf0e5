//! Where statements stand.

ghost use Rattle.std.specs.Prelude.{◌≡◌, ◌+◌, ◌∷◌, [], suc};
ghost use Rattle.cx_net.specs.PlainNets.{plain_net_expr};
ghost use Rattle.cx_wiring.specs.Control.{arm_stand, counted_inside};
ghost use Rattle.cx_wiring.specs.Stands as wired;
ghost use Rattle.cx_fsm.specs.Drafts.{Adds, IfWhole, Keeps};
ghost use Rattle.cx_fsm.specs.PlainStands.{acts_of, past, plain_stand};

use crate::drafts::Draft;
use crate::exprs::{both, equals, word};
use cx_net::{NetExpr, NetTarget};

/// What says that a region acts: the go of the component, or the wire of a `par` that says that control stands there.
#[derive(Clone, Copy)]
pub(crate) enum Acts {
    Go,
    Par(u32),
}

impl Acts {
    /// What says that the region acts.
    fn expr(self) -> NetExpr
        ensures value { plain_net_expr result ≡ acts_of self }
    {
        match self {
            Acts::Go => NetExpr::Go,
            Acts::Par(wire) => NetExpr::Wire(wire),
        }
    }
}

/// Where a statement stands: its first wire, its first register, its first position, the register of its region, and what
/// says that the region acts. Its first two wires say that control stands there, and that it is in its last turn.
#[derive(Clone, Copy)]
pub(crate) struct Stand {
    pub wire: u32,
    pub register: u32,
    pub position: u32,
    pub region: u32,
    pub acts: Acts,
}

impl Stand {
    /// So many wires, registers and positions further on in the region.
    pub fn past(self, draft: &mut Draft, wires: u32, registers: u32, positions: u32) -> Stand
        ensures kept { Keeps draft.old draft.new }
        ensures value { IfWhole draft.new (plain_stand result ≡ past (plain_stand self) wires registers positions) }
    {
        Stand {
            wire: draft.beyond(self.wire, wires),
            register: draft.beyond(self.register, registers),
            position: draft.beyond(self.position, positions),
            region: self.region,
            acts: self.acts,
        }
    }

    /// The first part of a statement, at the statement's own first position.
    pub fn inside(self, draft: &mut Draft) -> Stand
        ensures kept { Keeps draft.old draft.new }
        ensures value { IfWhole draft.new (plain_stand result ≡ wired.inside (plain_stand self)) }
    {
        self.past(draft, 2, 0, 0)
    }

    /// The first part of a statement with a test, which has a position before it.
    pub fn past_test(self, draft: &mut Draft) -> Stand
        ensures kept { Keeps draft.old draft.new }
        ensures value { IfWhole draft.new (plain_stand result ≡ wired.past_test (plain_stand self)) }
    {
        self.past(draft, 2, 0, 1)
    }

    /// The body of a `repeat`, whose register counts its rounds.
    pub fn counted_inside(self, draft: &mut Draft) -> Stand
        ensures kept { Keeps draft.old draft.new }
        ensures value { IfWhole draft.new (plain_stand result ≡ counted_inside (plain_stand self)) }
    {
        self.past(draft, 2, 1, 0)
    }

    /// An arm of a `par` with this first wire, and this register of its region.
    pub fn arm(self, draft: &mut Draft, wire: u32, region: u32) -> Stand
        ensures kept { Keeps draft.old draft.new }
        ensures value { IfWhole draft.new (plain_stand result ≡ arm_stand (plain_stand self) wire region) }
    {
        Stand {
            wire,
            register: draft.beyond(region, 1),
            position: 0,
            region,
            acts: Acts::Par(self.wire),
        }
    }

    /// Control stands at the first position of the statement.
    pub fn at(self) -> NetExpr
        ensures value { plain_net_expr result ≡ wired.at (plain_stand self) }
    {
        NetExpr::Wire(self.wire)
    }
}

/// The statement whose first wire this is is in its last turn.
pub(crate) fn end_of(draft: &mut Draft, wire: u32) -> NetExpr
    ensures kept { Keeps draft.old draft.new }
    ensures value { IfWhole draft.new (plain_net_expr result ≡ wired.end_of wire) }
{
    NetExpr::Wire(draft.beyond(wire, 1))
}

/// Control stands at the first position of a statement.
pub(crate) fn stands(draft: &mut Draft, stand: Stand)
    ensures driven { Adds draft.old draft.new (wired.stands (plain_stand stand) ∷ []) }
{
    let here = equals(draft, NetExpr::Register(stand.region), stand.position);
    let stands = both(draft, stand.acts.expr(), here);
    draft.connect(stand.wire, stands);
}

/// A statement is in its last turn.
pub(crate) fn ends(draft: &mut Draft, stand: Stand, when: NetExpr)
    ensures driven { Adds draft.old draft.new (wired.ends (plain_stand stand) (plain_net_expr when) ∷ []) }
{
    let wire = draft.beyond(stand.wire, 1);
    draft.connect(wire, when);
}

/// Control goes to a position of the region.
pub(crate) fn goes(draft: &mut Draft, stand: Stand, guard: NetExpr, position: u32)
    ensures driven { Adds draft.old draft.new (wired.goes (plain_stand stand) (plain_net_expr guard) position ∷ []) }
{
    draft.drive(NetTarget::Register(stand.region), guard, word(position));
}
