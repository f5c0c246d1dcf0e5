//! Control as registers and wires. Each statement has a wire that says that control stands there, and one that says that it is
//! in its last turn. A region of control, which is that of the component or an arm of a `par`, has a register with the number
//! of a position.

ghost use Rattle.std.specs.Prelude.{◌≡◌, ◌+◌, ◌++◌, ◌∷◌, [], suc};
ghost use Rattle.cx_design.specs.PlainForms.{plain_statement, plain_statements};
ghost use Rattle.cx_meaning.specs.Designs as plain;
ghost use Rattle.cx_net.specs.PlainNets.{plain_net_expr};
ghost use Rattle.cx_wiring.specs.Control as wired;
ghost use Rattle.cx_wiring.specs.Counts.{wires_of};
ghost use Rattle.cx_wiring.specs.Parts as parts;
ghost use Rattle.cx_wiring.specs.Stands.{behind};
ghost use Rattle.cx_wiring.specs.Stands as standing;
ghost use Rattle.cx_fsm.specs.Drafts.{Adds, IfWhole, Keeps};
ghost use Rattle.cx_fsm.specs.PlainStands.{HasFirsts, islands_of, past, plain_stand};
ghost use Rattle.cx_fsm.specs.ControlPieces.{arm_ended, arm_made, behind_form, counted_rounds, finished, led, samples_of};

use crate::drafts::Draft;
use crate::exprs::{all_of, bit, both, compare, either, equals, inverse, sum, word};
use crate::islands::timed_drivers;
use crate::plans::Plan;
use crate::stands::{Acts, Stand, end_of, ends, goes, stands};
use cx_design::{Comparison, Form, PlacedPort, PortRef, Statement};
use cx_net::{NetExpr, NetTarget};

/// The control of a component, whose region has register 0. The last position, which is behind all others, says that it is
/// done, and is left at once. Answers the first wire behind those of control.
pub(crate) fn control_drivers(draft: &mut Draft, plan: &Plan<'_>, control: &Statement) -> u32
    requires { HasFirsts plan.now }
    ensures behind { IfWhole draft.new (result ≡ plan.now.control + wires_of (plain_statement control.now)) }
    ensures driven { Adds draft.old draft.new
        (wired.control_drivers plan.now.groups (islands_of plan.now) plan.now.control
        (plain_statement control.now)) }
{
    let whole = Stand {
        wire: plan.control,
        register: 1,
        position: 0,
        region: 0,
        acts: Acts::Go,
    };
    let behind = statement_drivers(draft, plan, whole, control);
    finishing(draft, whole.wire, behind.position);
    behind.wire
}

/// Control with this first wire and so many positions is done.
fn finishing(draft: &mut Draft, wire: u32, positions: u32)
    ensures driven { Adds draft.old draft.new (finished wire positions) }
{
    let region = NetTarget::Register(0);
    let end = end_of(draft, wire);
    draft.drive(region, end, word(positions));
    let left = equals(draft, NetExpr::Register(0), positions);
    draft.drive(region, left, word(0));
    let done = equals(draft, NetExpr::Register(0), positions);
    draft.drive(NetTarget::Done, bit(true), done);
}

/// A statement, and all in it. Answers where what follows it stands.
#[cycle(control)]
fn statement_drivers(
    draft: &mut Draft,
    plan: &Plan<'_>,
    stand: Stand,
    statement: &Statement,
) -> Stand
    requires { HasFirsts plan.now }
    ensures behind { IfWhole draft.new (plain_stand result ≡
        behind (islands_of plan.now) (plain_statement statement.now) (plain_stand stand)) }
    ensures driven { Adds draft.old draft.new
        (wired.drivers_of plan.now.groups (islands_of plan.now) (plain_stand stand)
        (plain_statement statement.now)) }
{
    match &statement.form {
        Form::Empty
        | Form::StaticSeq { .. }
        | Form::StaticPar { .. }
        | Form::StaticIf { .. }
        | Form::StaticRepeat { .. } => one_turn(draft, stand),
        Form::Enable(group) => enable(draft, plan, stand, *group),
        Form::Seq(parts) => seq(draft, plan, stand, parts.as_slice()),
        Form::Par(arms) => par(draft, plan, stand, arms.as_slice()),
        Form::If {
            test,
            comb,
            yes,
            no,
        } => {
            let first = stand.past_test(draft);
            test_turn(draft, plan, stand, *comb);
            goes_at_one(draft, stand, test.port, first.position);
            let second = statement_drivers(draft, plan, first, yes);
            goes_at_zero(draft, stand, test.port, second.position);
            let next = statement_drivers(draft, plan, second, no);
            branches_end(draft, stand, first.wire, second.wire);
            next
        }
        Form::While { test, comb, body } => rounds(draft, plan, stand, *test, *comb, body),
        Form::Repeat { count, body } => counted(draft, plan, stand, *count, body),
        Form::StaticInvoke(island) | Form::Timed(island) => timed(draft, plan, stand, *island),
    }
}

/// A statement of one idle turn.
fn one_turn(draft: &mut Draft, stand: Stand) -> Stand
    ensures behind { IfWhole draft.new (plain_stand result ≡ past (plain_stand stand) 2 0 1) }
    ensures driven { Adds draft.old draft.new (wired.one_turn (plain_stand stand)) }
{
    stands(draft, stand);
    ends(draft, stand, stand.at());
    stand.past(draft, 2, 0, 1)
}

/// An enable: the group goes until its hole says that it is done.
fn enable(draft: &mut Draft, plan: &Plan<'_>, stand: Stand, group: u32) -> Stand
    ensures behind { IfWhole draft.new (plain_stand result ≡ past (plain_stand stand) 2 0 1) }
    ensures driven { Adds draft.old draft.new
        (wired.enabled plan.now.groups (islands_of plan.now) (plain_stand stand) group) }
{
    stands(draft, stand);
    let end = both(draft, stand.at(), NetExpr::Hole(group));
    ends(draft, stand, end);
    let ended = end_of(draft, stand.wire);
    let goes_on = inverse(draft, ended);
    let go = draft.beyond(plan.groups, group);
    draft.drive(NetTarget::Hole(go), stand.at(), goes_on);
    stand.past(draft, 2, 0, 1)
}

/// An island at its position.
fn timed(draft: &mut Draft, plan: &Plan<'_>, stand: Stand, island: u32) -> Stand
    requires { HasFirsts plan.now }
    ensures behind { IfWhole draft.new
        (plain_stand result ≡ past (plain_stand stand) 2 (samples_of (islands_of plan.now) island) 1) }
    ensures driven { Adds draft.old draft.new
        (wired.form_drivers plan.now.groups (islands_of plan.now) (plain_stand stand) (plain.Timed island)) }
{
    stands(draft, stand);
    let samples = timed_drivers(draft, plan, stand, island);
    stand.past(draft, 2, samples, 1)
}

/// A `seq`: at the end of a part control goes to the next one. One without parts is one idle turn.
#[cycle(control)]
fn seq(draft: &mut Draft, plan: &Plan<'_>, stand: Stand, parts: &[Statement]) -> Stand
    requires { HasFirsts plan.now }
    ensures behind { IfWhole draft.new (plain_stand result ≡
        behind_form (islands_of plan.now) (plain.Seq (plain_statements parts.now)) (plain_stand stand)) }
    ensures driven { Adds draft.old draft.new
        (wired.form_drivers plan.now.groups (islands_of plan.now) (plain_stand stand)
        (plain.Seq (plain_statements parts.now))) }
{
    let mut next = stand.inside(draft);
    let mut last = None;
    for part in parts {
        leads(draft, next, last);
        last = Some(next.wire);
        next = statement_drivers(draft, plan, next, part);
    }
    match last {
        None => one_turn(draft, stand),
        Some(wire) => {
            let end = end_of(draft, wire);
            ends(draft, stand, end);
            next
        }
    }
}

/// The end of the part before, where there is one, leads to the next part of a `seq`.
fn leads(draft: &mut Draft, next: Stand, last: Option<u32>)
    ensures driven { Adds draft.old draft.new (led (plain_stand next) last) }
{
    if let Some(wire) = last {
        let end = end_of(draft, wire);
        goes(draft, next, end, next.position);
    }
}

/// A `par`: it ends in the turn in which each arm has ended or ends.
#[cycle(control)]
fn par(draft: &mut Draft, plan: &Plan<'_>, stand: Stand, arms: &[Statement]) -> Stand
    requires { HasFirsts plan.now }
    ensures behind { IfWhole draft.new (plain_stand result ≡
        behind_form (islands_of plan.now) (plain.Par (plain_statements arms.now)) (plain_stand stand)) }
    ensures driven { Adds draft.old draft.new
        (wired.form_drivers plan.now.groups (islands_of plan.now) (plain_stand stand)
        (plain.Par (plain_statements arms.now))) }
{
    stands(draft, stand);
    let mut over = Vec::new(draft.alloc);
    draft.push(&mut over, stand.at());
    let mut next = stand.past(draft, 2, 0, 1);
    for statement in arms {
        let own = stand.arm(draft, next.wire, next.register);
        let behind = arm(draft, plan, stand, own, statement);
        let ended = arm_over(draft, own, behind.position);
        draft.push(&mut over, ended);
        next = Stand {
            wire: behind.wire,
            register: behind.register,
            ..next
        };
    }
    ends(draft, stand, all_of(over));
    next
}

/// An arm, with the register of its region. The position behind all others says that it has ended; the end of the `par` leads
/// from there to the first one.
#[cycle(control)]
fn arm(draft: &mut Draft, plan: &Plan<'_>, par: Stand, own: Stand, statement: &Statement) -> Stand
    requires { HasFirsts plan.now }
    ensures behind { IfWhole draft.new (plain_stand result ≡
        behind (islands_of plan.now) (plain_statement statement.now) (plain_stand own)) }
    ensures driven { Adds draft.old draft.new
        (arm_made plan.now.groups (islands_of plan.now) (plain_stand par) (plain_stand own)
        (plain_statement statement.now)) }
{
    let region = NetTarget::Register(own.region);
    let joined = end_of(draft, par.wire);
    draft.drive(region, joined, word(0));
    let behind = statement_drivers(draft, plan, own, statement);
    let end = end_of(draft, own.wire);
    draft.drive(region, end, word(behind.position));
    behind
}

/// What says that an arm of so many positions has ended or ends.
fn arm_over(draft: &mut Draft, own: Stand, positions: u32) -> NetExpr
    ensures kept { Keeps draft.old draft.new }
    ensures value { IfWhole draft.new (plain_net_expr result ≡ arm_ended (plain_stand own) positions) }
{
    let ended = equals(draft, NetExpr::Register(own.region), positions);
    let ends = end_of(draft, own.wire);
    either(draft, ended, ends)
}

/// The turn of a test, in which its comb group goes.
fn test_turn(draft: &mut Draft, plan: &Plan<'_>, stand: Stand, comb: Option<u32>)
    ensures driven { Adds draft.old draft.new
        (standing.stands (plain_stand stand) ∷
        wired.comb_goes plan.now.groups (islands_of plan.now) (plain_stand stand) comb) }
{
    stands(draft, stand);
    if let Some(group) = comb {
        let go = draft.beyond(plan.groups, group);
        draft.drive(NetTarget::Hole(go), stand.at(), bit(true));
    }
}

/// Control goes to a position at a test whose port is 1.
fn goes_at_one(draft: &mut Draft, stand: Stand, port: PortRef, position: u32)
    ensures driven { Adds draft.old draft.new
        (standing.goes (plain_stand stand) (wired.found_one (plain_stand stand) port) position ∷ []) }
{
    let found = both(draft, stand.at(), NetExpr::Port(port));
    goes(draft, stand, found, position);
}

/// Control goes to a position at a test whose port is 0.
fn goes_at_zero(draft: &mut Draft, stand: Stand, port: PortRef, position: u32)
    ensures driven { Adds draft.old draft.new
        (standing.goes (plain_stand stand) (wired.found_zero (plain_stand stand) port) position ∷ []) }
{
    let found = found_zero(draft, stand, port);
    goes(draft, stand, found, position);
}

/// Control stands at a test whose port is 0.
fn found_zero(draft: &mut Draft, stand: Stand, port: PortRef) -> NetExpr
    ensures kept { Keeps draft.old draft.new }
    ensures value { IfWhole draft.new (plain_net_expr result ≡ wired.found_zero (plain_stand stand) port) }
{
    let zero = inverse(draft, NetExpr::Port(port));
    both(draft, stand.at(), zero)
}

/// An `if` ends with one of its branches, which have these first wires.
fn branches_end(draft: &mut Draft, stand: Stand, one: u32, other: u32)
    ensures driven { Adds draft.old draft.new
        (standing.ends (plain_stand stand) (parts.either (standing.end_of one) (standing.end_of other)) ∷ []) }
{
    let one = end_of(draft, one);
    let other = end_of(draft, other);
    let end = either(draft, one, other);
    ends(draft, stand, end);
}

/// A `while`. It ends at a test that is 0.
#[cycle(control)]
fn rounds(
    draft: &mut Draft,
    plan: &Plan<'_>,
    stand: Stand,
    test: PlacedPort,
    comb: Option<u32>,
    body: &Statement,
) -> Stand
    requires { HasFirsts plan.now }
    ensures behind { IfWhole draft.new (plain_stand result ≡
        behind_form (islands_of plan.now) (plain.While test comb (plain_statement body.now))
        (plain_stand stand)) }
    ensures driven { Adds draft.old draft.new
        (wired.form_drivers plan.now.groups (islands_of plan.now) (plain_stand stand)
        (plain.While test comb (plain_statement body.now))) }
{
    let first = stand.past_test(draft);
    test_turn(draft, plan, stand, comb);
    let zero = found_zero(draft, stand, test.port);
    ends(draft, stand, zero);
    goes_at_one(draft, stand, test.port, first.position);
    let next = statement_drivers(draft, plan, first, body);
    let over = end_of(draft, first.wire);
    goes(draft, stand, over, stand.position);
    next
}

/// A `repeat`. A register counts the rounds that are over. One of no round is one idle turn.
#[cycle(control)]
fn counted(draft: &mut Draft, plan: &Plan<'_>, stand: Stand, count: u64, body: &Statement) -> Stand
    requires { HasFirsts plan.now }
    ensures behind { IfWhole draft.new (plain_stand result ≡
        behind_form (islands_of plan.now) (plain.Repeat count (plain_statement body.now)) (plain_stand stand)) }
    ensures driven { Adds draft.old draft.new
        (wired.form_drivers plan.now.groups (islands_of plan.now) (plain_stand stand)
        (plain.Repeat count (plain_statement body.now))) }
{
    let Some(last) = count.checked_sub(1) else {
        return one_turn(draft, stand);
    };
    let first = stand.counted_inside(draft);
    let next = statement_drivers(draft, plan, first, body);
    let last = draft.cycles(last);
    counting(draft, stand, first.wire, last);
    next
}

/// The rounds of a `repeat` whose body has this first wire are counted, up to the last one.
fn counting(draft: &mut Draft, stand: Stand, body: u32, last: u32)
    ensures driven { Adds draft.old draft.new (counted_rounds (plain_stand stand) body last) }
{
    let counter = NetTarget::Register(stand.register);
    let end = end_of(draft, body);
    let over = equals(draft, NetExpr::Register(stand.register), last);
    let ended = both(draft, end, over);
    ends(draft, stand, ended);
    let end = end_of(draft, body);
    let more = compare(
        draft,
        Comparison::NotEqual,
        NetExpr::Register(stand.register),
        word(last),
    );
    let again = both(draft, end, more);
    goes(draft, stand, again, stand.position);
    let end = end_of(draft, stand.wire);
    draft.drive(counter, end, word(0));
    let end = end_of(draft, body);
    let counts = sum(draft, NetExpr::Register(stand.register), word(1));
    draft.drive(counter, end, counts);
}
