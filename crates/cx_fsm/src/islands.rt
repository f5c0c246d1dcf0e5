//! Islands as timers, registers and wires. Each timer, each `static if` and each enable of an island has a wire: that the timer
//! runs, the sample, and that the group is active.

ghost use Rattle.std.specs.Prelude.{◌≡◌, ◌++◌, ◌∷◌, [], map, slice_get};
ghost use Rattle.cx_meaning.specs.declared.ports.PortRef.TheVariants as ports;
ghost use Rattle.cx_net.specs.Nets.{AllOf, OfPort, exprs_of};
ghost use Rattle.cx_net.specs.PlainNets.{plain_net_expr};
ghost use Rattle.cx_static.specs.PlainLowered.{plain_occurrence, plain_point};
ghost use Rattle.cx_wiring.specs.Control as control;
ghost use Rattle.cx_wiring.specs.IslandDrivers as wired;
ghost use Rattle.cx_fsm.specs.ControlPieces.{samples_of};
ghost use Rattle.cx_fsm.specs.Drafts.{Adds, IfWhole, Keeps};
ghost use Rattle.cx_fsm.specs.Places.{at_place};
ghost use Rattle.cx_fsm.specs.PlainStands.{HasFirsts, islands_of, plain_stand};

use crate::drafts::Draft;
use crate::exprs::{all_of, bit, both, compare, equals, inverse, sum, word};
use crate::plans::Plan;
use crate::stands::{Stand, ends};
use cx_design::{Comparison, PortRef};
use cx_net::{NetExpr, NetTarget};
use cx_static::{Island, IslandTimer, Occurrence, Sample, SamplePoint};

/// An island of a component of so many groups, where its statement stands, and the first of its wires.
#[derive(Clone, Copy)]
pub(crate) struct Place<'a> {
    pub groups: u32,
    pub stand: Stand,
    pub first: u32,
    pub island: &'a Island,
}

impl Place<'_> {
    /// A port of a timer.
    fn timer_port(&self, timer: u32, port: u32) -> NetExpr
        ensures value { plain_net_expr result ≡ OfPort (ports.Cell (at_place wired.timer_cell self.now timer) port) }
    {
        NetExpr::Port(PortRef::Cell(self.timer_cell(timer), port))
    }

    /// The cell of a timer.
    fn timer_cell(&self, timer: u32) -> u32
        ensures value { result ≡ at_place wired.timer_cell self.now timer }
    {
        match self.island.timers.as_slice().get(timer as usize) {
            Some(timer) => timer.cell,
            None => 0,
        }
    }

    /// A timer runs.
    fn runs(&self, draft: &mut Draft, timer: u32) -> NetExpr
        ensures kept { Keeps draft.old draft.new }
        ensures value { IfWhole draft.new (plain_net_expr result ≡ at_place wired.runs self.now timer) }
    {
        NetExpr::Wire(draft.beyond(self.first, timer))
    }

    /// The wire of a sample.
    fn sample_wire(&self, draft: &mut Draft, point: u32) -> u32
        ensures kept { Keeps draft.old draft.new }
        ensures value { IfWhole draft.new (result ≡ at_place wired.sample_wire self.now point) }
    {
        let timers = draft.number_of(self.island.timers.len());
        let behind = draft.beyond(self.first, timers);
        draft.beyond(behind, point)
    }

    /// The wire that says that an occurrence is active.
    fn active_wire(&self, draft: &mut Draft, occurrence: u32) -> u32
        ensures kept { Keeps draft.old draft.new }
        ensures value { IfWhole draft.new (result ≡ at_place wired.active_wire self.now occurrence) }
    {
        let points = draft.number_of(self.island.points.len());
        let behind = self.sample_wire(draft, points);
        draft.beyond(behind, occurrence)
    }
}

/// All of an island, whose statement stands somewhere. Answers how many registers it has.
pub(crate) fn timed_drivers(draft: &mut Draft, plan: &Plan<'_>, stand: Stand, number: u32) -> u32
    requires { HasFirsts plan.now }
    ensures samples { IfWhole draft.new (result ≡ samples_of (islands_of plan.now) number) }
    ensures driven { Adds draft.old draft.new
        (control.timed_drivers plan.now.groups (islands_of plan.now) (plain_stand stand) number
        (slice_get (islands_of plan.now) number)) }
{
    let Some(island) = plan.islands.get(number as usize) else {
        return 0;
    };
    let place = Place {
        groups: plan.groups,
        stand,
        first: plan.first_of(number),
        island,
    };
    island_drivers(draft, &place);
    draft.number_of(island.points.len())
}

/// An island. It ends where its first timer is done.
fn island_drivers(draft: &mut Draft, place: &Place<'_>)
    ensures driven { Adds draft.old draft.new (at_place wired.island_drivers place.now) }
{
    let end = both(draft, place.stand.at(), place.timer_port(0, 2));
    ends(draft, place.stand, end);
    timers(draft, place);
    points(draft, place);
    occurrences(draft, place);
}

/// The timers of an island.
fn timers(draft: &mut Draft, place: &Place<'_>)
    ensures driven { Adds draft.old draft.new
        (at_place wired.timer_drivers place.now 0 place.now.island.now.timers.items) }
{
    for (number, timer) in place.island.timers.as_slice().iter().enumerate() {
        timer_drivers(draft, place, number, timer);
    }
}

/// The `static if`s of an island.
fn points(draft: &mut Draft, place: &Place<'_>)
    ensures driven { Adds draft.old draft.new
        (at_place wired.point_drivers place.now 0 (map plain_point place.now.island.now.points.items)) }
{
    for (number, point) in place.island.points.as_slice().iter().enumerate() {
        point_drivers(draft, place, number, point);
    }
}

/// The enables of an island.
fn occurrences(draft: &mut Draft, place: &Place<'_>)
    ensures driven { Adds draft.old draft.new
        (at_place wired.occurrence_drivers place.now 0
        (map plain_occurrence place.now.island.now.occurrences.items)) }
{
    for (number, occurrence) in place.island.occurrences.as_slice().iter().enumerate() {
        occurrence_drivers(draft, place, number, occurrence);
    }
}

/// Whether a timer runs and has a count from the first to before the second, as parts of a conjunction.
fn in_range(draft: &mut Draft, place: &Place<'_>, timer: u32, from: u64, to: u64) -> Vec<NetExpr>
    ensures kept { Keeps draft.old draft.new }
    ensures value { IfWhole draft.new
        (map plain_net_expr result.items ≡ at_place wired.in_range place.now timer from to) }
{
    let mut parts = Vec::new(draft.alloc);
    let runs = place.runs(draft, timer);
    draft.push(&mut parts, runs);
    let from = word(draft.cycles(from));
    let begun = compare(draft, Comparison::AtLeast, place.timer_port(timer, 1), from);
    draft.push(&mut parts, begun);
    let to = word(draft.cycles(to));
    let goes_on = compare(draft, Comparison::Less, place.timer_port(timer, 1), to);
    draft.push(&mut parts, goes_on);
    parts
}

/// The first timer runs while control is at the island and it is not done, another one in its range of the timer around it.
fn timer_runs(draft: &mut Draft, place: &Place<'_>, timer: &IslandTimer) -> NetExpr
    ensures kept { Keeps draft.old draft.new }
    ensures value { IfWhole draft.new (plain_net_expr result ≡
        at_place wired.timer_runs place.now timer.now.cell timer.now.outer timer.now.from timer.now.to) }
{
    match timer.outer {
        None => {
            let goes_on = inverse(draft, NetExpr::Port(PortRef::Cell(timer.cell, 2)));
            both(draft, place.stand.at(), goes_on)
        }
        Some(outer) => all_of(in_range(draft, place, outer, timer.from, timer.to)),
    }
}

/// A timer.
fn timer_drivers(draft: &mut Draft, place: &Place<'_>, number: usize, timer: &IslandTimer)
    ensures driven { Adds draft.old draft.new (at_place wired.timer_drivers place.now number (timer.now ∷ [])) }
{
    let at = draft.number_of(number);
    let wire = draft.beyond(place.first, at);
    let runs = timer_runs(draft, place, timer);
    draft.connect(wire, runs);
    let go = NetTarget::Port(PortRef::Cell(timer.cell, 0));
    draft.drive(go, NetExpr::Wire(wire), bit(true));
}

/// A `static if` begins, and those around it go to it.
fn begins(draft: &mut Draft, place: &Place<'_>, point: &SamplePoint) -> NetExpr
    ensures kept { Keeps draft.old draft.new }
    ensures value { IfWhole draft.new
        (plain_net_expr result ≡ at_place wired.begins place.now (plain_point point.now)) }
{
    let mut parts = Vec::new(draft.alloc);
    let runs = place.runs(draft, point.timer);
    draft.push(&mut parts, runs);
    let at = draft.cycles(point.at);
    let there = equals(draft, place.timer_port(point.timer, 1), at);
    draft.push(&mut parts, there);
    where_wanted(draft, place, parts, point.samples.as_slice())
}

/// The last active cycle of an island.
fn in_last_cycle(draft: &mut Draft, place: &Place<'_>) -> NetExpr
    ensures kept { Keeps draft.old draft.new }
    ensures value { IfWhole draft.new (plain_net_expr result ≡ at_place wired.in_last_cycle place.now) }
{
    let last = draft.cycles(place.island.length.saturating_sub(1));
    let there = equals(draft, place.timer_port(0, 1), last);
    both(draft, place.stand.at(), there)
}

/// A `static if`: its sample is its port where it begins, and then what the register has kept of it. The register forgets it in
/// the last active cycle of the island.
fn point_drivers(draft: &mut Draft, place: &Place<'_>, number: usize, point: &SamplePoint)
    ensures driven { Adds draft.old draft.new
        (at_place wired.point_drivers place.now number (plain_point point.now ∷ [])) }
{
    let at = draft.number_of(number);
    let sample = place.sample_wire(draft, at);
    let kept = draft.beyond(place.stand.register, at);
    let now = begins(draft, place, point);
    draft.drive(NetTarget::Wire(sample), now, NetExpr::Port(point.port));
    draft.connect(sample, NetExpr::Register(kept));
    let over = in_last_cycle(draft, place);
    draft.drive(NetTarget::Register(kept), over, bit(false));
    let now = begins(draft, place, point);
    draft.drive(NetTarget::Register(kept), now, NetExpr::Port(point.port));
}

/// A sample as it is wanted.
fn as_wanted(draft: &mut Draft, place: &Place<'_>, sample: Sample) -> NetExpr
    ensures kept { Keeps draft.old draft.new }
    ensures value { IfWhole draft.new (plain_net_expr result ≡ at_place wired.as_wanted place.now sample) }
{
    let wire = place.sample_wire(draft, sample.point);
    if sample.wanted {
        NetExpr::Wire(wire)
    } else {
        inverse(draft, NetExpr::Wire(wire))
    }
}

/// These parts, where the samples are as wanted.
fn where_wanted(
    draft: &mut Draft,
    place: &Place<'_>,
    mut parts: Vec<NetExpr>,
    samples: &[Sample],
) -> NetExpr
    ensures kept { Keeps draft.old draft.new }
    ensures value { IfWhole draft.new (plain_net_expr result ≡
        AllOf
        (exprs_of (map plain_net_expr parts.items ++ map (at_place wired.as_wanted place.now) samples.now))) }
{
    for sample in samples {
        let wanted = as_wanted(draft, place, *sample);
        draft.push(&mut parts, wanted);
    }
    all_of(parts)
}

/// A group is active in the range of its timer where the samples are as wanted.
fn is_active(draft: &mut Draft, place: &Place<'_>, occurrence: &Occurrence) -> NetExpr
    ensures kept { Keeps draft.old draft.new }
    ensures value { IfWhole draft.new
        (plain_net_expr result ≡ at_place wired.is_active place.now (plain_occurrence occurrence.now)) }
{
    let parts = in_range(
        draft,
        place,
        occurrence.timer,
        occurrence.from,
        occurrence.to,
    );
    where_wanted(draft, place, parts, occurrence.samples.as_slice())
}

/// The offset of a group, which is counted from the begin of its range.
fn offset_from(draft: &mut Draft, place: &Place<'_>, occurrence: &Occurrence) -> NetExpr
    ensures kept { Keeps draft.old draft.new }
    ensures value { IfWhole draft.new
        (plain_net_expr result ≡ at_place wired.offset_from place.now (plain_occurrence occurrence.now)) }
{
    let back = word(draft.cycles(occurrence.from).wrapping_neg());
    sum(draft, place.timer_port(occurrence.timer, 1), back)
}

/// An enable.
fn occurrence_drivers(draft: &mut Draft, place: &Place<'_>, number: usize, occurrence: &Occurrence)
    ensures driven { Adds draft.old draft.new
        (at_place wired.occurrence_drivers place.now number (plain_occurrence occurrence.now ∷ [])) }
{
    let at = draft.number_of(number);
    let wire = place.active_wire(draft, at);
    let active = is_active(draft, place, occurrence);
    draft.connect(wire, active);
    let go = draft.beyond(place.groups, occurrence.group);
    draft.drive(NetTarget::Hole(go), NetExpr::Wire(wire), bit(true));
    let offset = offset_from(draft, place, occurrence);
    draft.drive(
        NetTarget::Wire(occurrence.group),
        NetExpr::Wire(wire),
        offset,
    );
}
