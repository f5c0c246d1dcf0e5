//! What sources are seen as.

ghost use Rattle.std.specs.Prelude.{◌≡◌, get_or};
ghost use Rattle.cx_meaning.specs.declared.sights.Seen.TheVariants.{Undefined};
ghost use Rattle.cx_eval_network.specs.Askings.{IsAsking, asked_of};
ghost use Rattle.cx_eval.specs.Shown.{CanBeSeen, own_component, source_value};

use crate::sources::Source;
use cx_design::Seen;
use cx_eval_network::{Asking, state_seen};

/// What a source is seen as in the asked instance, by what the operators of its group are seen as. It takes no memory.
#[inline(always)]
pub fn source_seen(asking: &Asking<'_>, component: u32, slots: &[Seen], source: &Source) -> Seen
    requires can { IsAsking asking.now }
    requires component { component ≡ own_component (asked_of asking.now) }
    requires source { CanBeSeen (asked_of asking.now) source.now }
    ensures value { result ≡ source_value (asked_of asking.now) slots.now source.now }
{
    match source {
        Source::Fixed(seen) => *seen,
        Source::State { cell, port } => state_seen(
            asking,
            asking.instance,
            component,
            *cell,
            *port,
        ),
        Source::Slot(place) => slot_at(slots, *place),
    }
}

/// What an operator is seen as, by its place.
fn slot_at(slots: &[Seen], place: usize) -> Seen
    ensures value { result ≡ get_or slots.now place Undefined }
{
    match slots.get(place) {
        Some(seen) => *seen,
        None => Seen::Undefined,
    }
}
