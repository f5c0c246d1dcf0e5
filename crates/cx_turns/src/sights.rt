//! The state, and how the ports of its instances are seen.

ghost use Rattle.std.specs.Prelude.{◌≡◌, None};
ghost use Rattle.cx_meaning.specs.Islands.{fault_of, is_one};
ghost use Rattle.cx_meaning.specs.Truths as truths;
ghost use Rattle.cx_interp_islands.specs.Asked.{earlier_fault};
ghost use Rattle.cx_turns.specs.Sights.{CanAsk, sight_kept, sight_look, unclear_fault};

use cx_design::{Active, FaultKind, PortRef, Seen};
use cx_eval::Evaluator;
use cx_eval_drives::{Truth, truth_of};
use cx_interp_islands::Sampler;
use cx_state::State;

/// A port that is no value, and why.
#[derive(Clone, Copy, Debug, PartialEq, Eq)]
pub struct Unclear {
    pub kind: FaultKind,
    pub port: PortRef,
}

/// The state, and the evaluator of its design; while static ifs ask ports of an instance, also the first that is no value.
#[derive(Drop)]
pub struct Sight<'a> {
    pub evaluator: Evaluator<'a>,
    pub state: State,
    pub instance: usize,
    pub unclear: Option<Unclear>,
}

/// The fault of a port that is seen as no value.
fn unclear_port(port: PortRef, seen: &Seen) -> Option<Unclear>
    ensures { unclear_fault result ≡ fault_of port seen.now None }
{
    match seen {
        Seen::Value(_) => None,
        Seen::Conflict => Some(Unclear {
            kind: FaultKind::Conflict,
            port,
        }),
        Seen::Undefined => Some(Unclear {
            kind: FaultKind::Undefined,
            port,
        }),
    }
}

/// Keeps the first port that is no value.
fn note(unclear: &mut Option<Unclear>, port: PortRef, seen: &Seen)
    ensures { unclear_fault unclear.new ≡ earlier_fault (unclear_fault unclear.old) (fault_of port seen.now None) }
{
    if unclear.is_none() {
        *unclear = unclear_port(port, seen);
    }
}

/// Whether a port that is seen so says 1.
fn says_one(seen: Seen) -> bool
    ensures { result ≡ is_one (truths.truth_of seen) }
{
    match truth_of(seen) {
        Truth::One => true,
        Truth::Zero | Truth::Conflict | Truth::Undefined => false,
    }
}

impl Sampler for Sight<'_> {
    ghost look = { sight_look };

    ghost kept = { sight_kept };

    ghost answers = { CanAsk };

    ghost fault = { λ s. unclear_fault s.unclear };

    fn says(&mut self, port: PortRef) -> bool {
        let active = Active::Nothing;
        let seen = self
            .evaluator
            .seen(&self.state, self.instance, &active, port);
        note(&mut self.unclear, port, &seen);
        says_one(seen)
    }
}
