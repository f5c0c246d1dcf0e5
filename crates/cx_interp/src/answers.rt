//! How a run ends within its turns.

ghost use Rattle.std.specs.Prelude.{◌≡◌, ◌-◌, ◌^◌, List, ℕ};
ghost use Rattle.cx_meaning.specs.Designs.{PlainDesign};
ghost use Rattle.cx_state.specs.States.{PlainInstance, IsStateOf};
ghost use Rattle.cx_turns.specs.Groups.{Driving};
ghost use Rattle.cx_interp.specs.Doings.{idle_does};
ghost use Rattle.cx_interp.specs.Done as plain;
ghost use Rattle.cx_interp.specs.Done.{Done, IsWithin, later, limit_of};

use cx_design::PortFault;

/// Within its turns a run ends after so many, or meets a fault in one of them, counted from 0, or needs more.
#[derive(Clone, Copy, Debug, PartialEq, Eq)]
pub enum Answer {
    End(u64),
    Fault(PortFault, u64),
    More,
}

/// An idle turn.
pub(crate) fn idle_turn(budget: u64) -> Answer
    ensures { (d : PlainDesign) (rows : List PlainInstance) (n : ℕ) (driving : Driving) → IsStateOf d rows
        → Done d rows rows n driving idle_does budget result }
{
    if budget > 0 {
        Answer::End(1)
    } else {
        Answer::More
    }
}

/// The answer of a run that began so many turns later.
pub(crate) fn later(turns: u64, answer: Answer) -> Answer
    requires within { IsWithin (2 ^ 64 - 1 - turns) answer }
    ensures { result ≡ later turns answer }
{
    match answer {
        Answer::End(more) => Answer::End(turns + more),
        Answer::Fault(fault, turn) => Answer::Fault(fault, turns + turn),
        Answer::More => Answer::More,
    }
}

/// The turns in which a later arm still matters: after a fault those before it.
pub(crate) fn limit(budget: u64, answer: Answer) -> u64
    ensures { result ≡ limit_of budget answer }
{
    match answer {
        Answer::Fault(_, turn) => turn,
        Answer::End(_) | Answer::More => budget,
    }
}

/// The answer of two arms, of which the second ends.
fn join_end(first: Answer, turns: u64) -> Answer
    ensures { result ≡ plain.join first (Answer.End turns) }
{
    match first {
        Answer::End(others) => Answer::End(others.max(turns)),
        Answer::Fault(fault, turn) => Answer::Fault(fault, turn),
        Answer::More => Answer::More,
    }
}

/// The answer of two arms, of which the second needs more turns.
fn join_more(first: Answer) -> Answer
    ensures { result ≡ plain.join first Answer.More }
{
    match first {
        Answer::End(_) | Answer::More => Answer::More,
        Answer::Fault(fault, turn) => Answer::Fault(fault, turn),
    }
}

/// The answer of two arms, where the second had the turns that the first left.
pub(crate) fn join(first: Answer, second: Answer) -> Answer
    ensures { result ≡ plain.join first second }
{
    match second {
        Answer::End(turns) => join_end(first, turns),
        Answer::Fault(fault, turn) => Answer::Fault(fault, turn),
        Answer::More => join_more(first),
    }
}
