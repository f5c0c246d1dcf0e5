//! Static invokes by their numbers.

ghost use Rattle.std.specs.Prelude.{◌≡◌, None, Some, IfNone, IfSome};
ghost use Rattle.cx_rules.specs.Invokes as rules;
ghost use Rattle.cx_rules.specs.Invokes.{invoke_at};
ghost use Rattle.cx_rules.specs.StaticControl as control;
ghost use Rattle.cx_design.specs.PlainForms.{plain_component, plain_invoke};
ghost use Rattle.cx_shape_rules.specs.Measures.{capped};

use cx_design::{Component, StaticInvoke};

/// The static invoke of a number, where the component has it.
pub fn invoke_of(part: &Component, number: usize) -> Option<&StaticInvoke>
    ensures none { IfNone result (invoke_at (plain_component part.now) number ≡ None) }
    ensures some { IfSome result
        (λ invoke. invoke_at (plain_component part.now) number ≡ Some (plain_invoke invoke.now)) }
{
    part.invokes.as_slice().get(number)
}

/// Whether the word static stands at an invoke; not for a number that names none.
pub fn is_written(part: &Component, number: usize) -> bool
    ensures value { result ≡ control.is_written (invoke_at (plain_component part.now) number) }
{
    match invoke_of(part, number) {
        Some(invoke) => invoke.written,
        None => false,
    }
}

/// Whether the word static stands at an invoke, and its cell is of a static component.
pub fn is_timed(invoke: &StaticInvoke) -> bool
    ensures value { result ≡ control.is_timed (Some (plain_invoke invoke.now)) }
{
    invoke.written && invoke.latency.is_some()
}

/// The cycles of an invoke; none where its cell is of another kind.
pub fn invoke_length(invoke: &StaticInvoke) -> u128
    ensures value { result ≡ capped (rules.invoke_length (Some (plain_invoke invoke.now))) }
{
    cycles_of(invoke.latency, invoke.captures)
}

/// The cycles of a latency, and one more where registers are captured.
fn cycles_of(latency: Option<u64>, captures: Option<u32>) -> u128
    ensures value { result ≡ capped (rules.cycles_of latency captures) }
{
    match (latency, captures) {
        (Some(latency), Some(_)) => latency as u128 + 1,
        (Some(latency), None) => latency as u128,
        (None, _) => 0,
    }
}
