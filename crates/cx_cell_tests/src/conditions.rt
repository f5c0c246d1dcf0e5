//! Whether a call of a primitive may be made: the conditions of `Cycle` as tests.

ghost use Rattle.std.specs.Prelude.{◌≡◌, ◌<◌, ◌↔◌, true, Some, IsTrue, length, slice_get};
ghost use Rattle.cx_bits.specs.BitVector.{BitVector};
ghost use Rattle.cx_prim.specs.declared.ports.Side.TheVariants.{Enable, Plain};
ghost use Rattle.cx_prim.specs.declared.ports.PortRow.{PortRow};
ghost use Rattle.cx_prim.specs.CellStates.{IsState};
ghost use Rattle.cx_prim.specs.Rows.{FitsPorts, HasSide, IsLookedAt, is_output_side};
ghost use Rattle.cx_cell_tests.specs.Seen.{IsSeenAt};

use cx_bits::Bits;
use cx_prim::{Cycle, OutOfRange, Side, input_at};
use std::process::Abort;

/// Whether a value has this width, where one stands there.
fn is_as_wide(entry: Option<Bits>, width: u8) -> bool
    ensures value { IsTrue result ↔ ((b : BitVector) → entry ≡ Some b → b.width ≡ width) }
{
    match entry {
        Some(value) => value.width() == width,
        None => true,
    }
}

/// Whether each value is as wide as its port.
pub fn inputs_fit<C: Cycle>(cell: &C, inputs: &[Option<Bits>]) -> bool
    ensures value { IsTrue result → FitsPorts (C.meaning cell.now).ports inputs.now }
{
    if inputs.len() != cell.port_count() {
        return false;
    }
    for n in 0..inputs.len() {
        if !is_as_wide(input_at(inputs, n), cell.port(n).width) {
            return false;
        }
    }
    true
}

/// Whether an edge looks at a port.
fn is_wanted<C: Cycle>(cell: &C, state: &C::State, inputs: &[Option<Bits>], n: usize) -> bool
    requires state_fits { IsState (C.meaning cell.now).shape (C.shown state.now) }
    requires inputs_fit { FitsPorts (C.meaning cell.now).ports inputs.now }
    requires within { n < length (C.meaning cell.now).ports }
    ensures enabling { (port : PortRow) → slice_get (C.meaning cell.now).ports n ≡ Some port →
        port.side ≡ Enable → result ≡ true }
    ensures demanded { (port : PortRow) → slice_get (C.meaning cell.now).ports n ≡ Some port →
        port.side ≡ Plain → result ≡ (C.meaning cell.now).demands (C.shown state.now) inputs.now n }
{
    match cell.port(n).side {
        Side::Enable => true,
        Side::Plain => cell.demands(state, inputs, n),
        _ => false,
    }
}

/// Whether a value stands at a port, where an edge looks at it.
fn is_seen<C: Cycle>(cell: &C, state: &C::State, inputs: &[Option<Bits>], n: usize) -> bool
    requires state_fits { IsState (C.meaning cell.now).shape (C.shown state.now) }
    requires inputs_fit { FitsPorts (C.meaning cell.now).ports inputs.now }
    requires within { n < length (C.meaning cell.now).ports }
    ensures value { IsTrue result → IsSeenAt (C.meaning cell.now) (C.shown state.now) inputs.now n }
{
    if is_wanted(cell, state, inputs, n) {
        return input_at(inputs, n).is_some();
    }
    true
}

/// Whether a value stands wherever an edge looks.
pub fn are_seen<C: Cycle>(cell: &C, state: &C::State, inputs: &[Option<Bits>]) -> bool
    requires state_fits { IsState (C.meaning cell.now).shape (C.shown state.now) }
    requires inputs_fit { FitsPorts (C.meaning cell.now).ports inputs.now }
    ensures value { IsTrue result → IsLookedAt (C.meaning cell.now) (C.shown state.now) inputs.now }
{
    for n in 0..cell.port_count() {
        if !is_seen(cell, state, inputs, n) {
            return false;
        }
    }
    true
}

/// Whether a port is an output.
pub fn is_output<C: Cycle>(cell: &C, n: usize) -> bool
    ensures value { IsTrue result → HasSide (C.meaning cell.now) n is_output_side }
{
    if n >= cell.port_count() {
        return false;
    }
    match cell.port(n).side {
        Side::Output | Side::Registered => true,
        _ => false,
    }
}

/// A step, for which the test first looks whether it may be made.
pub fn stepped<C: Cycle>(
    rt: &impl Abort,
    cell: &C,
    state: &mut C::State,
    inputs: &[Option<Bits>],
) -> Result<(), OutOfRange>
    requires { IsState (C.meaning cell.now).shape (C.shown state.old) }
    ensures { IsState (C.meaning cell.now).shape (C.shown state.new) }
{
    assert!(rt; inputs_fit(cell, inputs));
    assert!(rt; are_seen(cell, state, inputs));
    cell.step(state, inputs)
}
