//! The values of all nets in a cycle, or the first net that has none.

ghost use Rattle.std.specs.Prelude.{◌≡◌, ℕ, ◌<◌, length, IfNone, MatchOption};
ghost use Rattle.cx_vnets.specs.Fits.{Fits};
ghost use Rattle.cx_vnets.specs.Looks.{look_net};
ghost use Rattle.cx_vnets.specs.Search.{Ready, Visited, AllHave, AllKnown, IsFirstWithout, AllUnseen, SameWidths};

use crate::marks::{FoundValue, NetMark, seen};
use crate::nets::{Driver, Nets, Stored};
use crate::values::value;
use cx_bits::Bits;

/// What a net's driver gives by what is known.
fn find(nets: &Nets, stored: &Stored, marks: &[NetMark], values: &[Bits], net: usize) -> FoundValue
    requires within { net < length nets.now.drivers.items }
    requires fits { Fits nets.now stored.now }
    requires widths { SameWidths values.now stored.now.nets.items }
    ensures { result ≡ look_net nets.now stored.now marks.now values.now net }
{
    match nets.drivers[net] {
        Driver::Held => FoundValue::Worth(stored.nets[net]),
        Driver::Tied(other) => seen(marks, values, other as usize),
        Driver::Given(code, place) => value(
            marks,
            values,
            &stored.arrays,
            place,
            &nets.codes[code as usize],
        ),
    }
}

/// Searches from the root, with a list of the nets that wait for one another. False where the root has no value.
fn visit(
    nets: &Nets,
    stored: &Stored,
    marks: &mut [NetMark],
    values: &mut [Bits],
    stack: &mut [usize],
    root: usize,
) -> bool
    requires root { root < length nets.now.drivers.items }
    requires stack { length stack.old ≡ length nets.now.drivers.items }
    requires fits { Fits nets.now stored.now }
    requires ready { Ready nets.now stored.now marks.old values.old }
    ensures visited { Visited nets.now stored.now root marks.old marks.new values.new result }
{
    if let NetMark::Known = marks[root] {
        return true;
    }
    stack[0] = root;
    marks[root] = NetMark::Open;
    let mut depth = 1;
    while depth > 0 {
        let top = stack[depth - 1];
        match find(nets, stored, marks, values, top) {
            FoundValue::Worth(v) => {
                marks[top] = NetMark::Known;
                values[top] = v;
                depth -= 1;
            }
            FoundValue::Waits(m) => {
                if let NetMark::Open = marks[m] {
                    return false;
                }
                marks[m] = NetMark::Open;
                stack[depth] = m;
                depth += 1;
            }
        }
    }
    true
}

/// Gives a net its value, where all that it needs has values.
fn try_net(nets: &Nets, stored: &Stored, marks: &mut [NetMark], values: &mut [Bits], net: usize)
    requires within { net < length nets.now.drivers.items }
    requires fits { Fits nets.now stored.now }
    requires ready { Ready nets.now stored.now marks.old values.old }
    ensures { Ready nets.now stored.now marks.new values.new }
{
    if let FoundValue::Worth(value) = find(nets, stored, marks, values, net) {
        marks[net] = NetMark::Known;
        values[net] = value;
    }
}

/// Tries nets in an order.
fn try_in_order(
    nets: &Nets,
    stored: &Stored,
    order: &[u32],
    marks: &mut [NetMark],
    values: &mut [Bits],
)
    requires fits { Fits nets.now stored.now }
    requires ready { Ready nets.now stored.now marks.old values.old }
    ensures { Ready nets.now stored.now marks.new values.new }
{
    for net in order {
        let net = *net as usize;
        if net < nets.drivers.len() {
            try_net(nets, stored, marks, values, net);
        }
    }
}

/// Forgets all values.
fn clear(marks: &mut [NetMark])
    ensures { AllUnseen marks.new }
{
    for mark in marks.iter_mut() {
        *mark = NetMark::Unseen;
    }
}

/// Gives each net its value in a cycle, or answers the first net that has none. Before, `values` has values of the nets'
/// widths; `marks` and `stack` are as long, and what they hold is of no account. Nets are tried in `order` first, which
/// may be any: where needs come first in it, each net is looked at once or twice.
pub fn settle(
    nets: &Nets,
    stored: &Stored,
    order: &[u32],
    marks: &mut [NetMark],
    values: &mut [Bits],
    stack: &mut [usize],
) -> Option<usize>
    requires marks { length marks.old ≡ length nets.now.drivers.items }
    requires stack { length stack.old ≡ length nets.now.drivers.items }
    requires fits { Fits nets.now stored.now }
    requires widths { SameWidths values.old stored.now.nets.items }
    ensures value { MatchOption result (AllHave nets.now stored.now values.new) (IsFirstWithout nets.now stored.now) }
    ensures known { IfNone result (AllKnown marks.new values.new) }
    ensures widths { SameWidths values.new stored.now.nets.items }
{
    clear(marks);
    try_in_order(nets, stored, order, marks, values);
    for root in 0..nets.drivers.len() {
        if !visit(nets, stored, marks, values, stack, root) {
            return Some(root);
        }
    }
    None
}
