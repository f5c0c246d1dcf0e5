//! A primitive that is driven by a text, one line for each turn.
//!
//! The text has a part for each cell, with an empty line between. The first line of a part has the name and the numbers.
//! Each other line has how often its turn comes, what the turn is, and an entry for each port of the row in order: at
//! an input what stands there, at an output what is seen there after the turn, and `.` for no value.

ghost use Rattle.std.specs.Prelude.{◌≡◌};
ghost use Rattle.cx_prim.specs.CellStates.{IsState};
ghost use Rattle.cx_prim.specs.PrimitiveNames.{IsNamed};
ghost use Rattle.cx_prim.specs.Rows.{FitsPorts};
ghost use Rattle.cx_prim.specs.Table.{row_of};

use crate::conditions::{are_seen, inputs_fit, is_output, stepped};
use cx_bits::Bits;
use cx_cells::{PrimState, Primitive};
use cx_prim::{Cycle, input_at};
use cx_text::Memory;
use std::alloc::Global;
use std::process::Abort;

/// Plays each part of a text.
pub fn plays_all(rt: &impl Abort, alloc: Global, text: &str) -> Result<(), Memory> {
    for part in text.split("\n\n") {
        plays(rt, alloc, part.trim())?;
    }
    Ok(())
}

/// Plays the turns of one cell from its start.
fn plays(rt: &impl Abort, alloc: Global, part: &str) -> Result<(), Memory> {
    let (head, turns) = part.split_once('\n').expect(rt, "turns");
    let cell = told(rt, alloc, head)?;
    let mut state = cell.start(alloc)?;
    plays_from(rt, alloc, &cell, &mut state, turns)
}

/// Plays the turns of a cell from a state.
pub fn plays_from(
    rt: &impl Abort,
    alloc: Global,
    cell: &Primitive,
    state: &mut PrimState,
    turns: &str,
) -> Result<(), Memory>
    requires { IsState (row_of cell.now).shape state.old }
    ensures { IsState (row_of cell.now).shape state.new }
{
    for line in turns.lines() {
        turn(rt, alloc, cell, state, line.trim())?;
    }
    Ok(())
}

/// The primitive of a name and numbers.
pub fn told(rt: &impl Abort, alloc: Global, line: &str) -> Result<Primitive, Memory> {
    let mut words = line.split_whitespace();
    let name = words.next().expect(rt, "a name");
    let mut numbers = Vec::new(alloc);
    for word in words {
        numbers.push(word.parse::<u64>().expect(rt, "a number"))?;
    }
    let cell = found(rt, name, &numbers);
    Ok(cell)
}

/// The primitive that `find` gives, which tells this name and these numbers.
pub fn found(rt: &impl Abort, name: &str, numbers: &[u64]) -> Primitive
    ensures named { IsNamed result.name name.now }
    ensures numbers { result.numbers ≡ numbers.now }
{
    match Primitive::find(name.as_bytes(), numbers) {
        Ok(cell) => {
            assert_eq!(rt; cell.name(), name);
            assert_eq!(rt; cell.numbers(), numbers);
            cell
        }
        Err(fault) => panic!(rt; "{fault:?} of {name}"),
    }
}

/// Makes the turn of a line as often as it says, and compares the outputs after each.
fn turn(
    rt: &impl Abort,
    alloc: Global,
    cell: &Primitive,
    state: &mut PrimState,
    line: &str,
) -> Result<(), Memory>
    requires { IsState (row_of cell.now).shape state.old }
    ensures { IsState (row_of cell.now).shape state.new }
{
    let (times, call, words) = parted(rt, line);
    let ports = entries(rt, alloc, cell, words)?;
    assert!(rt; inputs_fit(cell, &ports), "{line}");
    for _time in 0..times {
        act(rt, cell, state, call, &ports);
        shows(rt, cell, state, &ports, line);
    }
    Ok(())
}

/// How often, which call, and the entries.
fn parted<'a>(rt: &impl Abort, line: &'a str) -> (u32, &'a str, &'a str) {
    let (times, rest) = line.split_once(' ').expect(rt, "a call");
    let (call, words) = rest.split_once(' ').expect(rt, "entries");
    (times.parse::<u32>().expect(rt, "a number"), call, words)
}

/// What a line has for each port, as wide as the port.
pub fn entries<C: Cycle>(
    rt: &impl Abort,
    alloc: Global,
    cell: &C,
    words: &str,
) -> Result<Vec<Option<Bits>>, Memory> {
    let mut values = Vec::new(alloc);
    for (n, word) in words.split_whitespace().enumerate() {
        assert!(rt; n < cell.port_count(), "{words}");
        values.push(entry(rt, cell.port(n).width, word))?;
    }
    Ok(values)
}

/// A value of a width: decimal, or hexadecimal after `0x`. `.` is none.
fn entry(rt: &impl Abort, width: u8, word: &str) -> Option<Bits> {
    if word == "." {
        return None;
    }
    let number = match word.strip_prefix("0x") {
        Some(digits) => u128::from_str_radix(digits, 16),
        None => word.parse::<u128>(),
    };
    let value = Bits::new(width, number.expect(rt, "a number"));
    assert!(rt; value.is_some(), "{word} in {width} bits");
    value
}

/// One turn. `look` is none, `addr0` to `addr3` are a step that is refused at this port, and the others are the calls of the same names.
fn act(rt: &impl Abort, cell: &Primitive, state: &mut PrimState, call: &str, ports: &[Option<Bits>])
    requires state_fits { IsState (row_of cell.now).shape state.old }
    requires inputs_fit { FitsPorts (row_of cell.now).ports ports.now }
    ensures { IsState (row_of cell.now).shape state.new }
{
    match call {
        "look" => {}
        "idle" => cell.idle(state),
        "reset" => cell.reset(state),
        "edge" => {
            assert!(rt; are_seen(cell, state, ports));
            cell.edge(state, ports);
        }
        "step" => assert_eq!(rt; stepped(rt, cell, state, ports), Ok(())),
        port => {
            let fault = stepped(rt, cell, state, ports)
                .err()
                .expect(rt, "a refusal");
            assert!(rt; fault.port < cell.port_count());
            assert_eq!(rt; cell.port(fault.port).name.text(), port);
        }
    }
}

/// Compares each output with its entry.
fn shows<C: Cycle>(rt: &impl Abort, cell: &C, state: &C::State, ports: &[Option<Bits>], line: &str)
    requires state_fits { IsState (C.meaning cell.now).shape (C.shown state.now) }
    requires inputs_fit { FitsPorts (C.meaning cell.now).ports ports.now }
{
    for n in 0..cell.port_count() {
        if is_output(cell, n) {
            assert_eq!(rt;
                cell.output(state, ports, n),
                input_at(ports, n),
                "port {n}: {line}"
            );
        }
    }
}
