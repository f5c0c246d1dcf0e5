//! The net of a design, stepped by itself.

ghost use Rattle.std.specs.Prelude.{IfOk};
ghost use Rattle.cx_net_runs.specs.States.{CanStep};

use cx_compiler::net_of;
use cx_data::load;
use cx_net_runs::NetState;
use std::alloc::Global;
use std::process::Abort;
use std::test::Fail;

/// The data of the memory `mem` of one word of 32 bits, which is 5.
pub(crate) const FIVE: &str =
    "{\"mem\":{\"data\":[5],\"format\":{\"numeric_type\":\"bitnum\",\"is_signed\":false,\"width\":32}}}";

/// The first design of README: it reads the word of a memory, adds 3 and writes it back, in three groups of two turns.
pub(crate) const ADD_THREE: &str = "component main() -> () {
  cells { @external mem = std_mem_d1(32, 1, 1); r = std_reg(32); a = std_add(32); }
  wires { group read { mem.addr0 = 1'd0; r.in = mem.read_data; r.write_en = 1'd1; read[done] = r.done; }
          group add { a.left = r.out; a.right = 32'd3; r.in = a.out; r.write_en = 1'd1; add[done] = r.done; }
          group write { mem.addr0 = 1'd0; mem.write_data = r.out; mem.write_en = 1'd1; write[done] = mem.done; } }
  control { seq { read; add; write; } }
}
";

/// The net of a design before the edge with reset, with the words of a data file.
fn started(rt: &impl Abort, alloc: Global, text: &str, json: &str) -> Result<NetState, Fail>
    ensures { IfOk result CanStep }
{
    let text = text.as_bytes();
    assert!(rt; text.len() <= 1_048_576);
    let own = net_of(alloc, text)?;
    let loaded = load(alloc, json.as_bytes(), &own.rows)?;
    Ok(NetState::start(alloc, &own.net, &loaded)?)
}

/// A cycle with go, in which the net is not done.
fn goes_on(rt: &impl Abort, state: &mut NetState)
    requires { CanStep state.old }
    ensures { CanStep state.new }
{
    assert!(rt; !state.done());
    state.step(false, true);
}

/// The first example is done after 6 steps with go, and not before.
#[test]
fn first_example(rt: HostRuntime) -> Result<(), Fail> {
    let alloc = rt.alloc();
    let mut state = started(&rt, alloc, ADD_THREE, FIVE)?;
    state.step(true, false);
    goes_on(&rt, &mut state);
    goes_on(&rt, &mut state);
    goes_on(&rt, &mut state);
    goes_on(&rt, &mut state);
    goes_on(&rt, &mut state);
    goes_on(&rt, &mut state);
    assert!(rt; state.done());
    Ok(())
}
