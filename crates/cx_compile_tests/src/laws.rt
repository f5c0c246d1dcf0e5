//! The laws of accepted designs at worked designs: what `main` of a text comes to, the machine of its design and its net come to. Their
//! premises are met by what `net_of` and `interp` promise of a text.

ghost use Rattle.std.specs.Prelude.{◌≡◌, ◌≤◌, IfErr, IfOk, length};
ghost use Rattle.cx_commands.specs.declared.stops.Stop.TheVariants.{More};
ghost use Rattle.cx_compile_tests.specs.Alike.{EndsAlike, WaitsAlike};

use crate::stepped::{ADD_THREE, FIVE};
use cx_compiler::flat_laws::{
    accepted_texts_run_as_meant, what_is_run_is_accepted, what_is_run_is_flat,
};
use cx_compiler::net_of;
use cx_control::laws::machine_runs;
use cx_driver::{Stop, interp};
use cx_wiring_runs::laws::design_is_realised;
use std::alloc::Global;
use std::process::Abort;
use std::test::Fail;

/// The dump of what `main` of a text comes to on a data file, by `interp`, where the design is within the size that is compiled.
fn comes_to(alloc: Global, text: &[u8], json: &[u8], budget: u64) -> Result<Vec<u8>, Stop>
    requires { length text.now ≤ 1048576 }
    ensures ends { IfOk result (λ dump. EndsAlike text.now json.now budget dump.items) }
    ensures waits { IfErr result (λ stop. stop ≡ More budget → WaitsAlike text.now json.now budget) }
{
    machine_runs();
    design_is_realised();
    accepted_texts_run_as_meant();
    what_is_run_is_accepted();
    what_is_run_is_flat();
    match net_of(alloc, text) {
        Ok(_) => interp(alloc, text, json, budget),
        Err(stop) => Err(stop),
    }
}

/// A text comes to this dump after so many turns, and needs more where it has one turn fewer.
fn ends(
    rt: &impl Abort,
    alloc: Global,
    text: &str,
    json: &str,
    turns: u64,
    words: &str,
) -> Result<(), Fail> {
    let text = text.as_bytes();
    assert!(rt; text.len() <= 1_048_576);
    let dump = comes_to(alloc, text, json.as_bytes(), turns)?;
    let want = format!(in alloc; "{{\"cycles\":{turns},\"memories\":{words}}}\n")?;
    assert_eq!(rt; dump.as_slice(), want.as_bytes());
    let short = comes_to(alloc, text, json.as_bytes(), turns.saturating_sub(1));
    assert!(rt; matches!(short, Err(Stop::More(_))));
    Ok(())
}

/// `g0`, `g1` and `g2` each write a register of their own in two turns, and so does `child`; `s` sets `b` in an island of one cycle.
const PARTS: &str =
    "component child() -> () { cells { r = std_reg(8); } wires { group g { r.in = 8'd3; r.write_en = 1'd1; g[done] = r.done; } } control { g; } }
    component main() -> () { cells { x = std_reg(8); y = std_reg(8); z = std_reg(8); b = std_reg(1); c = child(); } wires {
    group g0 { x.in = 8'd1; x.write_en = 1'd1; g0[done] = x.done; }
    group g1 { y.in = x.out; y.write_en = 1'd1; g1[done] = y.done; }
    group g2 { z.in = 8'd2; z.write_en = 1'd1; g2[done] = z.done; }
    static<1> group s { b.in = 1'd1; b.write_en = 1'd1; } }";

/// Each control and the turns after which it ends, worked by hand from the table of `docs/MEANING.md`.
const ENDS: [(&str, u64); 7] = [
    ("", 1),
    ("g0;", 2),
    ("par { seq { g0; g1; } g2; }", 4),
    ("if b.out { g0; } else { seq { g0; g1; } }", 5),
    ("while b.out { g0; }", 1),
    ("static repeat 3 { s; }", 4),
    ("repeat 2 { invoke c()(); }", 6),
];

#[test]
fn designs(rt: HostRuntime) -> Result<(), Fail> {
    let alloc = rt.alloc();
    for (control, turns) in ENDS {
        let text = format!(in alloc; "{PARTS} control {{ {control} }} }}")?;
        ends(&rt, alloc, &text, "{}", turns, "{}")?;
    }
    ends(&rt, alloc, ADD_THREE, FIVE, 6, "{\"mem\":[8]}")?;
    Ok(())
}
