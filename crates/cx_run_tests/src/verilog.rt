//! A Verilog text that is read and written, and the order in which nets are tried.

use cx_vread::read;
use cx_vsim::machine;
use cx_vwrite::write;
use std::test::Fail;

/// A counter of four bits whose `done` is 1 at ten.
const COUNTER: &str =
    "module main(\n  input wire [0:0] clk,\n  input wire [0:0] reset,\n  input wire [0:0] go,\n  output wire [0:0] done\n);\n  reg [3:0] n;\n  assign done = (n == 4'ha);\n  always @(posedge clk) begin\n    if (reset) begin\n      n <= 4'h0;\n    end else begin\n      n <= (n + 4'h1);\n    end\n  end\nendmodule\n";

/// `done` waits for `a`, `a` for `b`, and `b` for `go`.
const WAITING: &str =
    "module main(\n  input wire [0:0] clk,\n  input wire [0:0] reset,\n  input wire [0:0] go,\n  output wire [0:0] done\n);\n  wire [0:0] a;\n  wire [0:0] b;\n  assign done = a;\n  assign a = b;\n  assign b = go;\nendmodule\n";

/// A counter is read, and written as the same text.
#[test]
fn counter_is_read_and_written(rt: HostRuntime) -> Result<(), Fail> {
    let text = COUNTER.as_bytes();
    let source = read(rt.alloc(), text).ok().ok_or("source")?;
    let written = write(rt.alloc(), &source).ok().ok_or("text")?;
    assert_eq!(rt; written.as_slice(), text);
    Ok(())
}

/// Nets are tried behind those that they wait for.
#[test]
fn needs_come_first(rt: HostRuntime) -> Result<(), Fail> {
    let source = read(rt.alloc(), WAITING.as_bytes()).ok().ok_or("source")?;
    let built = machine(rt.alloc(), &source).ok().ok_or("machine")?;
    assert_eq!(rt;
        built.machine.order.as_slice(),
        [0, 1, 2, 5, 4, 3].as_slice()
    );
    Ok(())
}
