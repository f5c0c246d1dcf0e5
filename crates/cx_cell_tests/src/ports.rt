//! The ports of each row, in order.

use crate::turns::told;
use cx_prim::{Cycle, PortRow, Side};
use cx_text::Memory;
use std::alloc::Global;
use std::process::Abort;

// Written by hand from the rows as designs see them: the name and the numbers, and of each port the name, what it is to
// the primitive, and the width. An output that is not registered may read inputs.
const PORTS: &str = "
    std_const 8 7 = out:output:8
    std_wire 8 = in:plain:8 out:output:8
    std_not 8 = in:plain:8 out:output:8
    std_add 8 = left:plain:8 right:plain:8 out:output:8
    std_sub 8 = left:plain:8 right:plain:8 out:output:8
    std_and 8 = left:plain:8 right:plain:8 out:output:8
    std_or 8 = left:plain:8 right:plain:8 out:output:8
    std_xor 8 = left:plain:8 right:plain:8 out:output:8
    std_lsh 8 = left:plain:8 right:plain:8 out:output:8
    std_rsh 8 = left:plain:8 right:plain:8 out:output:8
    std_lt 8 = left:plain:8 right:plain:8 out:output:1
    std_gt 8 = left:plain:8 right:plain:8 out:output:1
    std_eq 8 = left:plain:8 right:plain:8 out:output:1
    std_neq 8 = left:plain:8 right:plain:8 out:output:1
    std_le 8 = left:plain:8 right:plain:8 out:output:1
    std_ge 8 = left:plain:8 right:plain:8 out:output:1
    std_slt 8 = left:plain:8 right:plain:8 out:output:1
    std_sgt 8 = left:plain:8 right:plain:8 out:output:1
    std_seq 8 = left:plain:8 right:plain:8 out:output:1
    std_sneq 8 = left:plain:8 right:plain:8 out:output:1
    std_sle 8 = left:plain:8 right:plain:8 out:output:1
    std_sge 8 = left:plain:8 right:plain:8 out:output:1
    std_slice 8 3 = in:plain:8 out:output:3
    std_pad 3 8 = in:plain:3 out:output:8
    std_mux 8 = cond:plain:1 tru:plain:8 fal:plain:8 out:output:8
    std_reg 8 = in:plain:8 write_en:enable:1 out:registered:8 done:registered:1
    std_mem_d1 8 9 4 = addr0:plain:4 write_data:plain:8 write_en:enable:1 read_data:output:8 done:registered:1
    std_mem_d2 8 9 2 4 5 = addr0:plain:4 addr1:plain:5 write_data:plain:8 write_en:enable:1 read_data:output:8 done:registered:1
    std_mem_d3 8 9 2 3 4 5 2 = addr0:plain:4 addr1:plain:5 addr2:plain:2 write_data:plain:8 write_en:enable:1 read_data:output:8 done:registered:1
    std_mem_d4 8 9 2 3 4 4 5 2 3 = addr0:plain:4 addr1:plain:5 addr2:plain:2 addr3:plain:3 write_data:plain:8 write_en:enable:1 read_data:output:8 done:registered:1
    comb_mem_d1 8 9 4 = addr0:plain:4 write_data:plain:8 write_en:enable:1 read_data:output:8 done:registered:1
    comb_mem_d2 8 9 2 4 5 = addr0:plain:4 addr1:plain:5 write_data:plain:8 write_en:enable:1 read_data:output:8 done:registered:1
    comb_mem_d3 8 9 2 3 4 5 2 = addr0:plain:4 addr1:plain:5 addr2:plain:2 write_data:plain:8 write_en:enable:1 read_data:output:8 done:registered:1
    comb_mem_d4 8 9 2 3 4 4 5 2 3 = addr0:plain:4 addr1:plain:5 addr2:plain:2 addr3:plain:3 write_data:plain:8 write_en:enable:1 read_data:output:8 done:registered:1
    seq_mem_d1 8 9 4 = addr0:plain:4 content_en:enable:1 write_en:enable:1 write_data:plain:8 read_data:registered:8 done:registered:1
    seq_mem_d2 8 9 2 4 5 = addr0:plain:4 addr1:plain:5 content_en:enable:1 write_en:enable:1 write_data:plain:8 read_data:registered:8 done:registered:1
    seq_mem_d3 8 9 2 3 4 5 2 = addr0:plain:4 addr1:plain:5 addr2:plain:2 content_en:enable:1 write_en:enable:1 write_data:plain:8 read_data:registered:8 done:registered:1
    seq_mem_d4 8 9 2 3 4 4 5 2 3 = addr0:plain:4 addr1:plain:5 addr2:plain:2 addr3:plain:3 content_en:enable:1 write_en:enable:1 write_data:plain:8 read_data:registered:8 done:registered:1
    std_mult_pipe 8 = go:enable:1 left:plain:8 right:plain:8 out:registered:8 done:registered:1
    std_div_pipe 8 = go:enable:1 left:plain:8 right:plain:8 out_quotient:registered:8 out_remainder:registered:8 done:registered:1
";

#[test]
fn ports_in_order(rt: HostRuntime) -> Result<(), Memory> {
    for line in PORTS.trim().lines() {
        has_ports(&rt, rt.alloc(), line)?;
    }
    Ok(())
}

/// Compares the ports of a row with those of a line.
fn has_ports(rt: &impl Abort, alloc: Global, line: &str) -> Result<(), Memory> {
    let (head, ports) = line.split_once('=').expect(rt, "ports");
    let cell = told(rt, alloc, head)?;
    for (n, port) in ports.split_whitespace().enumerate() {
        assert!(rt; n < cell.port_count(), "{line}");
        is_port(rt, cell.port(n), port);
    }
    assert_eq!(rt;
        ports.split_whitespace().count(),
        cell.port_count(),
        "{line}"
    );
    Ok(())
}

/// Compares a port with its name, side and width.
fn is_port(rt: &impl Abort, port: PortRow, text: &str) {
    let (name, rest) = text.split_once(':').expect(rt, "a side");
    let (side, width) = rest.split_once(':').expect(rt, "a width");
    assert_eq!(rt; port.name.text(), name);
    assert_eq!(rt; side_text(port.side), side, "{name}");
    assert_eq!(rt;
        port.width,
        width.parse::<u8>().expect(rt, "a number"),
        "{name}"
    );
}

fn side_text(side: Side) -> &'static str {
    match side {
        Side::Enable => "enable",
        Side::Plain => "plain",
        Side::Output => "output",
        Side::Registered => "registered",
    }
}
