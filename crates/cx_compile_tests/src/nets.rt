//! A net made by hand, as its text.

ghost use Rattle.std.specs.Prelude.{◌≡◌, [], ◌∷◌, IfOk, map};
ghost use Rattle.cx_emit.specs.Emitted.{CanBeEmitted};
ghost use Rattle.cx_meaning.specs.declared.ports.PortRef.TheVariants as ports;
ghost use Rattle.cx_net.specs.Nets.{ToPort};
ghost use Rattle.cx_net.specs.NetsAsData.{plain_net};
ghost use Rattle.cx_net.specs.PlainNets.{plain_net_component, plain_net_driver, plain_net_drivers, plain_net_expr};
ghost use Rattle.cx_compile_tests.specs.HandNet as hand;

use cx_bits::Bits;
use cx_cells::Primitive;
use cx_design::{Cell, CellKind};
use cx_emit::emit;
use cx_meaning::{Comparison, PortRef};
use cx_net::{Net, NetComponent, NetDriver, NetExpr, NetTarget};
use cx_text::{Name, Place};
use cx_vwrite::write;
use std::alloc::Global;
use std::test::Fail;

/// Worked by hand: the module of the register comes first, with whatever stands in it.
const MAIN: &str = "module main(
  input wire [0:0] clk,
  input wire [0:0] reset,
  input wire [0:0] go,
  output wire [0:0] done
);
  wire [7:0] cx_c0_0;
  wire [0:0] cx_c0_1;
  wire [7:0] cx_c0_2;
  wire [0:0] cx_c0_3;
  wire [0:0] cx_w0;
  wire [2:0] cx_w1;
  reg [31:0] cx_r0;
  assign cx_c0_0 = (go ? 8'h7 : (cx_w0 ? 8'h9 : 8'h0));
  assign cx_c0_1 = (cx_w0 ? 1'h1 : 1'h0);
  assign cx_w0 = ((go & (~cx_c0_3)) & (cx_r0 == 32'h0));
  assign cx_w1 = 3'h0;
  assign done = cx_c0_3;
";

/// Its edge.
const EDGE: &str = "  always @(posedge clk) begin
    if (reset) begin
      cx_r0 <= 32'h0;
    end else begin
      cx_r0 <= (cx_c0_3 ? (cx_r0 + 32'h1) : cx_r0);
    end
  end
endmodule
";

fn number(width: u8, value: u128) -> Result<NetExpr, Fail>
    ensures { IfOk result (λ e. plain_net_expr e ≡ hand.number width value) }
{
    Ok(NetExpr::Literal(Bits::new(width, value).ok_or("no number")?))
}

/// A driver of port `port` of the only cell.
fn of_port(port: u32, guard: NetExpr, source: NetExpr) -> NetDriver
    ensures { plain_net_driver result ≡
        hand.driver (ToPort (ports.Cell 0 port)) (plain_net_expr guard) (plain_net_expr source) }
{
    NetDriver {
        target: NetTarget::Port(PortRef::Cell(0, port)),
        guard,
        source,
    }
}

/// That the component goes, the register is not done, and register 0 is 0.
fn starts(alloc: Global) -> Result<NetExpr, Fail>
    ensures { IfOk result (λ e. plain_net_expr e ≡ hand.hand_starts) }
{
    let done = NetExpr::Port(PortRef::Cell(0, 3));
    let mut parts = Vec::new(alloc);
    parts.push(NetExpr::Go)?;
    parts.push(NetExpr::Not(Box::new(alloc, done)?))?;
    parts.push(NetExpr::Compare(
        Comparison::Equal,
        Box::new(alloc, NetExpr::Register(0))?,
        Box::new(alloc, number(32, 0)?)?,
    ))?;
    Ok(NetExpr::And(parts))
}

fn drivers(alloc: Global) -> Result<Vec<NetDriver>, Fail>
    ensures { IfOk result (λ drivers. plain_net_drivers drivers.items ≡ hand.hand_drivers) }
{
    let mut drivers = Vec::new(alloc);
    drivers.push(of_port(0, NetExpr::Go, number(8, 7)?))?;
    drivers.push(of_port(1, NetExpr::Wire(0), number(1, 1)?))?;
    drivers.push(of_port(0, NetExpr::Wire(0), number(8, 9)?))?;
    drivers.push(NetDriver {
        target: NetTarget::Wire(0),
        guard: number(1, 1)?,
        source: starts(alloc)?,
    })?;
    drivers.push(NetDriver {
        target: NetTarget::Wire(0),
        guard: NetExpr::Go,
        source: number(1, 0)?,
    })?;
    drivers.push(NetDriver {
        target: NetTarget::Register(0),
        guard: NetExpr::Port(PortRef::Cell(0, 3)),
        source: NetExpr::Add(
            Box::new(alloc, NetExpr::Register(0))?,
            Box::new(alloc, number(32, 1)?)?,
        ),
    })?;
    drivers.push(NetDriver {
        target: NetTarget::Done,
        guard: number(1, 1)?,
        source: NetExpr::Port(PortRef::Cell(0, 3)),
    })?;
    Ok(drivers)
}

/// The component of one register of 8 bits, two wires and a register of the control.
fn components(alloc: Global) -> Result<Vec<NetComponent>, Fail>
    ensures { IfOk result (λ parts. map plain_net_component parts.items ≡ hand.hand_part ∷ []) }
{
    let mut cells = Vec::new(alloc);
    cells.push(Cell {
        name: Name::from_bytes(alloc, b"r")?,
        kind: CellKind::Prim(
            Primitive::find(b"std_reg", &[8])
                .ok()
                .ok_or("no primitive")?,
        ),
        external: false,
        place: Place { line: 1, column: 1 },
    })?;
    let mut components = Vec::new(alloc);
    components.push(NetComponent {
        name: Name::from_bytes(alloc, b"main")?,
        inputs: Vec::new(alloc),
        outputs: Vec::new(alloc),
        cells,
        registers: vec![in alloc; 32]?,
        wires: vec![in alloc; 1, 3]?,
        holes: 0,
        drivers: drivers(alloc)?,
    })?;
    Ok(components)
}

/// The net of that component.
fn net(alloc: Global) -> Result<Net, Fail>
    ensures { IfOk result (λ net. CanBeEmitted (plain_net net)) }
{
    Ok(Net::new(components(alloc)?, 0))
}

/// Drivers of one target stand in their order, none behind one whose guard is the number 1; what nothing drives is 0; a register
/// stays where nothing drives it.
#[test]
fn as_its_text(rt: HostRuntime) -> Result<(), Fail> {
    let alloc = rt.alloc();
    let source = emit(alloc, &net(alloc)?)?;
    let bytes = write(alloc, &source).ok().ok_or("too long")?;
    let text = String::from_utf8(bytes).ok().ok_or("no text")?;
    assert!(rt; text.starts_with("module cx_std_reg_8("), "{text}");
    assert!(rt; text.contains(MAIN), "{text}");
    assert!(rt; text.ends_with(EDGE), "{text}");
    Ok(())
}
