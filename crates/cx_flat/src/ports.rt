//! Where ports stand in a flat component.

ghost use Rattle.std.specs.Prelude.{◌≡◌, ℕ, IfOk};
ghost use Rattle.cx_meaning.specs.declared.ports.PortRef.TheVariants as ports;
ghost use Rattle.cx_meaning.specs.Active.{same_port as is_same_port};
ghost use Rattle.cx_design.specs.PlainForms.{plain_assigns};
ghost use Rattle.cx_flattening.specs.Events.{source_in, source_to};
ghost use Rattle.cx_flat.specs.Stands.{block_by, own_by, stand_port};
ghost use Rattle.cx_flat.specs.Maps.{map_by, sources_by};

use crate::stands::{Block, Stand};
use cx_design::{Assign, PortRef, StaticInvoke};
use cx_design_copies::{PortMoves, sum};
use cx_text::Memory;

/// A map of ports to those of a flat component.
#[derive(Clone, Copy)]
pub(crate) enum PortMap<'a> {
    /// Of a component whose cells stand so.
    Own(&'a [Stand]),
    /// Of a static child whose block stands so. Its inputs stay.
    Inner(Block),
    /// Of a static child that is invoked. Its inputs are their sources in the caller, whose cells stand so.
    Invoked(Block, &'a [Stand], &'a StaticInvoke),
}

impl PortMoves for PortMap<'_> {
    ghost use Rattle.cx_flat.specs.Maps.{map_by};

    ghost moving = { map_by };

    fn port(&self, port: PortRef) -> Result<PortRef, Memory> {
        moved(*self, port)
    }
}

/// Where a port stands.
fn moved(moves: PortMap<'_>, port: PortRef) -> Result<PortRef, Memory>
    ensures value { IfOk result (λ moved. moved ≡ map_by moves.entry port) }
{
    match moves {
        PortMap::Own(stands) => own_port(stands, port),
        PortMap::Inner(block) => inner_port(block, port),
        PortMap::Invoked(block, stands, invoke) => invoked_port(block, stands, invoke, port),
    }
}

/// Where a port of a component stands: an output of a static child is that of its wire.
fn own_port(stands: &[Stand], port: PortRef) -> Result<PortRef, Memory>
    ensures value { IfOk result (λ moved. moved ≡ own_by stands.now port) }
{
    match port {
        PortRef::Cell(cell, number) => cell_port(stands.get(cell as usize).copied(), number),
        PortRef::Input(_) | PortRef::Output(_) | PortRef::Done(_) | PortRef::Literal(_, _) => {
            Ok(port)
        }
    }
}

/// Where a port of a cell stands. A cell that is not there stands nowhere.
fn cell_port(stand: Option<Stand>, number: u32) -> Result<PortRef, Memory>
    ensures value { (c : ℕ) → IfOk result (λ moved. moved ≡ stand_port stand c number) }
{
    match stand {
        None => Err(Memory),
        Some(Stand::Kept(at)) => Ok(PortRef::Cell(at, number)),
        Some(Stand::Inlined(block)) => {
            let output = number.saturating_sub(1).saturating_sub(block.inputs);
            Ok(PortRef::Cell(sum(block.wires, output)?, 1))
        }
    }
}

/// Where a port of a static child stands. Its inputs stay.
fn inner_port(block: Block, port: PortRef) -> Result<PortRef, Memory>
    ensures value { IfOk result (λ moved. moved ≡ block_by block (λ n. ports.Input n) port) }
{
    match port {
        PortRef::Cell(cell, number) => Ok(PortRef::Cell(sum(block.cells, cell)?, number)),
        PortRef::Output(output) => Ok(PortRef::Cell(sum(block.wires, output)?, 0)),
        PortRef::Input(_) | PortRef::Done(_) | PortRef::Literal(_, _) => Ok(port),
    }
}

/// Where a port of a static child stands that is invoked.
fn invoked_port(
    block: Block,
    stands: &[Stand],
    invoke: &StaticInvoke,
    port: PortRef,
) -> Result<PortRef, Memory>
    ensures value { IfOk result (λ moved. moved ≡ block_by block (sources_by stands.now invoke.now) port) }
{
    match port {
        PortRef::Input(input) => own_port(stands, source(invoke, input)?),
        PortRef::Cell(_, _) | PortRef::Output(_) | PortRef::Done(_) | PortRef::Literal(_, _) => {
            inner_port(block, port)
        }
    }
}

/// The source of an input.
fn source(invoke: &StaticInvoke, input: u32) -> Result<PortRef, Memory>
    ensures value { IfOk result
        (λ source. source ≡ source_to invoke.now.cell (plain_assigns invoke.now.inputs.items) input) }
{
    let number = sum(input, 1)?;
    Ok(bound(&invoke.inputs, PortRef::Cell(invoke.cell, number)))
}

/// What is bound to a port; one that nothing is bound to is itself.
fn bound(inputs: &[Assign], port: PortRef) -> PortRef
    ensures value { result ≡ source_in 0 (plain_assigns inputs.now) port }
{
    for input in inputs {
        if same_port(input.target, port) {
            return input.source.port;
        }
    }
    port
}

/// Whether two ports are one.
fn same_port(port: PortRef, other: PortRef) -> bool
    ensures value { result ≡ is_same_port port other }
{
    match (port, other) {
        (PortRef::Cell(c, p), PortRef::Cell(d, q)) => c == d && p == q,
        (PortRef::Input(m), PortRef::Input(n)) => m == n,
        (PortRef::Output(m), PortRef::Output(n)) => m == n,
        (PortRef::Done(g), PortRef::Done(h)) => g == h,
        (PortRef::Literal(w, v), PortRef::Literal(x, u)) => w == x && v == u,
        _ => false,
    }
}
