//! A look at a cell of the asked instance.

ghost use Rattle.std.specs.Prelude.{◌≡◌, ◌+◌, ◌^◌, ◌<◌, ℕ, true, IfErr, IfOk, List, OnOk, length};
ghost use Rattle.cx_prim.specs.CellStates.{IsState};
ghost use Rattle.cx_prim.specs.declared.ports.PortRow.{PortRow};
ghost use Rattle.cx_prim.specs.Rows.{FitsPorts, IsLookedAt, IsQuiet};
ghost use Rattle.cx_prim.specs.Table.{row_of};
ghost use Rattle.cx_meaning.specs.Cycles.{cell_outcome, enables, looks_at};
ghost use Rattle.cx_eval_drives.specs.Gathers.{AreWide};
ghost use Rattle.cx_eval_network.specs.Askings.{IsAsking};
ghost use Rattle.cx_eval_cycle.specs.Ports.{AllStand, IsLack, KeepStanding, Stands, StopsAt};
ghost use Rattle.cx_eval_cycle.specs.Rooms.{HasRoom};
ghost use Rattle.cx_eval_cycle.specs.Stepping.{IsStepping};
ghost use Rattle.cx_eval_cycle.specs.Stops.{told};
ghost use Rattle.cx_eval.specs.Looked.{CanDemand, HaveNodes, StandFrom, StandsAs, count_in, seen_from, seen_look};
ghost use Rattle.cx_eval.specs.Shown.{ShowFrom, ShowsFrom};

use crate::demanding::{PortSources, port_seen};
use cx_bits::Bits;
use cx_cells::PrimState;
use cx_design::{FaultKind, Seen};
use cx_eval_cycle::{CellRoom, CellStop, SteppingCell, out_of_range, stop_at};
use cx_eval_network::{Asking, Marks};
use cx_prim::Cycle;

/// Demands a port of a cell whose ports stand from a node on, keeps what stands there, and tells whether it is 0. A port that
/// is seen as no value stops the cell.
fn demand_at(
    asking: &Asking<'_>,
    marks: &mut Marks,
    first: usize,
    sources: PortSources<'_>,
    port: usize,
    inputs: &mut [Option<Bits>],
) -> Result<bool, CellStop>
    requires can { IsAsking asking.now }
    requires ready { CanDemand asking.now marks.old }
    requires sources { ShowsFrom asking.now first port sources }
    requires node { first + port < count_in asking.now }
    requires few { port < 2 ^ 32 }
    requires within { port < length inputs.old }
    ensures stands { IfOk result (StandsAs (seen_from asking.now first) inputs.new port) }
    ensures lacks { IfErr result (IsLack (seen_from asking.now first) port) }
    ensures kept { KeepStanding (seen_from asking.now first) inputs.old inputs.new }
    ensures fits { (ports : List PortRow) → AreWide (seen_from asking.now first) ports →
        FitsPorts ports inputs.old → FitsPorts ports inputs.new }
    ensures ready { CanDemand asking.now marks.new }
{
    let number = port as u32;
    match port_seen(asking, marks, first, sources, port) {
        Seen::Value(bits) => {
            inputs[port] = Some(bits);
            Ok(bits.value() == 0)
        }
        Seen::Conflict => Err(stop_at(number, Seen::Conflict)),
        Seen::Undefined => Err(stop_at(number, Seen::Undefined)),
    }
}

/// Demands the enabling ports of a cell in port order, and tells whether all of them are 0.
fn demand_enabling(
    asking: &Asking<'_>,
    marks: &mut Marks,
    first: usize,
    sources: PortSources<'_>,
    stepping: &SteppingCell<'_>,
    inputs: &mut [Option<Bits>],
) -> Result<bool, CellStop>
    requires can { IsAsking asking.now }
    requires ready { CanDemand asking.now marks.old }
    requires nodes { HaveNodes asking.now (row_of stepping.now.primitive.now).ports first }
    requires sources { ShowFrom asking.now first (row_of stepping.now.primitive.now).ports sources }
    requires stepping { IsStepping stepping.now.primitive.now stepping.now }
    requires fits { FitsPorts (row_of stepping.now.primitive.now).ports inputs.old }
    ensures stand { OnOk result (AllStand (seen_from asking.now first)
        (enables (row_of stepping.now.primitive.now))
        (length (row_of stepping.now.primitive.now).ports) inputs.new) }
    ensures quiet { IfOk result (λ quiet. quiet ≡ true → IsQuiet (row_of stepping.now.primitive.now) inputs.new) }
    ensures stops { IfErr result (StopsAt (seen_from asking.now first)
        (enables (row_of stepping.now.primitive.now)) (length (row_of stepping.now.primitive.now).ports)) }
    ensures fits { FitsPorts (row_of stepping.now.primitive.now).ports inputs.new }
    ensures ready { CanDemand asking.now marks.new }
{
    let mut quiet = true;
    for number in 0..stepping.enabling.len() {
        let port = stepping.enabling[number];
        let zero = demand_at(asking, marks, first, sources, port, inputs)?;
        quiet = quiet & zero;
    }
    Ok(quiet)
}

/// Demands a plain input of a cell, where its primitive asks for it at what stands at its enabling ports.
fn demand_asked(
    asking: &Asking<'_>,
    marks: &mut Marks,
    first: usize,
    sources: PortSources<'_>,
    stepping: &SteppingCell<'_>,
    state: &PrimState,
    port: usize,
    inputs: &mut [Option<Bits>],
) -> Result<(), CellStop>
    requires can { IsAsking asking.now }
    requires ready { CanDemand asking.now marks.old }
    requires nodes { HaveNodes asking.now (row_of stepping.now.primitive.now).ports first }
    requires sources { ShowFrom asking.now first (row_of stepping.now.primitive.now).ports sources }
    requires state { IsState (row_of stepping.now.primitive.now).shape state.now }
    requires within { port < length (row_of stepping.now.primitive.now).ports }
    requires fits { FitsPorts (row_of stepping.now.primitive.now).ports inputs.old }
    ensures stands { OnOk result ((row_of stepping.now.primitive.now).demands state.now inputs.old port ≡
        true → Stands (seen_from asking.now first) inputs.new port) }
    ensures lacks { IfErr result (IsLack (seen_from asking.now first) port) }
    ensures asked { IfErr result
        (λ stop. (row_of stepping.now.primitive.now).demands state.now inputs.old port ≡ true) }
    ensures kept { KeepStanding (seen_from asking.now first) inputs.old inputs.new }
    ensures fits { FitsPorts (row_of stepping.now.primitive.now).ports inputs.new }
    ensures ready { CanDemand asking.now marks.new }
{
    if stepping.primitive.demands(state, inputs, port) {
        demand_at(asking, marks, first, sources, port, inputs)?;
    }
    Ok(())
}

/// Demands the plain inputs of a cell that its primitive asks for at what stands at its enabling ports, in port order.
fn demand_plain(
    asking: &Asking<'_>,
    marks: &mut Marks,
    first: usize,
    sources: PortSources<'_>,
    stepping: &SteppingCell<'_>,
    state: &PrimState,
    inputs: &mut [Option<Bits>],
) -> Result<(), CellStop>
    requires can { IsAsking asking.now }
    requires ready { CanDemand asking.now marks.old }
    requires nodes { HaveNodes asking.now (row_of stepping.now.primitive.now).ports first }
    requires sources { ShowFrom asking.now first (row_of stepping.now.primitive.now).ports sources }
    requires stepping { IsStepping stepping.now.primitive.now stepping.now }
    requires state { IsState (row_of stepping.now.primitive.now).shape state.now }
    requires fits { FitsPorts (row_of stepping.now.primitive.now).ports inputs.old }
    requires enabling { AllStand (seen_from asking.now first)
        (enables (row_of stepping.now.primitive.now))
        (length (row_of stepping.now.primitive.now).ports) inputs.old }
    ensures stand { OnOk result (AllStand (seen_from asking.now first)
        (looks_at (row_of stepping.now.primitive.now) state.now inputs.old)
        (length (row_of stepping.now.primitive.now).ports) inputs.new) }
    ensures stops { IfErr result (StopsAt (seen_from asking.now first)
        (looks_at (row_of stepping.now.primitive.now) state.now inputs.old)
        (length (row_of stepping.now.primitive.now).ports)) }
    ensures fits { FitsPorts (row_of stepping.now.primitive.now).ports inputs.new }
    ensures ready { CanDemand asking.now marks.new }
{
    for number in 0..stepping.plain.len() {
        let port = stepping.plain[number];
        demand_asked(asking, marks, first, sources, stepping, state, port, inputs)?;
    }
    Ok(())
}

/// Looks at a cell that can step, whose ports stand from a node on: at its enabling ports in port order, then at the
/// ports that it demands at their values, then at its addresses. Each port is demanded as it is looked at. Where nothing
/// stops the cell, `inputs` has what stands at these.
fn look_at(
    asking: &Asking<'_>,
    marks: &mut Marks,
    first: usize,
    sources: PortSources<'_>,
    stepping: &SteppingCell<'_>,
    state: &PrimState,
    inputs: &mut [Option<Bits>],
) -> Result<(), CellStop>
    requires can { IsAsking asking.now }
    requires ready { CanDemand asking.now marks.old }
    requires nodes { HaveNodes asking.now (row_of stepping.now.primitive.now).ports first }
    requires sources { ShowFrom asking.now first (row_of stepping.now.primitive.now).ports sources }
    requires stepping { IsStepping stepping.now.primitive.now stepping.now }
    requires state { IsState (row_of stepping.now.primitive.now).shape state.now }
    requires fits { FitsPorts (row_of stepping.now.primitive.now).ports inputs.old }
    ensures value { (cell : ℕ) → StandFrom asking.now cell (row_of stepping.now.primitive.now).ports first →
        told (row_of stepping.now.primitive.now) state.now result inputs.new ≡
        cell_outcome (seen_look asking.now) cell (row_of stepping.now.primitive.now) state.now }
    ensures looked_at { OnOk result (IsLookedAt (row_of stepping.now.primitive.now) state.now inputs.new) }
    ensures fits { FitsPorts (row_of stepping.now.primitive.now).ports inputs.new }
    ensures ready { CanDemand asking.now marks.new }
{
    let quiet = demand_enabling(asking, marks, first, sources, stepping, inputs)?;
    if quiet {
        return Ok(());
    }
    demand_plain(asking, marks, first, sources, stepping, state, inputs)?;
    match out_of_range(&stepping.addresses, inputs) {
        Some(port) => Err(CellStop {
            kind: FaultKind::Range,
            port: port as u32,
        }),
        None => Ok(()),
    }
}

/// Looks at a cell that can step, and leaves in its room what stands at its ports. It takes no memory.
pub fn look_in(
    asking: &Asking<'_>,
    marks: &mut Marks,
    first: usize,
    sources: PortSources<'_>,
    stepping: &SteppingCell<'_>,
    state: &PrimState,
    room: &mut CellRoom,
) -> Result<(), CellStop>
    requires can { IsAsking asking.now }
    requires ready { CanDemand asking.now marks.old }
    requires nodes { HaveNodes asking.now (row_of stepping.now.primitive.now).ports first }
    requires sources { ShowFrom asking.now first (row_of stepping.now.primitive.now).ports sources }
    requires stepping { IsStepping stepping.now.primitive.now stepping.now }
    requires state { IsState (row_of stepping.now.primitive.now).shape state.now }
    requires room { HasRoom (row_of stepping.now.primitive.now).ports room.old }
    ensures value { (cell : ℕ) → StandFrom asking.now cell (row_of stepping.now.primitive.now).ports first →
        told (row_of stepping.now.primitive.now) state.now result room.new.inputs.items ≡
        cell_outcome (seen_look asking.now) cell (row_of stepping.now.primitive.now) state.now }
    ensures looked_at { OnOk result (IsLookedAt (row_of stepping.now.primitive.now) state.now room.new.inputs.items) }
    ensures ready { CanDemand asking.now marks.new }
    ensures room { HasRoom (row_of stepping.now.primitive.now).ports room.new }
{
    look_at(
        asking,
        marks,
        first,
        sources,
        stepping,
        state,
        &mut room.inputs,
    )
}
