//! A port at which a cell stops a cycle.

ghost use Rattle.std.specs.Prelude.{◌≡◌};
ghost use Rattle.cx_meaning.specs.Cycles as cycles;

use cx_design::{FaultKind, Seen};

/// A port at which a cell stops a cycle, by its number in the cell, and why.
#[derive(Clone, Copy, Debug, PartialEq, Eq)]
pub struct CellStop {
    pub kind: FaultKind,
    pub port: u32,
}

/// The kind of the fault where a port is looked at that is no value.
fn kind_of(seen: Seen) -> FaultKind
    ensures { result ≡ cycles.kind_of seen }
{
    match seen {
        Seen::Conflict => FaultKind::Conflict,
        Seen::Value(_) | Seen::Undefined => FaultKind::Undefined,
    }
}

/// A port that is seen as no value stops its cell.
pub fn stop_at(port: u32, seen: Seen) -> CellStop
    ensures value { result ≡ record { kind = cycles.kind_of seen; port = port } }
{
    CellStop {
        kind: kind_of(seen),
        port,
    }
}
