//! A fault of a run as it is told.

ghost use Rattle.std.specs.Prelude.{◌≡◌, ◌⊎◌, ◌<◌, length};
ghost use Rattle.cx_meaning.specs.Cycles.{Fault};
ghost use Rattle.cx_meaning.specs.Instances.{paths_of, tree_of};
ghost use Rattle.cx_design.specs.PlainActives.{TellsFault};
ghost use Rattle.cx_design.specs.PlainDesigns.{plain_design};
ghost use Rattle.cx_compiler.specs.Interpreted.{fault_stop};
ghost use Rattle.cx_commands.specs.declared.stops.Stop.TheVariants as stops;

use cx_commands::Stop;
use cx_design::{Checked, PortFault};
use cx_state::port_path;
use std::alloc::Global;

/// A fault in a turn, counted from 0, with its port as messages name it from main on.
pub(crate) fn faulted(alloc: Global, design: &Checked, fault: PortFault, turn: u64) -> Stop
    requires instance { fault.instance < length (paths_of (tree_of (plain_design design.now))) }
    ensures { (plain : Fault) → TellsFault (tree_of (plain_design design.now)) plain fault
        → (result ≡ stops.Memory) ⊎ (result ≡ fault_stop (plain_design design.now) plain turn) }
{
    match port_path(alloc, design.design(), fault.instance, fault.port) {
        Ok(path) => Stop::Fault {
            kind: fault.kind,
            path,
            turn,
        },
        Err(memory) => memory.into(),
    }
}
