//! What holds of every machine.

ghost use Rattle.cx_vnets.specs.declared.nets.Stored.{Stored};
ghost use Rattle.cx_vnets.specs.declared.machines.Bench.{Bench};
ghost use Rattle.cx_vnets.specs.declared.machines.Machine.{Machine};
ghost use Rattle.cx_vnets.specs.Machines.{KeepsWidths};
ghost use Rattle.cx_vnets.specs.Runs.{IsReady};

/// A machine that fits what is stored fits whatever has the same widths.
pub fn machines_stay_ready()
    ensures { (m : Machine) (before after : Stored) (b : Bench) → KeepsWidths before after →
        IsReady m before b → IsReady m after b }
{}
