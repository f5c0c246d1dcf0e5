//! The words of external memories: from a data file, and to a dump.

ghost use Rattle.std.specs.Prelude.{◌≡◌, ◌≢◌, ◌⊎◌, All, Ok, IfOk, IfErr, map};
ghost use Rattle.cx_text.specs.Loading.{FitsRows, FitsShape, plain_loaded, plain_rows};
ghost use Rattle.cx_data.specs.Dump.{dump_text};
ghost use Rattle.cx_data.specs.Load.{load_of};
ghost use Rattle.cx_data.specs.Widths.{HasWordWidth};
ghost use Rattle.cx_driver.specs.Loads.{IsUnloaded};
ghost use Rattle.cx_data.specs.declared.faults.DataFault.TheVariants as faults;
ghost use Rattle.cx_commands.specs.declared.stops.Stop.TheVariants as stops;

use cx_commands::Stop;
use cx_data::DataFault;
use cx_text::{Loaded, Memory, MemoryRow};
use std::alloc::Global;

/// The words that a data file gives.
pub(crate) fn load(alloc: Global, json: &[u8], rows: &[MemoryRow]) -> Result<Loaded, Stop>
    requires widths { All HasWordWidth (plain_rows rows.now) }
    ensures loaded { IfOk result (λ loaded. load_of json.now (plain_rows rows.now) ≡ Ok (plain_loaded loaded)) }
    ensures fits { IfOk result (λ loaded. FitsRows (plain_rows rows.now) (plain_loaded loaded)) }
    ensures cause { IfErr result (IsUnloaded (plain_rows rows.now) json.now) }
{
    match cx_data::load(alloc, json, rows) {
        Ok(loaded) => Ok(loaded),
        Err(fault) => Err(of_load(fault)),
    }
}

/// Why a data file is not loaded.
fn of_load(fault: DataFault) -> Stop
    ensures { (result ≡ stops.Memory) ⊎ ((fault ≢ faults.Memory) × (result ≡ stops.Json fault)) }
{
    match fault {
        DataFault::Memory => Stop::Memory,
        fault => Stop::Json(fault),
    }
}

/// The dump of a run.
pub(crate) fn dump_of(alloc: Global, cycles: u64, loaded: &Loaded) -> Result<Vec<u8>, Memory>
    requires fits { All FitsShape (plain_loaded loaded.now) }
    requires widths { All HasWordWidth (map (λ m. m.shape) (plain_loaded loaded.now)) }
    ensures { IfOk result (λ dump. dump.items ≡ dump_text cycles (plain_loaded loaded.now)) }
{
    let mut dump = Vec::new(alloc);
    cx_data::dump(alloc, cycles, loaded, &mut dump)?;
    Ok(dump)
}
